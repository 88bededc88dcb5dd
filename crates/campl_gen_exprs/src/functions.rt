//! The blocks of functions.
ghost use Rattle.std.specs.Prelude.{◌≡◌, ◌∷◌, ◌++◌, ◌+◌, List, [], IfOk, OnOk, length, map};
ghost use Rattle.campl_tree.specs.View.{view_decl, view_function, view_function_row};
ghost use Rattle.campl_types.specs.World.{World as Declared};
ghost use Rattle.campl_code.specs.CaseDecisions.{cases_in_function};
ghost use Rattle.campl_code.specs.Generated.{loads_code, function_block, function_blocks};
ghost use Rattle.campl_code.specs.Stands.{functions_of};
ghost use Rattle.campl_instructions.specs.View.{view_block};
ghost use Rattle.campl_gen_exprs.specs.Emission.{appended};
ghost use Rattle.campl_gen_exprs.specs.Functions.{function_row_emitted, function_rows_emitted, function_row_places, function_closed, function_emitted, block_with};
ghost use Rattle.campl_gen_exprs.specs.View.{view_emitter};

use crate::binding::bind_patterns;
use crate::emission::emit;
use crate::emitter::Emitter;
use crate::source::{Source, small};
use campl_instructions::{Block, Instr};
use campl_tree::{Decl, FunctionDecl, FunctionRow};
use sqlite_items::Items;
use std::alloc::{AllocError, Global};

/// The blocks of a source's functions, in the order of their declarations. Their decisions are numbered from 0 in that order.
///
/// # Errors
///
/// `AllocError` where memory wants, or where a number is 2^32 or more.
pub fn function_blocks(alloc: Global, source: &Source<'_>) -> Result<Items<Block>, AllocError>
    ensures { IfOk result (λ blocks. map view_block blocks ≡ function_blocks (map view_decl source.now) (functions_of (map view_decl source.now)) 0) }
{
    let mut blocks = Items::new(alloc);
    let mut decisions: u32 = 0;
    let declarations = source.declarations();
    for i in 0..declarations.len() {
        let declaration = &declarations[i];
        decisions = emit_declaration(alloc, source, declaration, decisions, &mut blocks)?;
    }
    Ok(blocks)
}

// Puts the block of a declaration that is a function behind the others, and gives the number of the next decision.
#[tactic(auto, using(crate::proofs::Emitting::views))]
fn emit_declaration(
    alloc: Global,
    source: &Source<'_>,
    declaration: &Decl,
    decisions: u32,
    blocks: &mut Items<Block>,
) -> Result<u32, AllocError>
    ensures { IfOk result (λ n. (ds : Declared) → map view_block blocks.new ++ function_blocks (map view_decl source.now) (functions_of ds) n ≡ map view_block blocks.old ++ function_blocks (map view_decl source.now) (functions_of (view_decl declaration.now ∷ ds)) decisions) }
{
    match declaration {
        Decl::Function(f) => put_function(alloc, source, f, decisions, blocks),
        Decl::Data(_) => Ok(decisions),
        Decl::Protocol(_) => Ok(decisions),
        Decl::Coprotocol(_) => Ok(decisions),
        Decl::Process(_) => Ok(decisions),
    }
}

// Puts a function's block behind the others, and gives the number of the next decision.
#[tactic(auto, using(crate::proofs::Emitting::views))]
fn put_function(
    alloc: Global,
    source: &Source<'_>,
    f: &FunctionDecl,
    decisions: u32,
    blocks: &mut Items<Block>,
) -> Result<u32, AllocError>
    ensures next { IfOk result (λ n. n ≡ decisions + cases_in_function (view_function f.now)) }
    ensures block { OnOk result (map view_block blocks.new ≡ map view_block blocks.old ++ function_block (map view_decl source.now) (view_function f.now) decisions ∷ []) }
{
    let mut code = Emitter::new(alloc, decisions);
    match emit_function(alloc, source, &mut code, f) {
        Ok(()) => put_block(alloc, f, code, blocks),
        Err(error) => Err(error),
    }
}

// Puts the block with a function's code behind the others.
#[tactic(auto, using(crate::proofs::Emitting::views))]
fn put_block(
    alloc: Global,
    f: &FunctionDecl,
    code: Emitter,
    blocks: &mut Items<Block>,
) -> Result<u32, AllocError>
    ensures next { IfOk result (λ n. n ≡ (view_emitter code).decisions) }
    ensures block { OnOk result (map view_block blocks.new ≡ map view_block blocks.old ++ block_with (view_function f.now) (view_emitter code).code ∷ []) }
{
    let decisions = code.decisions;
    let variables = match small(f.parameters.len()) {
        Ok(n) => n,
        Err(error) => return Err(error),
    };
    let name = match f.name.name.copy(alloc) {
        Ok(name) => name,
        Err(error) => return Err(error),
    };
    let block = Block {
        name,
        variables,
        inputs: 0,
        outputs: 0,
        code: code.into_code(),
    };
    match blocks.push(block) {
        Ok(()) => Ok(decisions),
        Err(error) => Err(error),
    }
}

// The code of a function: loads of the parameters, a match, and the rows.
#[tactic(auto, using(crate::proofs::Emitting::views))]
fn emit_function(
    alloc: Global,
    source: &Source<'_>,
    code: &mut Emitter,
    f: &FunctionDecl,
) -> Result<(), AllocError>
    ensures { OnOk result (view_emitter code.new ≡ function_emitted (map view_decl source.now) (length (view_function f.now).parameters) (view_function f.now).rows (view_emitter code.old)) }
{
    push_loads(code, f.parameters.len())?;
    let at = code.len();
    let decision = code.decisions;
    code.push(Instr::Nil)?;
    code.count_decision()?;
    emit_match(alloc, source, code, f.rows.as_slice(), at, decision)
}

// A load of each of so many parameters.
fn push_loads(code: &mut Emitter, count: usize) -> Result<(), AllocError>
    ensures { OnOk result (view_emitter code.new ≡ appended (loads_code 0 count) (view_emitter code.old)) }
{
    let count = small(count)?;
    let mut n: u32 = 0;
    'loads: while n < count {
        code.push(Instr::Load(n))?;
        n += 1;
    }
    Ok(())
}

// The rows of a function, and the match before them at its place.
fn emit_match(
    alloc: Global,
    source: &Source<'_>,
    code: &mut Emitter,
    rows: &[FunctionRow],
    at: usize,
    decision: u32,
) -> Result<(), AllocError>
    ensures { OnOk result (view_emitter code.new ≡ function_closed (map view_decl source.now) (map view_function_row rows.now) at decision (view_emitter code.old)) }
{
    let mut places = Items::new(alloc);
    match emit_rows(alloc, source, code, rows, &mut places) {
        Ok(()) => {
            code.set(at, Instr::Match(decision, 0, places));
            Ok(())
        }
        Err(error) => Err(error),
    }
}

// The values of rows, each behind the others, with where they begin.
fn emit_rows(
    alloc: Global,
    source: &Source<'_>,
    code: &mut Emitter,
    rows: &[FunctionRow],
    places: &mut Items<u32>,
) -> Result<(), AllocError>
    ensures code { OnOk result (view_emitter code.new ≡ function_rows_emitted (map view_decl source.now) (map view_function_row rows.now) (view_emitter code.old)) }
    ensures places { OnOk result (places.new ≡ places.old ++ function_row_places (map view_decl source.now) (map view_function_row rows.now) (view_emitter code.old)) }
{
    for i in 0..rows.len() {
        let place = code.here()?;
        places.push(place)?;
        emit_row(alloc, source, code, &rows[i])?;
    }
    Ok(())
}

// The value of a row, under the variables of its patterns.
#[tactic(auto, using(crate::proofs::FunctionCode::function_rows))]
fn emit_row(
    alloc: Global,
    source: &Source<'_>,
    code: &mut Emitter,
    row: &FunctionRow,
) -> Result<(), AllocError>
    ensures { OnOk result (view_emitter code.new ≡ function_row_emitted (map view_decl source.now) (view_function_row row.now) (view_emitter code.old)) }
{
    let variables = code.scope.len();
    let free = code.free;
    bind_patterns(alloc, code, row.patterns.as_slice())?;
    emit(alloc, source, code, &row.value, true)?;
    code.leave(variables, free);
    Ok(())
}
