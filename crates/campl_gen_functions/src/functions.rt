//! The decisions of functions, and their blocks.
ghost use Rattle.std.specs.Prelude.{◌≡◌, ◌∷◌, ◌++◌, [], IfOk, OnOk, length, map};
ghost use Rattle.campl_tree.specs.View.{view_expr_row, expr_rows, view_decl, view_function, view_function_row};
ghost use Rattle.campl_types.specs.Forms.{list_of, part_forms};
ghost use Rattle.campl_types.specs.Sequential.{expr_rows as forms_of_rows, function_rows};
ghost use Rattle.campl_types.specs.World.{World as Declared};
ghost use Rattle.campl_code.specs.CaseDecisions.{decisions_of, decisions_of_function, decisions_of_function_rows, decisions_of_functions};
ghost use Rattle.campl_code.specs.Compiled.{decision_for};
ghost use Rattle.campl_code.specs.Generated.{functions_code};
ghost use Rattle.campl_code.specs.Stands.{functions_of};
ghost use Rattle.campl_instructions.specs.View.{view_block, view_decision};

use crate::deciding::decide;
use campl_gen_exprs::{Source, function_blocks};
use campl_instructions::{Block, Decision};
use campl_match::compile_match;
use campl_names::World;
use campl_seqcheck::Row;
use campl_tree::{Decl, ExprRow, FunctionDecl, FunctionRow};
use sqlite_items::Items;
use std::alloc::{AllocError, Global};

/// The blocks of a world's functions, in the order of their declarations, and the decisions that these name.
///
/// # Errors
///
/// `AllocError` where memory wants, or where a number is 2^32 or more.
pub fn generate_functions(
    alloc: Global,
    world: &World,
) -> Result<(Items<Block>, Items<Decision>), AllocError>
    ensures blocks { IfOk result (λ made. map view_block made.0 ≡ (functions_code (map view_decl world.now)).functions) }
    ensures decisions { IfOk result (λ made. map view_decision made.1 ≡ (functions_code (map view_decl world.now)).decisions) }
{
    let decisions = match function_decisions(alloc, world) {
        Ok(decisions) => decisions,
        Err(error) => return Err(error),
    };
    match world_blocks(alloc, world) {
        Ok(blocks) => Ok((blocks, decisions)),
        Err(error) => Err(error),
    }
}

fn world_blocks(alloc: Global, world: &World) -> Result<Items<Block>, AllocError>
    ensures { IfOk result (λ blocks. map view_block blocks ≡ (functions_code (map view_decl world.now)).functions) }
{
    match Source::new(alloc, world) {
        Ok(source) => function_blocks(alloc, &source),
        Err(error) => Err(error),
    }
}

// The decisions of all functions, in order.
fn function_decisions(alloc: Global, world: &World) -> Result<Items<Decision>, AllocError>
    ensures { IfOk result (λ out. map view_decision out ≡ decisions_of_functions (map view_decl world.now) (functions_of (map view_decl world.now))) }
{
    let mut out = Items::new(alloc);
    let declarations = world.declarations();
    for i in 0..declarations.len() {
        decide_declaration(alloc, world, &mut out, &declarations[i])?;
    }
    Ok(out)
}

// The decisions of a declaration, where it is a function.
#[tactic(auto, using(crate::proofs::Decided::appends))]
fn decide_declaration(
    alloc: Global,
    world: &World,
    out: &mut Items<Decision>,
    declaration: &Decl,
) -> Result<(), AllocError>
    ensures { OnOk result ((ds : Declared) → map view_decision out.new ++ decisions_of_functions (map view_decl world.now) (functions_of ds) ≡ map view_decision out.old ++ decisions_of_functions (map view_decl world.now) (functions_of (view_decl declaration.now ∷ ds))) }
{
    match declaration {
        Decl::Function(f) => decide_function(alloc, world, out, f),
        Decl::Data(_) => Ok(()),
        Decl::Protocol(_) => Ok(()),
        Decl::Coprotocol(_) => Ok(()),
        Decl::Process(_) => Ok(()),
    }
}

// The decision of a function's rows, and those in their values.
#[tactic(auto, using(crate::proofs::Decided::appends))]
fn decide_function(
    alloc: Global,
    world: &World,
    out: &mut Items<Decision>,
    f: &FunctionDecl,
) -> Result<(), AllocError>
    ensures { OnOk result (map view_decision out.new ≡ map view_decision out.old ++ decisions_of_function (map view_decl world.now) (view_function f.now)) }
{
    put_function(alloc, world, out, f)?;
    decide_function_rows(alloc, world, out, f.rows.as_slice())
}

// The decisions in the values of a function's rows.
fn decide_function_rows(
    alloc: Global,
    world: &World,
    out: &mut Items<Decision>,
    rows: &[FunctionRow],
) -> Result<(), AllocError>
    ensures { OnOk result (map view_decision out.new ≡ map view_decision out.old ++ decisions_of_function_rows (map view_decl world.now) (map view_function_row rows.now)) }
{
    for i in 0..rows.len() {
        decide_function_row(alloc, world, out, &rows[i])?;
    }
    Ok(())
}

// The decisions in the value of a function's row.
#[tactic(auto, using(crate::proofs::Decided::opened))]
fn decide_function_row(
    alloc: Global,
    world: &World,
    out: &mut Items<Decision>,
    row: &FunctionRow,
) -> Result<(), AllocError>
    ensures { OnOk result (map view_decision out.new ≡ map view_decision out.old ++ decisions_of (map view_decl world.now) (view_function_row row.now).value) }
{
    decide(alloc, world, out, &row.value)
}

// Puts the decision of a function's rows behind the others.
#[tactic(auto, using(crate::proofs::Decided::function_forms))]
fn put_function(
    alloc: Global,
    world: &World,
    out: &mut Items<Decision>,
    f: &FunctionDecl,
) -> Result<(), AllocError>
    ensures { OnOk result (map view_decision out.new ≡ map view_decision out.old ++ decision_for (map view_decl world.now) (length (view_function f.now).parameters) (function_rows (view_function f.now).rows) ∷ []) }
{
    put_match(alloc, world, out, f.parameters.len(), f.rows.as_slice())
}

// Puts the decision of the rows of a `case` behind the others.
#[tactic(auto, using(crate::proofs::Decided::forms))]
pub(crate) fn put_case(
    alloc: Global,
    world: &World,
    out: &mut Items<Decision>,
    rows: &[ExprRow],
) -> Result<(), AllocError>
    ensures { OnOk result (map view_decision out.new ≡ map view_decision out.old ++ decision_for (map view_decl world.now) 1 (forms_of_rows (expr_rows (map view_expr_row rows.now))) ∷ []) }
{
    put_match(alloc, world, out, 1, rows)
}

/// Puts the decision of rows of so many patterns behind the others.
///
/// # Errors
///
/// `AllocError` where memory wants, or where a number is 2^32 or more: they are as they were.
#[tactic(auto, using(crate::proofs::Decided::appends))]
pub fn put_match<R: Row>(
    alloc: Global,
    world: &World,
    out: &mut Items<Decision>,
    width: usize,
    rows: &[R],
) -> Result<(), AllocError>
    ensures { OnOk result (map view_decision out.new ≡ map view_decision out.old ++ decision_for (map view_decl world.now) width (map (λ r. list_of (part_forms (R.patterns r))) rows.now) ∷ []) }
{
    if width > u32::MAX as usize {
        return Err(AllocError);
    }
    match compile_match(alloc, world, width as u32, rows) {
        Ok(decision) => match out.push(decision) {
            Ok(()) => Ok(()),
            Err(error) => Err(error),
        },
        Err(error) => Err(error),
    }
}
