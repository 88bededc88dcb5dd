//! The blocks of processes.
ghost use Rattle.std.specs.Prelude.{◌≡◌, ◌∷◌, ◌++◌, ◌+◌, [], IfOk, OnOk, length, map};
ghost use Rattle.campl_tree.specs.View.{view_decl, view_process};
ghost use Rattle.campl_types.specs.World.{World as Declared};
ghost use Rattle.campl_code_bodies.specs.Bodies.{processes_of, channel_numbers};
ghost use Rattle.campl_instructions.specs.View.{view_block, view_instr, view_decision};
ghost use Rattle.campl_gen_channels.specs.Numbers.{NumbersAlike};
ghost use Rattle.campl_gen_channels.specs.View.{view_channels};
ghost use Rattle.campl_gen_bodies.specs.View.{view_making};
ghost use Rattle.campl_gen.specs.Blocks.{begun, all_received, process_built, whole_process, block_with, blocks_from, decisions_from};

use campl_gen_bodies::{Known, Making, emit_body};
use campl_gen_channels::Channels;
use campl_gen_exprs::Emitter;
use campl_instructions::{Block, Instr};
use campl_tree::{Binder, Decl, ProcessDecl, ProcessRow};
use sqlite_items::Items;
use std::alloc::{AllocError, Global};
use std::mem;

/// Puts the blocks of the processes among declarations behind the others, in order, and their decisions behind all decisions.
///
/// # Errors
///
/// `AllocError` where memory wants, or where a number is 2^32 or more.
pub(crate) fn put_processes(
    alloc: Global,
    known: &Known<'_>,
    making: &mut Making,
    declarations: &[Decl],
    blocks: &mut Items<Block>,
) -> Result<(), AllocError>
    ensures blocks { OnOk result (map view_block blocks.new ≡ map view_block blocks.old ++ blocks_from (map view_decl known.now) (processes_of (map view_decl declarations.now)) (length (map view_decision making.old.decisions))) }
    ensures decisions { OnOk result (map view_decision making.new.decisions ≡ map view_decision making.old.decisions ++ decisions_from (map view_decl known.now) (processes_of (map view_decl declarations.now)) (length (map view_decision making.old.decisions))) }
{
    for i in 0..declarations.len() {
        put_declaration(alloc, known, making, &declarations[i], blocks)?;
    }
    Ok(())
}

// Puts the block of a declaration that is a process behind the others.
fn put_declaration(
    alloc: Global,
    known: &Known<'_>,
    making: &mut Making,
    declaration: &Decl,
    blocks: &mut Items<Block>,
) -> Result<(), AllocError>
    ensures blocks { OnOk result ((ds : Declared) → map view_block blocks.new ++ blocks_from (map view_decl known.now) (processes_of ds) (length (map view_decision making.new.decisions)) ≡ map view_block blocks.old ++ blocks_from (map view_decl known.now) (processes_of (view_decl declaration.now ∷ ds)) (length (map view_decision making.old.decisions))) }
    ensures decisions { OnOk result ((ds : Declared) → map view_decision making.new.decisions ++ decisions_from (map view_decl known.now) (processes_of ds) (length (map view_decision making.new.decisions)) ≡ map view_decision making.old.decisions ++ decisions_from (map view_decl known.now) (processes_of (view_decl declaration.now ∷ ds)) (length (map view_decision making.old.decisions))) }
{
    match declaration {
        Decl::Process(p) => {
            put_process(alloc, known, making, p, blocks)?;
            Ok(())
        }
        Decl::Function(_) => Ok(()),
        Decl::Data(_) => Ok(()),
        Decl::Protocol(_) => Ok(()),
        Decl::Coprotocol(_) => Ok(()),
    }
}

// Puts a process's block behind the others.
fn put_process(
    alloc: Global,
    known: &Known<'_>,
    making: &mut Making,
    p: &ProcessDecl,
    blocks: &mut Items<Block>,
) -> Result<(), AllocError>
    ensures block { OnOk result (map view_block blocks.new ≡ map view_block blocks.old ++ block_with (view_process p.now) (whole_process (map view_decl known.now) (view_process p.now) (length (map view_decision making.old.decisions))).code ∷ []) }
    ensures decisions { OnOk result (map view_decision making.new.decisions ≡ map view_decision making.old.decisions ++ (whole_process (map view_decl known.now) (view_process p.now) (length (map view_decision making.old.decisions))).decisions) }
{
    emit_process(alloc, known, making, p)?;
    let code = take_code(alloc, making);
    put_block(alloc, p, code, blocks)?;
    Ok(())
}

// The code that is made, in the place of which comes none.
fn take_code(alloc: Global, making: &mut Making) -> Items<Instr>
    ensures code { map view_instr result ≡ (view_making making.old).emission.code }
    ensures decisions { making.new.decisions ≡ making.old.decisions }
{
    mem::replace(&mut making.code, Emitter::new(alloc, 0)).into_code()
}

// The code of a process, alone, with its decisions behind the others.
fn emit_process(
    alloc: Global,
    known: &Known<'_>,
    making: &mut Making,
    p: &ProcessDecl,
) -> Result<(), AllocError>
    ensures { OnOk result (view_making making.new ≡ process_built (map view_decl known.now) (view_process p.now) (view_making making.old)) }
{
    begin(alloc, making)?;
    receive_all(alloc, making, p.row.variables.as_slice())?;
    let held = heading(alloc, &p.row)?;
    emit_body(alloc, known, making, &held, &p.row.body)?;
    Ok(())
}

// Begins a block.
#[tactic(auto, using(crate::proofs::Blocks::lengths))]
fn begin(alloc: Global, making: &mut Making) -> Result<(), AllocError>
    ensures { OnOk result (view_making making.new ≡ begun (view_making making.old)) }
{
    let decisions = small(making.decisions.len())?;
    making.code = Emitter::new(alloc, decisions);
    Ok(())
}

// A number as an operand. An error means that it is 2^32 or more.
fn small(n: usize) -> Result<u32, AllocError>
    ensures { IfOk result (λ m. m ≡ n) }
{
    if n > u32::MAX as usize {
        return Err(AllocError);
    }
    Ok(n as u32)
}

// Gives the parameters the first numbers.
fn receive_all(alloc: Global, making: &mut Making, variables: &[Binder]) -> Result<(), AllocError>
    ensures { OnOk result (view_making making.new ≡ all_received variables.now (view_making making.old)) }
{
    for i in 0..variables.len() {
        making.receive(alloc, &variables[i])?;
    }
    Ok(())
}

// The channels of a process's heading: the inputs, and then the outputs.
fn heading(alloc: Global, row: &ProcessRow) -> Result<Channels, AllocError>
    ensures held { IfOk result (λ held. NumbersAlike (view_channels held) (channel_numbers 0 row.now.inputs ++ channel_numbers (length row.now.inputs) row.now.outputs)) }
    ensures next { IfOk result (λ held. held.next ≡ length row.now.inputs + length row.now.outputs) }
{
    let mut held = Channels::new(alloc);
    held.come_behind(alloc, row.inputs.as_slice())?;
    held.come_behind(alloc, row.outputs.as_slice())?;
    Ok(held)
}

// Puts the block with a process's code behind the others.
#[tactic(auto, using(crate::proofs::Blocks::views))]
fn put_block(
    alloc: Global,
    p: &ProcessDecl,
    code: Items<Instr>,
    blocks: &mut Items<Block>,
) -> Result<(), AllocError>
    ensures { OnOk result (map view_block blocks.new ≡ map view_block blocks.old ++ block_with (view_process p.now) (map view_instr code) ∷ []) }
{
    let variables = match small(p.row.variables.len()) {
        Ok(n) => n,
        Err(error) => return Err(error),
    };
    let inputs = match small(p.row.inputs.len()) {
        Ok(n) => n,
        Err(error) => return Err(error),
    };
    let outputs = match small(p.row.outputs.len()) {
        Ok(n) => n,
        Err(error) => return Err(error),
    };
    let name = match p.name.name.copy(alloc) {
        Ok(name) => name,
        Err(error) => return Err(error),
    };
    let block = Block {
        name,
        variables,
        inputs,
        outputs,
        code,
    };
    match blocks.push(block) {
        Ok(()) => Ok(()),
        Err(error) => Err(error),
    }
}
