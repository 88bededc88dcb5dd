//! Commands whose expressions make one value after another: their values are made without an evaluation.
ghost use Rattle.std.specs.Prelude.{◌≡◌, ◌≤◌, [], IfOk, IfSome, drop, length, map, option_map, slice_get};
ghost use Rattle.std.specs.Option.{option_copied};
ghost use Rattle.campl_code.specs.Instructions.{blocks};
ghost use Rattle.campl_code.specs.Machine as m;
ghost use Rattle.campl_eval.specs.View.{code_of};
ghost use Rattle.campl_instructions.specs.View.{view_block, view_instr};
ghost use Rattle.campl_kept.specs.Straight as s;

use campl_instructions::{Block, Instr};
use campl_operands::{Effect, Operands, Variables};
use campl_program::Program;
use sqlite_items::at;
use std::alloc::{AllocError, Global};

/// The code of a block from a place on. A block that isn't there has none.
#[inline]
#[tactic(auto, using(crate::proofs::Commands::places))]
pub(crate) fn code_from(program: &Program, block: usize, at: usize) -> &[Instr]
    ensures { map view_instr result.now ≡ drop at (s.code_in (slice_get (blocks (code_of program.now)) block)) }
{
    match block_at(program, block) {
        None => &[],
        Some(block) => from(block.code.as_slice(), at),
    }
}

// The block with this number. Functions are numbered first, then processes.
#[inline]
fn block_at(program: &Program, n: usize) -> Option<&Block>
    ensures { option_map view_block (option_copied result) ≡ slice_get (blocks (code_of program.now)) n }
{
    let raw = program.raw();
    let functions = raw.functions.as_slice();
    if n < functions.len() {
        return at(functions, n);
    }
    at(raw.processes.as_slice(), n - functions.len())
}

// The instructions from this one on.
#[inline]
fn from(code: &[Instr], at: usize) -> &[Instr]
    ensures { result.now ≡ drop at code.now }
{
    let at = at.min(code.len());
    &code[at..]
}

/// How many instructions are before the command, where each of them makes a value.
#[inline]
pub(crate) fn reach(code: &[Instr]) -> Option<usize>
    ensures value { result ≡ s.reach (map view_instr code.now) }
    ensures within { IfSome result (λ n. n ≤ length code.now) }
{
    for (n, instr) in code.iter().enumerate() {
        if is_command(instr) {
            return Some(n);
        }
        if !is_straight(instr) {
            return None;
        }
    }
    None
}

/// The operands that these instructions leave; None where one breaks. An error means that memory is out.
pub(crate) fn all_made(
    alloc: Global,
    code: &[Instr],
    variables: &Variables,
) -> Result<Option<Operands>, AllocError>
    ensures { IfOk result (λ operands. operands ≡ s.all_made variables.now [] (map view_instr code.now)) }
{
    let mut operands = Operands::new(alloc);
    for instr in code {
        match operands.make(alloc, variables, instr) {
            Effect::Done => {}
            Effect::TooDeep => return Ok(None),
            Effect::Faulty => return Ok(None),
            Effect::OutOfMemory => return Err(AllocError),
        }
    }
    Ok(Some(operands))
}

// Whether it makes a value of the variables and of the operands.
#[inline]
fn is_straight(instr: &Instr) -> bool
    ensures { result ≡ s.is_straight (view_instr instr.now) }
{
    match instr {
        Instr::Int(_) | Instr::Char(_) | Instr::Truth(_) | Instr::Nil | Instr::Text(_) => true,
        Instr::Load(_) | Instr::Cons | Instr::Pair | Instr::Build(_, _) | Instr::Op(_) => true,
        _ => false,
    }
}

// Whether it is a process's instruction.
#[inline]
fn is_command(instr: &Instr) -> bool
    ensures { result ≡ m.is_command (view_instr instr.now) }
{
    match instr {
        Instr::Case(_, _, _)
        | Instr::Put(_)
        | Instr::Get(_, _)
        | Instr::Pick(_, _)
        | Instr::Split(_, _, _)
        | Instr::Close(_)
        | Instr::Offer(_, _)
        | Instr::Fork(_, _, _, _)
        | Instr::Halt(_)
        | Instr::Link(_, _)
        | Instr::LinkNeg(_, _)
        | Instr::Peel(_, _, _)
        | Instr::Race(_)
        | Instr::Go(_, _) => true,
        _ => false,
    }
}
