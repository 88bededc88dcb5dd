//! The values that an instruction takes and leaves.
ghost use Rattle.std.specs.Prelude.{◌≡◌, slice_get, MatchOption, IfSome};
ghost use Rattle.campl_code.specs.Heights as rule;
ghost use Rattle.campl_instructions.specs.View.{view_instr, view_operation, view_code};

use crate::ways::is_command;
use campl_instructions::{Instr, Operation, RawCode};

/// Whether there are as many values as the instruction needs, and for a process's instruction no more.
pub(crate) fn has_operands(code: &RawCode, x: &Instr, height: u64) -> bool
    ensures { result ≡ rule.has_operands (view_code code.now) (view_instr x.now) height }
{
    let taken = u64::from(takes(code, x));
    if is_command(x) {
        height == taken
    } else {
        taken <= height
    }
}

/// The height behind the instruction. None comes only where it is above the greatest u64, which no stack reaches.
pub(crate) fn height_behind(code: &RawCode, x: &Instr, height: u64) -> Option<u64>
    ensures { IfSome result (λ h. h ≡ rule.height_behind (view_code code.now) (view_instr x.now) height) }
{
    height
        .saturating_sub(u64::from(takes(code, x)))
        .checked_add(leaves(x))
}

// How many values it takes.
fn takes(code: &RawCode, x: &Instr) -> u32
    ensures { result ≡ rule.takes (view_code code.now) (view_instr x.now) }
{
    match x {
        Instr::Cons | Instr::Pair => 2,
        Instr::Build(_, parts) => *parts,
        Instr::Op(operation) => taken_by(*operation),
        Instr::Unless(_) | Instr::Put(_) => 1,
        Instr::Call(f) => parameters_of(code, *f),
        Instr::Match(m, _, _) | Instr::Case(m, _, _) => width_of(code, *m),
        Instr::Return => 1,
        Instr::Go(p, _) => parameters_of_process(code, *p),
        _ => 0,
    }
}

fn taken_by(operation: Operation) -> u32
    ensures { result ≡ rule.taken_by (view_operation operation) }
{
    match operation {
        Operation::Calculate(_) | Operation::Compare(_) => 2,
        Operation::Append => 2,
        Operation::Negate | Operation::CodeOf | Operation::CharOf => 1,
    }
}

fn parameters_of(code: &RawCode, f: u32) -> u32
    ensures { result ≡ rule.parameters_of (slice_get (view_code code.now).functions f) }
{
    match code.function(f) {
        None => 0,
        Some(block) => block.variables,
    }
}

fn parameters_of_process(code: &RawCode, p: u32) -> u32
    ensures { result ≡ rule.parameters_of (slice_get (view_code code.now).processes p) }
{
    match code.process(p) {
        None => 0,
        Some(block) => block.variables,
    }
}

fn width_of(code: &RawCode, m: u32) -> u32
    ensures { result ≡ rule.width_of (slice_get (view_code code.now).decisions m) }
{
    match code.decision(m) {
        None => 0,
        Some(decision) => decision.width,
    }
}

// How many values it leaves.
fn leaves(x: &Instr) -> u64
    ensures { result ≡ rule.leaves (view_instr x.now) }
{
    let leaves_one = matches!(
        x,
        Instr::Int(_)
            | Instr::Char(_)
            | Instr::Truth(_)
            | Instr::Nil
            | Instr::Text(_)
            | Instr::Load(_)
            | Instr::Cons
            | Instr::Pair
            | Instr::Build(_, _)
            | Instr::Op(_)
            | Instr::Call(_)
    );
    u64::from(leaves_one)
}
