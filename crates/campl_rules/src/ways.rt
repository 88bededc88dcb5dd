//! Where an instruction leads, and in which kind of block it stands.
ghost use Rattle.std.specs.Prelude.{◌≡◌, ◌+◌, ◌++◌, ◌||◌, not, nat_lt, length, map};
ghost use Rattle.campl_code.specs.Machine as machine;
ghost use Rattle.campl_code.specs.Operands as rule;
ghost use Rattle.campl_code.specs.Operands.{every};
ghost use Rattle.campl_instructions.specs.View.{view_instr};
ghost use Rattle.campl_rules.specs.Judged.{code_of, block_of, IsJudged};

use crate::judged::Judged;
use crate::operands::is_in_range;
use campl_instructions::Instr;
use std::slice;

/// Whether an instruction breaks no rule that speaks of no stack.
pub(crate) fn is_sound(judged: &Judged<'_>, at: usize, x: &Instr) -> bool
    requires { IsJudged judged.now }
    ensures { result ≡ rule.is_sound (code_of judged.now) judged.now.in_process (block_of judged.now) at (view_instr x.now) }
{
    is_in_range(judged, x)
        && leads_inside(judged.block, x)
        && belongs(judged.in_process, x)
        && stays_inside(judged.block, at, x)
}

// Whether the places that it names are in the block.
fn leads_inside(block: &[Instr], x: &Instr) -> bool
    ensures { result ≡ every (λ to. nat_lt to (length (map view_instr block.now))) (rule.targets_of (view_instr x.now) ++ rule.children_of (view_instr x.now)) }
{
    are_below(targets_of(x), block.len()) && are_below(children_of(x), block.len())
}

fn are_below(places: &[u32], len: usize) -> bool
    ensures { result ≡ every (λ to. nat_lt to len) places.now }
{
    for to in places {
        if *to as usize >= len {
            return false;
        }
    }
    true
}

// Whether there is an instruction behind it, where it can go on so.
fn stays_inside(block: &[Instr], at: usize, x: &Instr) -> bool
    ensures { result ≡ (not (rule.goes_behind (view_instr x.now)) || nat_lt (at + 1) (length (map view_instr block.now))) }
{
    !goes_behind(x) || at < block.len().saturating_sub(1)
}

/// The places that it names, but for a child's.
pub(crate) fn targets_of(x: &Instr) -> &[u32]
    ensures { result.now ≡ rule.targets_of (view_instr x.now) }
{
    match x {
        Instr::Jump(to) | Instr::Unless(to) => slice::from_ref(to),
        Instr::Match(_, _, places) | Instr::Case(_, _, places) => places.as_slice(),
        Instr::Offer(_, places) => places.as_slice(),
        Instr::Race(places) => places.as_slice(),
        _ => &[],
    }
}

/// A child's place.
pub(crate) fn children_of(x: &Instr) -> &[u32]
    ensures { result.now ≡ rule.children_of (view_instr x.now) }
{
    match x {
        Instr::Fork(_, _, _, to) => slice::from_ref(to),
        Instr::Peel(_, _, to) => slice::from_ref(to),
        _ => &[],
    }
}

/// Whether it can go on behind itself.
pub(crate) fn goes_behind(x: &Instr) -> bool
    ensures { result ≡ rule.goes_behind (view_instr x.now) }
{
    !matches!(
        x,
        Instr::Jump(_)
            | Instr::Match(_, _, _)
            | Instr::Return
            | Instr::Case(_, _, _)
            | Instr::Offer(_, _)
            | Instr::Halt(_)
            | Instr::Link(_, _)
            | Instr::LinkNeg(_, _)
            | Instr::Race(_)
            | Instr::Go(_, _)
    )
}

fn belongs(in_process: bool, x: &Instr) -> bool
    ensures { result ≡ rule.belongs in_process (view_instr x.now) }
{
    match x {
        Instr::Return => !in_process,
        _ => in_process || !is_command(x),
    }
}

/// Whether it is a process's instruction.
pub(crate) fn is_command(x: &Instr) -> bool
    ensures { result ≡ machine.is_command (view_instr x.now) }
{
    matches!(
        x,
        Instr::Case(_, _, _)
            | Instr::Put(_)
            | Instr::Get(_, _)
            | Instr::Pick(_, _)
            | Instr::Split(_, _, _)
            | Instr::Close(_)
            | Instr::Offer(_, _)
            | Instr::Fork(_, _, _, _)
            | Instr::Halt(_)
            | Instr::Link(_, _)
            | Instr::LinkNeg(_, _)
            | Instr::Peel(_, _, _)
            | Instr::Race(_)
            | Instr::Go(_, _)
    )
}
