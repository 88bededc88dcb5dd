//! What instructions hand on in a round.
ghost use Rattle.std.specs.Prelude.{◌≡◌, ◌+◌, true, [], ◌∷◌, Some, OnOk};
ghost use Rattle.campl_code.specs.Heights.{handed_by};
ghost use Rattle.campl_code.specs.Operands as operand;
ghost use Rattle.campl_instructions.specs.View.{view_instr};
ghost use Rattle.campl_rules.specs.Found.{handed_at, handed_in};
ghost use Rattle.campl_rules.specs.Given.{TakesLater, gives};
ghost use Rattle.campl_rules.specs.Judged.{code_of, block_of, IsJudged};

use crate::heights::Height;
use crate::judged::Judged;
use crate::stack::{has_operands, height_behind};
use crate::ways::{goes_behind, is_sound, targets_of};
use campl_instructions::Instr;
use sqlite_items::at;
use std::alloc::AllocError;

/// What the instructions at these places hand on, the first one first.
pub(crate) fn hand_all(
    judged: &Judged<'_>,
    places: &[usize],
    heights: &[Height],
    given: &mut Vec<Option<u64>>,
) -> Result<(), AllocError>
    requires { IsJudged judged.now }
    ensures { OnOk result (TakesLater given.old.items (handed_in (code_of judged.now) judged.now.in_process (block_of judged.now) heights.now places.now) given.new.items) }
{
    for place in places {
        hand_at(judged, *place, heights, given)?;
    }
    Ok(())
}

// What the instruction at a place hands on.
fn hand_at(
    judged: &Judged<'_>,
    place: usize,
    heights: &[Height],
    given: &mut Vec<Option<u64>>,
) -> Result<(), AllocError>
    requires { IsJudged judged.now }
    ensures { OnOk result (TakesLater given.old.items (handed_at (code_of judged.now) judged.now.in_process (block_of judged.now) heights.now place) given.new.items) }
{
    match at(judged.block, place) {
        None => Ok(()),
        Some(x) => match at(heights, place) {
            None => Ok(()),
            Some(height) => hand_from(judged, place, x, height, given),
        },
    }
}

// What one instruction hands on in this round.
fn hand_from(
    judged: &Judged<'_>,
    at: usize,
    x: &Instr,
    height: &Height,
    given: &mut Vec<Option<u64>>,
) -> Result<(), AllocError>
    requires { IsJudged judged.now }
    ensures { OnOk result (TakesLater given.old.items (λ to. handed_by (code_of judged.now) judged.now.in_process (block_of judged.now) at (view_instr x.now) to height.now) given.new.items) }
{
    match height {
        None => Ok(()),
        Some((height, is_new)) => {
            if *is_new {
                hand_on(judged, at, x, *height, given)
            } else {
                Ok(())
            }
        }
    }
}

// What one instruction hands on at its height.
fn hand_on(
    judged: &Judged<'_>,
    at: usize,
    x: &Instr,
    height: u64,
    given: &mut Vec<Option<u64>>,
) -> Result<(), AllocError>
    requires { IsJudged judged.now }
    ensures { OnOk result (TakesLater given.old.items (λ to. handed_by (code_of judged.now) judged.now.in_process (block_of judged.now) at (view_instr x.now) to (Some (height, true))) given.new.items) }
{
    if is_sound(judged, at, x) && has_operands(judged.code, x, height) {
        let Some(behind) = height_behind(judged.code, x, height) else {
            return Err(AllocError);
        };
        hand_ways(at, x, behind, given);
    }
    Ok(())
}

// The height comes to each place at which the instruction can go on.
fn hand_ways(at: usize, x: &Instr, height: u64, given: &mut Vec<Option<u64>>)
    ensures { TakesLater given.old.items (gives (operand.ways_from at (view_instr x.now)) height) given.new.items }
{
    if goes_behind(x) {
        hand_behind(at, height, given);
    }
    hand_each(targets_of(x), height, given);
}

fn hand_behind(at: usize, height: u64, given: &mut Vec<Option<u64>>)
    ensures { TakesLater given.old.items (gives ((at + 1) ∷ []) height) given.new.items }
{
    if at < given.len() {
        hand(at + 1, height, given);
    }
}

fn hand_each(places: &[u32], height: u64, given: &mut Vec<Option<u64>>)
    ensures { TakesLater given.old.items (gives places.now height) given.new.items }
{
    for to in places {
        hand(*to as usize, height, given);
    }
}

// The height comes to a place, unless one came there before.
fn hand(to: usize, height: u64, given: &mut Vec<Option<u64>>)
    ensures { TakesLater given.old.items (gives (to ∷ []) height) given.new.items }
{
    if to < given.len() && given[to].is_none() {
        given[to] = Some(height);
    }
}
