//! What places take in a round.
ghost use Rattle.std.specs.Prelude.{◌≡◌, ◌+◌, [], ◌∷◌, OnOk, slice_get, map};
ghost use Rattle.campl_code.specs.Operands as operand;
ghost use Rattle.campl_instructions.specs.View.{view_instr};
ghost use Rattle.campl_rules.specs.Found.{Changed, Covers, height_there, is_free, settles, takes, ways_at, ways_in};
ghost use Rattle.campl_rules.specs.Given.{given_at};

use crate::heights::Height;
use crate::ways::{goes_behind, targets_of};
use campl_instructions::Instr;
use sqlite_items::at;
use std::alloc::AllocError;

/// These places have their heights no longer from the last round.
pub(crate) fn settle_all(places: &[usize], heights: &mut Vec<Height>)
    ensures { Changed heights.old.items places.now settles heights.new.items }
{
    for place in places {
        settle(*place, heights);
    }
}

fn settle(place: usize, heights: &mut Vec<Height>)
    ensures { Changed heights.old.items (place ∷ []) settles heights.new.items }
{
    if let Some(height) = height_there(heights.as_slice(), place) {
        heights[place] = Some((height, false));
    }
}

fn height_there(heights: &[Height], place: usize) -> Option<u64>
    ensures { result ≡ height_there (slice_get heights.now place) }
{
    match at(heights, place) {
        Some(Some((height, _))) => Some(*height),
        _ => None,
    }
}

/// Each place at which one of these instructions can go on takes what it is given, unless it has a height; `next` is told of it.
pub(crate) fn take_all(
    block: &[Instr],
    places: &[usize],
    given: &[Option<u64>],
    heights: &mut Vec<Height>,
    next: &mut Vec<usize>,
) -> Result<(), AllocError>
    ensures takes { OnOk result (Changed heights.old.items (ways_in (map view_instr block.now) places.now) (takes given.now) heights.new.items) }
    ensures covers { OnOk result (Covers next.old.items heights.old.items → Covers next.new.items heights.new.items) }
{
    for place in places {
        take_from(block, *place, given, heights, next)?;
    }
    Ok(())
}

fn take_from(
    block: &[Instr],
    place: usize,
    given: &[Option<u64>],
    heights: &mut Vec<Height>,
    next: &mut Vec<usize>,
) -> Result<(), AllocError>
    ensures takes { OnOk result (Changed heights.old.items (ways_at (slice_get (map view_instr block.now) place) place) (takes given.now) heights.new.items) }
    ensures covers { OnOk result (Covers next.old.items heights.old.items → Covers next.new.items heights.new.items) }
{
    match at(block, place) {
        None => Ok(()),
        Some(x) => take_ways(place, x, given, heights, next),
    }
}

fn take_ways(
    place: usize,
    x: &Instr,
    given: &[Option<u64>],
    heights: &mut Vec<Height>,
    next: &mut Vec<usize>,
) -> Result<(), AllocError>
    ensures takes { OnOk result (Changed heights.old.items (operand.ways_from place (view_instr x.now)) (takes given.now) heights.new.items) }
    ensures covers { OnOk result (Covers next.old.items heights.old.items → Covers next.new.items heights.new.items) }
{
    if !goes_behind(x) {
        return take_each(targets_of(x), given, heights, next);
    }
    take_behind(place, given, heights, next)?;
    take_each(targets_of(x), given, heights, next)
}

fn take_behind(
    place: usize,
    given: &[Option<u64>],
    heights: &mut Vec<Height>,
    next: &mut Vec<usize>,
) -> Result<(), AllocError>
    ensures takes { OnOk result (Changed heights.old.items ((place + 1) ∷ []) (takes given.now) heights.new.items) }
    ensures covers { OnOk result (Covers next.old.items heights.old.items → Covers next.new.items heights.new.items) }
{
    if place < heights.len() {
        take(place + 1, given, heights, next)
    } else {
        Ok(())
    }
}

fn take_each(
    places: &[u32],
    given: &[Option<u64>],
    heights: &mut Vec<Height>,
    next: &mut Vec<usize>,
) -> Result<(), AllocError>
    ensures takes { OnOk result (Changed heights.old.items places.now (takes given.now) heights.new.items) }
    ensures covers { OnOk result (Covers next.old.items heights.old.items → Covers next.new.items heights.new.items) }
{
    for place in places {
        take(*place as usize, given, heights, next)?;
    }
    Ok(())
}

fn take(
    place: usize,
    given: &[Option<u64>],
    heights: &mut Vec<Height>,
    next: &mut Vec<usize>,
) -> Result<(), AllocError>
    ensures takes { OnOk result (Changed heights.old.items (place ∷ []) (takes given.now) heights.new.items) }
    ensures covers { OnOk result (Covers next.old.items heights.old.items → Covers next.new.items heights.new.items) }
{
    let Some(height) = given_there(given, place) else {
        return Ok(());
    };
    if is_free(heights.as_slice(), place) {
        next.push(place)?;
        heights[place] = Some((height, true));
    }
    Ok(())
}

// Whether there is such a place, and it has no height.
fn is_free(heights: &[Height], place: usize) -> bool
    ensures { result ≡ is_free (slice_get heights.now place) }
{
    match at(heights, place) {
        Some(None) => true,
        _ => false,
    }
}

fn given_there(given: &[Option<u64>], at: usize) -> Option<u64>
    ensures { result ≡ given_at given.now at }
{
    match given.get(at) {
        None => None,
        Some(height) => *height,
    }
}
