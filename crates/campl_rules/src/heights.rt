//! The height of the stack at each place of a block, found in rounds.
ghost use Rattle.std.specs.Prelude.{◌≡◌, ◌+◌, true, [], ◌∷◌, None, Some, IfOk, IsTrue, ◌↔◌, length, map, slice_set};
ghost use Rattle.campl_code.specs.Heights as rule;
ghost use Rattle.campl_code.specs.Heights.{all_children, handed, next_heights};
ghost use Rattle.campl_instructions.specs.View.{view_instr};
ghost use Rattle.campl_rules.specs.Found.{AreFound, Covers, Rising, first, is_new, set_all};
ghost use Rattle.campl_rules.specs.Judged.{code_of, block_of, IsJudged};

use crate::handing::hand_all;
use crate::judged::Judged;
use crate::taking::{settle_all, take_all};
use crate::ways::children_of;
use campl_instructions::Instr;
use std::alloc::{AllocError, Global};

/// The height at a place, where it has one, and whether the last round gave it.
pub(crate) type Height = Option<(u64, bool)>;

/// The height at each place of the block. A round looks only at the instructions that got their heights in the last one.
pub(crate) fn heights_of(alloc: Global, judged: &Judged<'_>) -> Result<Vec<Height>, AllocError>
    requires { IsJudged judged.now }
    ensures { IfOk result (λ heights. heights.items ≡ rule.heights_of (code_of judged.now) judged.now.in_process (block_of judged.now)) }
{
    let mut heights = first_heights(alloc, judged.block)?;
    let mut given = firsts(alloc, heights.as_slice())?;
    let mut newest = new_places(alloc, heights.as_slice())?;
    'rounds: for _ in 0..judged.block.len() {
        if are_none(newest.as_slice()) {
            return Ok(heights);
        }
        newest = next_round(judged, newest.as_slice(), &mut heights, &mut given)?;
    }
    Ok(heights)
}

fn are_none(places: &[usize]) -> bool
    ensures { IsTrue result ↔ (length places.now ≡ 0) }
{
    places.is_empty()
}

// A round: what the instructions with a new height hand on comes to the places that have none. The answer is where it came.
fn next_round(
    judged: &Judged<'_>,
    newest: &[usize],
    heights: &mut Vec<Height>,
    given: &mut Vec<Option<u64>>,
) -> Result<Vec<usize>, AllocError>
    requires judged { IsJudged judged.now }
    requires found { AreFound newest.now heights.old.items given.old.items }
    ensures next { IfOk result (λ next. heights.new.items ≡ next_heights (handed (code_of judged.now) judged.now.in_process (block_of judged.now) 0 (block_of judged.now) heights.old.items) 0 heights.old.items) }
    ensures found { IfOk result (λ next. AreFound next.items heights.new.items given.new.items) }
{
    hand_all(judged, newest, heights.as_slice(), given)?;
    settle_all(newest, heights);
    let mut next = Vec::new(*heights.allocator());
    take_all(judged.block, newest, given.as_slice(), heights, &mut next)?;
    next.sort()?;
    Ok(next)
}

// The heights alone.
fn firsts(alloc: Global, heights: &[Height]) -> Result<Vec<Option<u64>>, AllocError>
    ensures { IfOk result (λ firsts. firsts.items ≡ map first heights.now) }
{
    heights.iter().map(|height| first(height)).collect(alloc)
}

fn first(height: &Height) -> Option<u64>
    ensures { result ≡ first height.now }
{
    match height {
        None => None,
        Some((height, _)) => Some(*height),
    }
}

// The places with a new height, in order.
fn new_places(alloc: Global, heights: &[Height]) -> Result<Vec<usize>, AllocError>
    ensures covers { IfOk result (λ places. Covers places.items heights.now) }
    ensures rising { IfOk result (λ places. Rising 0 places.items) }
{
    let mut places = Vec::new(alloc);
    for (at, height) in heights.iter().enumerate() {
        if is_new(height) {
            places.push(at)?;
        }
    }
    places.sort()?;
    Ok(places)
}

fn is_new(height: &Height) -> bool
    ensures { result ≡ is_new height.now }
{
    match height {
        None => false,
        Some((_, is_new)) => *is_new,
    }
}

// Place 0 and the children's places begin.
fn first_heights(alloc: Global, block: &[Instr]) -> Result<Vec<Height>, AllocError>
    ensures { IfOk result (λ heights. heights.items ≡ rule.first_heights (all_children (map view_instr block.now)) 0 (map view_instr block.now)) }
{
    let mut heights = no_heights(alloc, block)?;
    begin_at(&mut heights, 0);
    for x in block {
        begin_all(&mut heights, children_of(x));
    }
    Ok(heights)
}

fn no_heights(alloc: Global, block: &[Instr]) -> Result<Vec<Height>, AllocError>
    ensures { IfOk result (λ heights. heights.items ≡ map (λ x. None) block.now) }
{
    block.iter().map(|_| None).collect(alloc)
}

fn begin_all(heights: &mut Vec<Height>, places: &[u32])
    ensures { heights.new.items ≡ set_all places.now (Some (0, true)) heights.old.items }
{
    for to in places {
        begin_at(heights, *to as usize);
    }
}

fn begin_at(heights: &mut Vec<Height>, to: usize)
    ensures { heights.new.items ≡ slice_set heights.old.items to (Some (0, true)) }
{
    if to < heights.len() {
        heights[to] = Some((0, true));
    }
}
