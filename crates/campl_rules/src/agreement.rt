//! Whether all ways to a place have its height.
ghost use Rattle.std.specs.Prelude.{◌≡◌, ◌+◌, true, ◌∷◌, [], Some, IfOk, OnOk};
ghost use Rattle.campl_code.specs.Operands as operand;
ghost use Rattle.campl_code.specs.Rules.{is_own_height, height_at, hands, agrees_with, ways_agree};
ghost use Rattle.campl_instructions.specs.View.{view_instr};
ghost use Rattle.campl_rules.specs.Judged.{code_of, block_of, IsJudged};
ghost use Rattle.campl_rules.specs.Given.{AgreesLater, fits_there, IsAgreement};

use crate::heights::Height;
use crate::judged::Judged;
use crate::stack::{has_operands, height_behind};
use crate::ways::{goes_behind, is_sound, targets_of};
use campl_instructions::Instr;
use std::alloc::{AllocError, Global};

/// For each place whether no instruction hands it another height than its own.
pub(crate) fn agreement(
    alloc: Global,
    judged: &Judged<'_>,
    heights: &[Height],
) -> Result<Vec<bool>, AllocError>
    requires { IsJudged judged.now }
    ensures { IfOk result (λ agrees. IsAgreement (code_of judged.now) judged.now.in_process (block_of judged.now) heights.now agrees.items) }
{
    let mut agrees = vec![in alloc; true; judged.block.len()]?;
    for (at, x) in judged.block.iter().enumerate() {
        match heights.get(at) {
            None => return Ok(agrees),
            Some(height) => compare_from(judged, at, x, height, heights, &mut agrees)?,
        }
    }
    Ok(agrees)
}

// What one instruction hands on, in whatever round it got its height.
fn compare_from(
    judged: &Judged<'_>,
    at: usize,
    x: &Instr,
    height: &Height,
    heights: &[Height],
    agrees: &mut Vec<bool>,
) -> Result<(), AllocError>
    requires { IsJudged judged.now }
    ensures { OnOk result (AgreesLater agrees.old.items (λ to. agrees_with (hands (code_of judged.now) judged.now.in_process (block_of judged.now) at (view_instr x.now) to height.now) (height_at heights.now to)) agrees.new.items) }
{
    match height {
        None => Ok(()),
        Some((height, _)) => compare(judged, at, x, *height, heights, agrees),
    }
}

// What one instruction hands on at this height.
fn compare(
    judged: &Judged<'_>,
    at: usize,
    x: &Instr,
    height: u64,
    heights: &[Height],
    agrees: &mut Vec<bool>,
) -> Result<(), AllocError>
    requires { IsJudged judged.now }
    ensures { OnOk result (AgreesLater agrees.old.items (λ to. agrees_with (hands (code_of judged.now) judged.now.in_process (block_of judged.now) at (view_instr x.now) to (Some (height, true))) (height_at heights.now to)) agrees.new.items) }
{
    if is_sound(judged, at, x) && has_operands(judged.code, x, height) {
        let Some(behind) = height_behind(judged.code, x, height) else {
            return Err(AllocError);
        };
        compare_ways(at, x, behind, heights, agrees);
    }
    Ok(())
}

fn compare_ways(at: usize, x: &Instr, height: u64, heights: &[Height], agrees: &mut Vec<bool>)
    ensures { AgreesLater agrees.old.items (fits_there (operand.ways_from at (view_instr x.now)) height heights.now) agrees.new.items }
{
    if goes_behind(x) {
        compare_behind(at, height, heights, agrees);
    }
    compare_each(targets_of(x), height, heights, agrees);
}

fn compare_behind(at: usize, height: u64, heights: &[Height], agrees: &mut Vec<bool>)
    ensures { AgreesLater agrees.old.items (fits_there ((at + 1) ∷ []) height heights.now) agrees.new.items }
{
    if at < agrees.len() {
        compare_at(at + 1, height, heights, agrees);
    }
}

fn compare_each(places: &[u32], height: u64, heights: &[Height], agrees: &mut Vec<bool>)
    ensures { AgreesLater agrees.old.items (fits_there places.now height heights.now) agrees.new.items }
{
    for to in places {
        compare_at(*to as usize, height, heights, agrees);
    }
}

fn compare_at(to: usize, height: u64, heights: &[Height], agrees: &mut Vec<bool>)
    ensures { AgreesLater agrees.old.items (fits_there (to ∷ []) height heights.now) agrees.new.items }
{
    if to < agrees.len() && !is_own_height(height, heights, to) {
        agrees[to] = false;
    }
}

// A place without a height agrees with each.
fn is_own_height(height: u64, heights: &[Height], to: usize) -> bool
    ensures { result ≡ is_own_height height (height_at heights.now to) }
{
    match heights.get(to) {
        Some(Some((own, _))) => height == *own,
        _ => true,
    }
}
