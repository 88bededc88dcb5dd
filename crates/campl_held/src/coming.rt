//! New channels, and none left.
ghost use Rattle.std.specs.Prelude.{if◌then◌else◌};
ghost use Rattle.campl_types.specs.Names.{same_name};
ghost use Rattle.campl_seqcheck.specs.Judged.{fine, Fails};
ghost use Rattle.campl_linear.specs.Channels.{new_name, two_new, none_left};
ghost use Rattle.campl_linear.specs.Faults as plain;
ghost use Rattle.campl_held.specs.Answered.{Answers};
ghost use Rattle.campl_held.specs.Slots.{view_held};

use crate::fault::LinFault;
use crate::held::Held;
use crate::telling::left_over;
use campl_tree::{Ident, Place};
use std::alloc::Global;

/// Refuses the first channel that is left.
///
/// # Errors
///
/// `LeftOver` (E41) at the place, of that channel; `OutOfMemory` where memory wants to tell it.
#[tactic(auto, using(crate::proofs::Told::refused, crate::proofs::Entries::leaving))]
pub fn none_left(alloc: Global, at: Place, held: &Held) -> Result<(), LinFault>
    ensures { Answers (λ _. fine) (none_left at (view_held held.now)) result }
{
    match held.first() {
        None => Ok(()),
        Some(channel) => Err(left_over(alloc, at, &channel.name)),
    }
}

/// Refuses a new channel whose name is held.
///
/// # Errors
///
/// `LeftOver` (E41) at the name; `OutOfMemory` where memory wants to tell it.
#[tactic(auto, using(crate::proofs::Told::refused, crate::proofs::Entries::coming))]
pub fn new_name(alloc: Global, y: &Ident, held: &Held) -> Result<(), LinFault>
    ensures { Answers (λ _. fine) (new_name y.now (view_held held.now)) result }
{
    match held.find(&y.name) {
        None => Ok(()),
        Some(_) => Err(left_over(alloc, y.place, &y.name)),
    }
}

/// Refuses a new channel that has the name of another, or whose name is held.
#[tactic(auto, using(crate::proofs::Told::refused))]
fn differs(alloc: Global, y: &Ident, z: &Ident, held: &Held) -> Result<(), LinFault>
    ensures { Answers (λ _. fine) (if same_name y.now.name z.now.name then Fails (plain.LeftOver z.now.place z.now.name) else new_name z.now (view_held held.now)) result }
{
    if y.name == z.name {
        Err(left_over(alloc, z.place, &z.name))
    } else {
        new_name(alloc, z, held)
    }
}

/// Refuses the first of two new channels whose name is held; the second may not have the first's name either.
///
/// # Errors
///
/// `LeftOver` (E41) at that name; `OutOfMemory` where memory wants to tell it.
#[tactic(auto, using(crate::proofs::Told::stopped))]
pub fn two_new(alloc: Global, y: &Ident, z: &Ident, held: &Held) -> Result<(), LinFault>
    ensures { Answers (λ _. fine) (two_new y.now z.now (view_held held.now)) result }
{
    match new_name(alloc, y, held) {
        Ok(()) => {}
        Err(fault) => return Err(fault),
    }
    differs(alloc, y, z, held)
}
