//! `halt`.
ghost use Rattle.std.specs.Prelude.{map};
ghost use Rattle.campl_tree.specs.View.{view_decl};
ghost use Rattle.campl_seqcheck.specs.Judged.{fine};
ghost use Rattle.campl_held.specs.Answered.{Answers};
ghost use Rattle.campl_held.specs.Slots.{view_held};
ghost use Rattle.campl_calls.specs.Halting.{halted};

use campl_held::{Held, LinFault, none_left, used_to_end};
use campl_names::World;
use campl_tree::{Ident, Place};
use std::alloc::Global;

/// Judges `halt`, and the channel that it closes where one is named, for a process that holds these channels. The
/// place is the command's.
///
/// # Errors
///
/// `NotHeld` (E40) of a named channel that isn't held, `WrongAction` (E42) of one whose type doesn't end, and `LeftOver`
/// (E41) of the first other channel that is held; `OutOfMemory` where memory wants.
pub fn halt(
    alloc: Global,
    world: &World,
    held: Held,
    at: Place,
    channel: &Option<Ident>,
) -> Result<(), LinFault>
    ensures { Answers (λ _. fine) (halted at (map view_decl world.now) (view_held held) channel.now) result }
{
    let mut held = held;
    match channel {
        None => none_left(alloc, at, &held),
        Some(x) => {
            match used_to_end(alloc, world, at, x, &held) {
                Ok(_) => {}
                Err(fault) => return Err(fault),
            }
            held.give_up(&x.name);
            none_left(alloc, at, &held)
        }
    }
}
