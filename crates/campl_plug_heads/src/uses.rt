//! That each held channel is in a part.
ghost use Rattle.std.specs.Prelude.{map};
ghost use Rattle.campl_tree.specs.View.{view_part, parts as part_list};
ghost use Rattle.campl_seqcheck.specs.Judged.{fine};
ghost use Rattle.campl_linear.specs.Plugs.{all_are_used};
ghost use Rattle.campl_held.specs.Answered.{Answers};
ghost use Rattle.campl_held.specs.Slots.{view_held};

use crate::sets::all_names;
use campl_held::{Held, LinFault, none_left};
use campl_tree::{Part, Place};
use std::alloc::Global;

/// Refuses the first held channel that stands in no header.
pub(crate) fn all_are_used(
    alloc: Global,
    at: Place,
    held: &Held,
    parts: &[Part],
) -> Result<(), LinFault>
    ensures { Answers (λ _. fine) (all_are_used at (view_held held.now) (part_list (map view_part parts.now))) result }
{
    let used = match all_names(alloc, parts) {
        Ok(used) => used,
        Err(_) => return Err(LinFault::OutOfMemory),
    };
    let left = match held.those(alloc, &used, false) {
        Ok(left) => left,
        Err(_) => return Err(LinFault::OutOfMemory),
    };
    none_left(alloc, at, &left)
}
