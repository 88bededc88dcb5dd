//! The steps of a plug, in turn.
ghost use Rattle.std.specs.Prelude.{◌≡◌, ◌≤◌, [], OnOk, length, map};
ghost use Rattle.campl_tree.specs.View.{view_link, view_part, parts as part_list};
ghost use Rattle.campl_types.specs.Headers.{count, link_names};
ghost use Rattle.campl_peel.specs.Numbered.{inputs_in, outputs_in};
ghost use Rattle.campl_names.specs.Scope.{with_names};
ghost use Rattle.campl_seqcheck.specs.Judged.{fine};
ghost use Rattle.campl_linear.specs.Plugs.{part_count, links_are_new, headers_stand, all_are_used, parts_form_tree, plug_stands};
ghost use Rattle.campl_held.specs.Answered.{Answers};
ghost use Rattle.campl_held.specs.Slots.{view_held};
ghost use Rattle.campl_plug_heads.specs.Heads.{numbered, ends_stand, heads_stand, LinksStand, HeadersStand};

use crate::heads::{Around, headers_stand};
use crate::links::{Ends, links_are_new, links_join};
use crate::tree::parts_form_tree;
use crate::uses::all_are_used;
use campl_held::{Held, LinFault};
use campl_names::NameSet;
use campl_tree::{Link, Part, Place};
use std::alloc::Global;

/// Refuses a plug of fewer than 2 or more than 64 parts.
#[tactic(auto, using(crate::proofs::Trees::counts))]
fn part_count(at: Place, parts: &[Part]) -> Result<(), LinFault>
    ensures judged { Answers (λ _. fine) (part_count at (count (part_list (map view_part parts.now)))) result }
    ensures some { OnOk result (1 ≤ length parts.now) }
    ensures most { OnOk result (length parts.now ≤ 64) }
{
    if 2 <= parts.len() && parts.len() <= 64 {
        Ok(())
    } else {
        Err(LinFault::PartCount(at))
    }
}

/// Judges uses and tree behind links and headers.
#[tactic(auto, using(crate::proofs::Told::steps))]
fn ends_stand(
    alloc: Global,
    at: Place,
    links: &[Link],
    parts: &[Part],
    held: &Held,
    ends: &Ends,
) -> Result<(), LinFault>
    requires size { 1 ≤ length parts.now }
    requires most { length parts.now ≤ 64 }
    requires inputs { ends.now.inputs ≡ numbered inputs_in 1 (part_list (map view_part parts.now)) }
    requires outputs { ends.now.outputs ≡ numbered outputs_in 1 (part_list (map view_part parts.now)) }
    requires stand { HeadersStand (map view_link links.now) (part_list (map view_part parts.now)) (view_held held.now) }
    ensures { Answers (λ _. fine) (ends_stand at (map view_link links.now) (part_list (map view_part parts.now)) (view_held held.now)) result }
{
    match links_join(alloc, ends, links) {
        Ok(()) => {}
        Err(fault) => return Err(fault),
    }
    match all_are_used(alloc, at, held, parts) {
        Ok(()) => {}
        Err(fault) => return Err(fault),
    }
    parts_form_tree(alloc, ends, links, parts)
}

/// Judges headers, uses and tree behind the links, whose names these are.
#[tactic(auto, using(crate::proofs::Told::steps))]
fn heads_stand(
    alloc: Global,
    at: Place,
    links: &[Link],
    names: &NameSet,
    parts: &[Part],
    held: &Held,
) -> Result<(), LinFault>
    requires size { 1 ≤ length parts.now }
    requires most { length parts.now ≤ 64 }
    requires names { names.now ≡ with_names [] (link_names (map view_link links.now)) }
    requires new { LinksStand (map view_link links.now) (view_held held.now) }
    ensures { Answers (λ _. fine) (heads_stand at (map view_link links.now) (part_list (map view_part parts.now)) (view_held held.now)) result }
{
    let around = Around { links: names, held };
    let ends = match headers_stand(alloc, &around, parts) {
        Ok(ends) => ends,
        Err(fault) => return Err(fault),
    };
    ends_stand(alloc, at, links, parts, held, &ends)
}

/// Judges a plug before its bodies.
///
/// # Errors
///
/// The first of these, in their order: `PartCount` (E51) at the plug, where it has fewer than 2 or more than 64 parts;
/// of each link `LeftOver` (E41) where it is held and `PlugUse` (E43) where it stands before; of each name in a header,
/// inputs first, `NotHeld` (E40) where it is neither held nor a link and `PlugUse` where it may not stand there;
/// `PlugUse` at a link that isn't used twice; `LeftOver` at the plug, of a held channel in no header; `PlugCycle` (E44)
/// at the first link that closes a cycle; `PlugApart` (E45) at the first part that isn't joined to the first.
/// `OutOfMemory` for want of memory.
#[tactic(auto, using(crate::proofs::Told::steps))]
pub fn plug_stands(
    alloc: Global,
    at: Place,
    links: &[Link],
    parts: &[Part],
    held: &Held,
) -> Result<(), LinFault>
    ensures judged { Answers (λ _. fine) (plug_stands at (map view_link links.now) (part_list (map view_part parts.now)) (view_held held.now)) result }
    ensures new { OnOk result (LinksStand (map view_link links.now) (view_held held.now)) }
{
    match part_count(at, parts) {
        Ok(()) => {}
        Err(fault) => return Err(fault),
    }
    let names = match links_are_new(alloc, held, links) {
        Ok(names) => names,
        Err(fault) => return Err(fault),
    };
    heads_stand(alloc, at, links, &names, parts, held)
}
