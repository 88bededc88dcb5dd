//! What is judged of a plug's links beside the tree.
ghost use Rattle.std.specs.Prelude.{◌≡◌, [], IfOk, map};
ghost use Rattle.campl_tree.specs.View.{view_link};
ghost use Rattle.campl_types.specs.Headers.{link_names};
ghost use Rattle.campl_names.specs.Scope.{with_names};
ghost use Rattle.campl_seqcheck.specs.Judged.{fine};
ghost use Rattle.campl_linear.specs.Faults as plain;
ghost use Rattle.campl_linear.specs.Plugs.{stands_once, links_are_new};
ghost use Rattle.campl_held.specs.Answered.{Answers, Tells};
ghost use Rattle.campl_held.specs.Slots.{view_held};
ghost use Rattle.campl_plug_heads.specs.Heads.{link_joins, link_stands, links_join};

use crate::numbers::Numbers;
use campl_held::{Held, LinFault, new_name};
use campl_names::NameSet;
use campl_tree::{Ident, Link};
use std::alloc::Global;

/// The names on each side of all headers, with the numbers of their parts.
#[derive(Drop)]
pub(crate) struct Ends {
    pub inputs: Numbers,
    pub outputs: Numbers,
}

/// That a name stands in a plug where it may not, or too seldom.
pub(crate) fn misused(alloc: Global, x: &Ident) -> LinFault
    ensures { Tells (plain.PlugUse x.now.place x.now.name) result }
{
    match x.name.copy(alloc) {
        Ok(name) => LinFault::PlugUse(x.place, name),
        Err(_) => LinFault::OutOfMemory,
    }
}

/// Refuses a name that stands among others.
#[tactic(auto, using(crate::proofs::Told::refusals))]
fn stands_once(alloc: Global, x: &Ident, seen: &NameSet) -> Result<(), LinFault>
    ensures { Answers (λ _. fine) (stands_once x.now seen.now) result }
{
    if seen.has(&x.name) {
        Err(misused(alloc, x))
    } else {
        Ok(())
    }
}

/// Refuses a link whose name is held, or stands among others.
#[tactic(auto, using(crate::proofs::Told::refusals))]
fn link_stands(alloc: Global, held: &Held, seen: &NameSet, x: &Ident) -> Result<(), LinFault>
    ensures { Answers (λ _. fine) (link_stands (view_held held.now) seen.now x.now) result }
{
    match new_name(alloc, x, held) {
        Ok(()) => {}
        Err(fault) => return Err(fault),
    }
    stands_once(alloc, x, seen)
}

/// The names of a plug's links, which are new and differ.
///
/// # Errors
///
/// `LeftOver` at the first link whose name is held, `PlugUse` at the first whose name stands before it.
pub(crate) fn links_are_new(alloc: Global, held: &Held, links: &[Link]) -> Result<NameSet, LinFault>
    ensures judged { Answers (λ _. fine) (links_are_new (view_held held.now) [] (map view_link links.now)) result }
    ensures names { IfOk result (λ s. s ≡ with_names [] (link_names (map view_link links.now))) }
{
    let mut seen = NameSet::new(alloc);
    for i in 0..links.len() {
        let link = &links[i];
        match link_stands(alloc, held, &seen, &link.name) {
            Ok(()) => {}
            Err(fault) => return Err(fault),
        }
        match seen.add(alloc, &link.name.name) {
            Ok(()) => {}
            Err(_) => return Err(LinFault::OutOfMemory),
        }
    }
    Ok(seen)
}

/// Refuses a link that doesn't stand on both sides.
#[tactic(auto, using(crate::proofs::Told::refusals))]
fn link_joins(alloc: Global, ends: &Ends, x: &Ident) -> Result<(), LinFault>
    ensures { Answers (λ _. fine) (link_joins ends.now.inputs ends.now.outputs x.now) result }
{
    if ends.inputs.has(&x.name) && ends.outputs.has(&x.name) {
        Ok(())
    } else {
        Err(misused(alloc, x))
    }
}

/// Refuses the first link that doesn't stand on both sides.
pub(crate) fn links_join(alloc: Global, ends: &Ends, links: &[Link]) -> Result<(), LinFault>
    ensures { Answers (λ _. fine) (links_join ends.now.inputs ends.now.outputs (map view_link links.now)) result }
{
    for i in 0..links.len() {
        let link = &links[i];
        match link_joins(alloc, ends, &link.name) {
            Ok(()) => {}
            Err(fault) => return Err(fault),
        }
    }
    Ok(())
}
