//! That the links join the parts to a tree.
ghost use Rattle.std.specs.Prelude.{◌≡◌, ◌≤◌, All, IfOk, length, map, slice_get};
ghost use Rattle.campl_plug.specs.Links.{IsWithin};
ghost use Rattle.campl_tree.specs.View.{view_link, view_part, parts as part_list};
ghost use Rattle.campl_types.specs.Headers.{count};
ghost use Rattle.campl_peel.specs.Numbered.{inputs_in, outputs_in, joined_parts, part_at};
ghost use Rattle.campl_seqcheck.specs.Judged.{fine};
ghost use Rattle.campl_linear.specs.Faults as plain;
ghost use Rattle.campl_linear.specs.Plugs.{in_cycle, is_apart, parts_form_tree};
ghost use Rattle.campl_held.specs.Answered.{Answers, Refused, Tells};
ghost use Rattle.campl_plug_heads.specs.Heads.{joined_in, numbered};

use crate::links::Ends;
use campl_held::LinFault;
use campl_plug::{PlugFault, tree_order};
use campl_tree::{Link, Part};
use std::alloc::{AllocError, Global};

/// The parts that a link joins: that of which it is an output, and that of which it is an input.
fn joined_by(ends: &Ends, link: &Link) -> campl_plug::Link
    ensures { result ≡ joined_in ends.now.inputs ends.now.outputs (view_link link.now) }
{
    campl_plug::Link {
        a: ends.outputs.number(&link.name.name),
        b: ends.inputs.number(&link.name.name),
    }
}

/// The parts that links join.
fn joined_parts(
    alloc: Global,
    ends: &Ends,
    links: &[Link],
) -> Result<Vec<campl_plug::Link>, AllocError>
    ensures { IfOk result (λ joined. joined.items ≡ map (joined_in ends.now.inputs ends.now.outputs) (map view_link links.now)) }
{
    let mut joined = Vec::new(alloc);
    for link in links {
        joined.push(joined_by(ends, link))?;
    }
    Ok(joined)
}

/// That a link, by its number from 0, closes a cycle.
#[tactic(auto, using(crate::proofs::Told::trees))]
fn in_cycle(alloc: Global, links: &[Link], number: usize) -> LinFault
    ensures { Refused (in_cycle (slice_get (map view_link links.now) number)) result }
{
    let Some(link) = links.get(number) else {
        return LinFault::OutOfMemory;
    };
    match link.name.name.copy(alloc) {
        Ok(name) => LinFault::PlugCycle(link.name.place, name),
        Err(_) => LinFault::OutOfMemory,
    }
}

/// That a part of this number is apart from the first.
#[tactic(auto, using(crate::proofs::Names::headers))]
fn apart(part: &Part, number: usize) -> LinFault
    ensures { Tells (plain.PlugApart (view_part part.now).0.place number) result }
{
    LinFault::PlugApart(part.place, number)
}

/// That a part, by its number from 1, is apart from the first.
fn is_apart(parts: &[Part], number: usize) -> LinFault
    ensures { Refused (is_apart number (part_at (part_list (map view_part parts.now)) number)) result }
{
    if number == 0 {
        return LinFault::OutOfMemory;
    }
    match parts.get(number - 1) {
        Some(part) => apart(part, number),
        None => LinFault::OutOfMemory,
    }
}

/// Refuses links that don't join the parts to a tree.
///
/// # Errors
///
/// `PlugCycle` of the first link that closes a cycle; where there is none, `PlugApart` of the first part that isn't
/// joined to the first.
#[tactic(auto, using(crate::proofs::Trees::trees))]
pub(crate) fn parts_form_tree(
    alloc: Global,
    ends: &Ends,
    links: &[Link],
    parts: &[Part],
) -> Result<(), LinFault>
    requires some { 1 ≤ length parts.now }
    requires most { length parts.now ≤ 64 }
    requires inputs { ends.now.inputs ≡ numbered inputs_in 1 (part_list (map view_part parts.now)) }
    requires outputs { ends.now.outputs ≡ numbered outputs_in 1 (part_list (map view_part parts.now)) }
    requires within { All (IsWithin (count (part_list (map view_part parts.now)))) (joined_parts (map view_link links.now) (part_list (map view_part parts.now))) }
    ensures { Answers (λ _. fine) (parts_form_tree (map view_link links.now) (part_list (map view_part parts.now))) result }
{
    let joined = match joined_parts(alloc, ends, links) {
        Ok(joined) => joined,
        Err(_) => return Err(LinFault::OutOfMemory),
    };
    match tree_order(alloc, parts.len() as u32, &joined) {
        Ok(_) => Ok(()),
        Err(PlugFault::Cycle { link }) => Err(in_cycle(alloc, links, link as usize)),
        Err(PlugFault::Apart { part }) => Err(is_apart(parts, part as usize)),
        Err(PlugFault::OutOfMemory) => Err(LinFault::OutOfMemory),
    }
}
