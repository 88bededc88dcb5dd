//! The parts of a plug judged.
ghost use Rattle.std.specs.Prelude.{◌≡◌, OnOk, map};
ghost use Rattle.campl_tree.specs.View.{view_link, view_part, parts as part_list, view_decl};
ghost use Rattle.campl_vars.specs.Variables.{view_vars};
ghost use Rattle.campl_seqcheck.specs.Judged.{fine};
ghost use Rattle.campl_held.specs.Answered.{Answers};
ghost use Rattle.campl_held.specs.Slots.{view_held};
ghost use Rattle.campl_held.specs.Chosen.{ChoicesAreDeclared};
ghost use Rattle.campl_plug_heads.specs.Heads.{LinksStand};
ghost use Rattle.campl_lincheck.specs.Steps.{judged_plug, judged_parts, judged_part};

use crate::judging::judge;
use campl_held::{Held, LinFault};
use campl_names::World;
use campl_plug_heads::{plug_stands, share_of};
use campl_tree::{Link, Part, Place};
use campl_vars::Vars;
use std::alloc::Global;

/// Judges `plug`, its links and its parts.
#[cycle(judge)]
pub(super) fn judge_plug(
    alloc: Global,
    world: &World,
    vars: &mut Vars,
    held: &Held,
    parts: &[Part],
    at: Place,
    links: &[Link],
) -> Result<(), LinFault>
    requires { ChoicesAreDeclared (map view_decl world.now) }
    ensures judged { Answers (λ _. fine) (judged_plug at (map view_decl world.now) (view_vars vars.old) (view_held held.now) (map view_link links.now) (part_list (map view_part parts.now))) result }
    ensures kept { OnOk result (vars.new ≡ vars.old) }
{
    match plug_stands(alloc, at, links, parts, held) {
        Ok(()) => {}
        Err(fault) => return Err(fault),
    }
    judge_parts(alloc, world, vars, held, parts, links)
}

/// Judges the bodies of parts, each with its share of what is held.
#[cycle(judge)]
fn judge_parts(
    alloc: Global,
    world: &World,
    vars: &mut Vars,
    held: &Held,
    parts: &[Part],
    links: &[Link],
) -> Result<(), LinFault>
    requires declared { ChoicesAreDeclared (map view_decl world.now) }
    requires links { LinksStand (map view_link links.now) (view_held held.now) }
    ensures judged { Answers (λ _. fine) (judged_parts (map view_decl world.now) (view_vars vars.old) (map view_link links.now) (view_held held.now) (part_list (map view_part parts.now))) result }
    ensures kept { OnOk result (vars.new ≡ vars.old) }
{
    for i in 0..parts.len() {
        match judge_part(alloc, world, vars, held, &parts[i], links) {
            Ok(()) => {}
            Err(fault) => return Err(fault),
        }
    }
    Ok(())
}

/// Judges the body of a part.
#[cycle(judge)]
fn judge_part(
    alloc: Global,
    world: &World,
    vars: &mut Vars,
    held: &Held,
    part: &Part,
    links: &[Link],
) -> Result<(), LinFault>
    requires declared { ChoicesAreDeclared (map view_decl world.now) }
    requires links { LinksStand (map view_link links.now) (view_held held.now) }
    ensures judged { Answers (λ _. fine) (judged_part (map view_decl world.now) (view_vars vars.old) (map view_link links.now) (view_held held.now) (view_part part.now)) result }
    ensures kept { OnOk result (vars.new ≡ vars.old) }
{
    match share_of(alloc, links, held, part) {
        Ok(share) => judge(alloc, world, vars, share, &part.body),
        Err(_) => Err(LinFault::OutOfMemory),
    }
}
