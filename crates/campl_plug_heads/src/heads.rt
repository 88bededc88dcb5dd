//! What is judged of a plug's headers.
ghost use Rattle.std.specs.Prelude.{◌≡◌, ◌≤◌, ◌++◌, [], IfOk, OnOk, if◌then◌else◌, length, map};
ghost use Rattle.campl_tree.specs.declared.service.Side.TheVariants.{Input, Output};
ghost use Rattle.campl_tree.specs.View.{view_part, parts as part_list};
ghost use Rattle.campl_types.specs.Names.{found};
ghost use Rattle.campl_types.specs.World.{names_of};
ghost use Rattle.campl_peel.specs.Numbered.{inputs_in, outputs_in};
ghost use Rattle.campl_seqcheck.specs.Judged.{Fails, Is, fine};
ghost use Rattle.campl_linear.specs.Channels.{same_side};
ghost use Rattle.campl_linear.specs.Faults as plain;
ghost use Rattle.campl_linear.specs.Plugs.{stands_once, may_stand, names_stand, headers_stand};
ghost use Rattle.campl_held.specs.Answered.{Answers};
ghost use Rattle.campl_held.specs.Slots.{view_held};
ghost use Rattle.campl_plug_heads.specs.Heads.{header_stands, links_named, marked, name_stands, names_in, numbered};

use crate::links::{Ends, misused};
use crate::numbers::Numbers;
use crate::sets::inputs_of;
use campl_held::{Held, LinFault, not_held};
use campl_names::NameSet;
use campl_tree::{Ident, Part, Side};
use std::alloc::Global;

/// What a header may name: the links, by their names, and what is held.
#[derive(Clone, Copy)]
pub(crate) struct Around<'a> {
    pub links: &'a NameSet,
    pub held: &'a Held,
}

/// Refuses a held channel on another side than its own.
#[tactic(auto, using(crate::proofs::Told::refusals))]
fn stands_on(alloc: Global, x: &Ident, own: Side, side: Side) -> Result<(), LinFault>
    ensures { Answers (λ _. fine) (if same_side own side then Is fine else Fails (plain.PlugUse x.now.place x.now.name)) result }
{
    match (own, side) {
        (Side::Input, Side::Input) | (Side::Output, Side::Output) => Ok(()),
        (Side::Input, Side::Output) | (Side::Output, Side::Input) => Err(misused(alloc, x)),
    }
}

/// Refuses a name that is neither a link nor held on this side.
#[tactic(auto, using(crate::proofs::Told::refusals, crate::proofs::Told::places))]
fn may_stand(alloc: Global, around: &Around<'_>, side: Side, x: &Ident) -> Result<(), LinFault>
    ensures { Answers (λ _. fine) (may_stand x.now side (links_named around.now.links.now x.now.name) (found x.now.name (view_held around.now.held.now))) result }
{
    if around.links.has(&x.name) {
        return Ok(());
    }
    match around.held.find(&x.name) {
        Some(channel) => stands_on(alloc, x, channel.side, side),
        None => Err(not_held(alloc, x)),
    }
}

/// Refuses a name that stood before.
#[tactic(auto, using(crate::proofs::Told::refusals))]
fn stands_once(alloc: Global, x: &Ident, also: &NameSet, before: &Numbers) -> Result<(), LinFault>
    ensures { Answers (λ _. fine) (stands_once x.now (also.now ++ names_in before.now)) result }
{
    if also.has(&x.name) {
        return Err(misused(alloc, x));
    }
    if before.has(&x.name) {
        return Err(misused(alloc, x));
    }
    Ok(())
}

/// Refuses a name that may not stand on this side, or that stood before.
#[tactic(auto, using(crate::proofs::Told::refusals))]
fn name_stands(
    alloc: Global,
    around: &Around<'_>,
    side: Side,
    also: &NameSet,
    before: &Numbers,
    x: &Ident,
) -> Result<(), LinFault>
    ensures { Answers (λ _. fine) (name_stands (links_named around.now.links.now) (view_held around.now.held.now) side (also.now ++ names_in before.now) x.now) result }
{
    match may_stand(alloc, around, side, x) {
        Ok(()) => {}
        Err(fault) => return Err(fault),
    }
    stands_once(alloc, x, also, before)
}

/// Judges the names on one side of the header of part `number`, and puts them behind those of the parts before.
fn names_stand(
    alloc: Global,
    around: &Around<'_>,
    side: Side,
    also: &NameSet,
    before: &mut Numbers,
    number: u32,
    xs: &[Ident],
) -> Result<(), LinFault>
    ensures judged { Answers (λ _. fine) (names_stand (links_named around.now.links.now) (view_held around.now.held.now) side (also.now ++ names_in before.old) xs.now) result }
    ensures added { OnOk result (before.new ≡ before.old ++ marked number xs.now) }
{
    for i in 0..xs.len() {
        let x = &xs[i];
        match name_stands(alloc, around, side, also, before, x) {
            Ok(()) => {}
            Err(fault) => return Err(fault),
        }
        match before.add(alloc, &x.name, number) {
            Ok(()) => {}
            Err(_) => return Err(LinFault::OutOfMemory),
        }
    }
    Ok(())
}

/// Judges the inputs of a part.
#[tactic(auto, using(crate::proofs::Names::headers))]
fn inputs_stand(
    alloc: Global,
    around: &Around<'_>,
    before: &mut Numbers,
    number: u32,
    part: &Part,
) -> Result<(), LinFault>
    ensures judged { Answers (λ _. fine) (names_stand (links_named around.now.links.now) (view_held around.now.held.now) Input (names_in before.old) (view_part part.now).0.inputs) result }
    ensures added { OnOk result (before.new ≡ before.old ++ marked number (view_part part.now).0.inputs) }
{
    let none = NameSet::new(alloc);
    names_stand(
        alloc,
        around,
        Side::Input,
        &none,
        before,
        number,
        part.inputs.as_slice(),
    )
}

/// Judges the outputs of a part, which differ from its inputs.
#[tactic(auto, using(crate::proofs::Names::headers))]
fn outputs_stand(
    alloc: Global,
    around: &Around<'_>,
    before: &mut Numbers,
    number: u32,
    part: &Part,
) -> Result<(), LinFault>
    ensures judged { Answers (λ _. fine) (names_stand (links_named around.now.links.now) (view_held around.now.held.now) Output (names_of (view_part part.now).0.inputs ++ names_in before.old) (view_part part.now).0.outputs) result }
    ensures added { OnOk result (before.new ≡ before.old ++ marked number (view_part part.now).0.outputs) }
{
    let own = match inputs_of(alloc, part) {
        Ok(own) => own,
        Err(_) => return Err(LinFault::OutOfMemory),
    };
    names_stand(
        alloc,
        around,
        Side::Output,
        &own,
        before,
        number,
        part.outputs.as_slice(),
    )
}

/// Judges the header of part `number`, and puts its names behind those of the parts before.
#[tactic(auto, using(crate::proofs::Told::refusals))]
fn header_stands(
    alloc: Global,
    around: &Around<'_>,
    ends: &mut Ends,
    number: u32,
    part: &Part,
) -> Result<(), LinFault>
    ensures judged { Answers (λ _. fine) (header_stands (links_named around.now.links.now) (view_held around.now.held.now) (names_in ends.old.inputs) (names_in ends.old.outputs) (view_part part.now).0) result }
    ensures inputs { OnOk result (ends.new.inputs ≡ ends.old.inputs ++ marked number (view_part part.now).0.inputs) }
    ensures outputs { OnOk result (ends.new.outputs ≡ ends.old.outputs ++ marked number (view_part part.now).0.outputs) }
{
    match inputs_stand(alloc, around, &mut ends.inputs, number, part) {
        Ok(()) => {}
        Err(fault) => return Err(fault),
    }
    outputs_stand(alloc, around, &mut ends.outputs, number, part)
}

/// The names in all headers, with the numbers of their parts.
///
/// # Errors
///
/// At the first name in its way, inputs of a header first: `NotHeld` where it is neither held nor a link; `PlugUse`
/// where it is held on the other side, stood on this side before, or stands on both sides of one header.
pub(crate) fn headers_stand(
    alloc: Global,
    around: &Around<'_>,
    parts: &[Part],
) -> Result<Ends, LinFault>
    requires { length parts.now ≤ 64 }
    ensures judged { Answers (λ _. fine) (headers_stand (links_named around.now.links.now) (view_held around.now.held.now) [] [] (part_list (map view_part parts.now))) result }
    ensures inputs { IfOk result (λ e. e.inputs ≡ numbered inputs_in 1 (part_list (map view_part parts.now))) }
    ensures outputs { IfOk result (λ e. e.outputs ≡ numbered outputs_in 1 (part_list (map view_part parts.now))) }
{
    let mut ends = Ends {
        inputs: Numbers::new(alloc),
        outputs: Numbers::new(alloc),
    };
    for i in 0..parts.len() {
        match header_stands(alloc, around, &mut ends, i as u32 + 1, &parts[i]) {
            Ok(()) => {}
            Err(fault) => return Err(fault),
        }
    }
    Ok(ends)
}
