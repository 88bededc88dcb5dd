//! Channels handed over.
ghost use Rattle.std.specs.Prelude.{Some, map};
ghost use Rattle.campl_tree.specs.View.{view_chan, view_process};
ghost use Rattle.campl_seqcheck.specs.Judged.{fine};
ghost use Rattle.campl_linear.specs.Calls as definition;
ghost use Rattle.campl_linear.specs.Faults as plain;
ghost use Rattle.campl_held.specs.Answered.{Answers, Tells};
ghost use Rattle.campl_held.specs.Slots.{view_channel, view_held};
ghost use Rattle.campl_calls.specs.Handing.{handed_one, all_handed};

use crate::sides::same_side;
use campl_held::{Held, HeldChannel, LinFault, find_held, none_left};
use campl_names::same_chan;
use campl_tree::{ChanType, Ident, Place, ProcessDecl, Side};
use std::alloc::Global;

/// Hands the inputs and the outputs over to a process, with which all that is held is given up.
pub(crate) fn hand_all(
    alloc: Global,
    held: Held,
    at: Place,
    p: &ProcessDecl,
    inputs: &[Ident],
    outputs: &[Ident],
) -> Result<(), LinFault>
    ensures { Answers (λ _. fine) (all_handed at (view_process p.now) inputs.now outputs.now (view_held held)) result }
{
    match as_many(at, inputs.len(), p.inputs.len()) {
        Ok(()) => {}
        Err(fault) => return Err(fault),
    }
    match as_many(at, outputs.len(), p.outputs.len()) {
        Ok(()) => {}
        Err(fault) => return Err(fault),
    }
    let mut held = held;
    match hand_over(alloc, &mut held, Side::Input, inputs, p.inputs.as_slice()) {
        Ok(()) => {}
        Err(fault) => return Err(fault),
    }
    match hand_over(
        alloc,
        &mut held,
        Side::Output,
        outputs,
        p.outputs.as_slice(),
    ) {
        Ok(()) => {}
        Err(fault) => return Err(fault),
    }
    none_left(alloc, at, &held)
}

/// Refuses another number of channels than is declared.
pub(crate) fn as_many(at: Place, number: usize, wanted: usize) -> Result<(), LinFault>
    ensures { Answers (λ _. fine) (definition.as_many at number wanted) result }
{
    if number == wanted {
        Ok(())
    } else {
        Err(LinFault::CallChannels(at, None))
    }
}

/// Gives up channels in order, each of them held on this side and with its declared type.
fn hand_over(
    alloc: Global,
    held: &mut Held,
    side: Side,
    names: &[Ident],
    types: &[ChanType],
) -> Result<(), LinFault>
    ensures { Answers (λ _. view_held held.new) (definition.handed side names.now (map view_chan types.now) (view_held held.old)) result }
{
    for i in 0..names.len().min(types.len()) {
        match hand_one(alloc, held, side, &names[i], &types[i]) {
            Ok(()) => {}
            Err(fault) => return Err(fault),
        }
    }
    Ok(())
}

/// Gives up a channel that is held on this side and with this type.
fn hand_one(
    alloc: Global,
    held: &mut Held,
    side: Side,
    x: &Ident,
    t: &ChanType,
) -> Result<(), LinFault>
    ensures { Answers (λ _. view_held held.new) (handed_one side x.now (view_chan t.now) (view_held held.old)) result }
{
    let channel = match find_held(alloc, x, held) {
        Ok(channel) => channel,
        Err(fault) => return Err(fault),
    };
    match as_declared(alloc, x, side, t, channel) {
        Ok(()) => {}
        Err(fault) => return Err(fault),
    }
    held.give_up(&x.name);
    Ok(())
}

/// Refuses a channel on another side or with another type.
#[tactic(auto, using(campl_held::proofs::Told::refused))]
fn as_declared(
    alloc: Global,
    x: &Ident,
    side: Side,
    t: &ChanType,
    channel: &HeldChannel,
) -> Result<(), LinFault>
    ensures { Answers (λ _. fine) (definition.as_declared x.now side (view_chan t.now) (view_channel channel.now)) result }
{
    if same_side(channel.side, side) && same_chan(&channel.channel_type, t) {
        Ok(())
    } else {
        Err(not_as_declared(alloc, x))
    }
}

/// That the channel is of another side or type.
fn not_as_declared(alloc: Global, x: &Ident) -> LinFault
    ensures { Tells (plain.CallChannels x.now.place (Some x.now.name)) result }
{
    match x.name.copy(alloc) {
        Ok(name) => LinFault::CallChannels(x.place, Some(name)),
        Err(_) => LinFault::OutOfMemory,
    }
}
