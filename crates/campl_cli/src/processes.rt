//! Whether the processes of a program are typed, and the parts of each plug a tree.
ghost use Rattle.std.specs.Prelude.{◌≡◌, MatchResult, map};
ghost use Rattle.campl_tree.specs.View.{view_chan, view_decl};
ghost use Rattle.campl_types.specs.WellDeclared.{IsWellDeclared};
ghost use Rattle.campl_types.specs.World.{world_of};
ghost use Rattle.campl_types.specs.Sequential.{FunctionsAreTyped};
ghost use Rattle.campl_types.specs.Linear.{ProcessesAreTyped};
ghost use Rattle.campl_tree.specs.Plain.Decl.{Program as Seen};
ghost use Rattle.campl_peel.specs.Trees.{ProcessesHaveTrees};
ghost use Rattle.campl_held.specs.Answered.{view_fault};
ghost use Rattle.campl_held.specs.Chosen.{ChoicesAreDeclared};
ghost use Rattle.campl_shown.specs.Types.{chan_text};
ghost use Rattle.campl_cli.specs.Source.{IsOrStarves, IsRefusedFor, IsToldOfProcesses, channel_if_named, refusal_of_processes, refused_as};

use crate::fault::{Detail, FaultKind, SourceFault};
use crate::functions::refusal_of_function;
use crate::kind::ProcessKind;
use crate::refusal::Refusal;
use campl_held::LinFault;
use campl_lincheck::check_processes;
use campl_names::World;
use campl_seqcheck::SeqFault;
use campl_shown::chan_text;
use campl_tree::{ChanType, Name, Place, Side};
use std::alloc::Global;
use std::mem;

/// Judges the processes of the world of a well declared program whose functions are typed.
pub fn judge_processes(alloc: Global, world: &World) -> Result<(), Refusal>
    requires { ChoicesAreDeclared (map view_decl world.now) }
    ensures { (program : Seen) → IsWellDeclared program → FunctionsAreTyped (world_of program) program → map view_decl world.now ≡ world_of program
        → MatchResult result (λ _. ProcessesAreTyped (world_of program) program × ProcessesHaveTrees program) (IsRefusedFor (IsToldOfProcesses program)) }
{
    match check_processes(alloc, world, world.declarations()) {
        Ok(()) => Ok(()),
        Err(mut fault) => Err(refusal_of(alloc, &mut fault)),
    }
}

// The refusal for a fault of processes, or for want of memory for the names in it. Of the fault nothing is used again.
fn refusal_of(alloc: Global, fault: &mut LinFault) -> Refusal
    ensures { IsOrStarves (refusal_of_processes (view_fault fault.old)) result }
{
    match fault {
        LinFault::Seq(fault) => refusal_of_function(mem::replace(fault, SeqFault::OutOfMemory)),
        LinFault::NotHeld(place, x) => of_channel(alloc, ProcessKind::NotHeld, *place, x),
        LinFault::LeftOver(place, x) => of_channel(alloc, ProcessKind::LeftOver, *place, x),
        LinFault::WrongAction(place, x, t, side) => of_action(alloc, *place, x, t, *side),
        LinFault::PlugUse(place, x) => of_channel(alloc, ProcessKind::PlugUse, *place, x),
        LinFault::PlugCycle(place, x) => of_link(alloc, *place, x),
        LinFault::PlugApart(place, part) => of_part(*place, *part),
        LinFault::CaseMissing(place, k) => of_constructor(
            alloc,
            ProcessKind::CaseMissing,
            *place,
            k,
        ),
        LinFault::CaseTwice(place, k) => of_constructor(alloc, ProcessKind::CaseTwice, *place, k),
        LinFault::RaceForm(place) => of_place(ProcessKind::RaceForm, *place),
        LinFault::IdentityType(place) => of_place(ProcessKind::IdentityType, *place),
        LinFault::CallChannels(place, x) => of_call(alloc, *place, x),
        LinFault::PartCount(place) => of_place(ProcessKind::PartCount, *place),
        LinFault::OutOfMemory => Refusal::OutOfMemory,
    }
}

// The refusal for a fault of which nothing is told but its place.
fn of_place(kind: ProcessKind, place: Place) -> Refusal
    ensures { result ≡ refused_as kind place Detail.Nothing }
{
    refused(kind, place, Detail::Nothing)
}

// The refusal for a fault of a channel.
fn of_channel(alloc: Global, kind: ProcessKind, place: Place, x: &Name) -> Refusal
    ensures { IsOrStarves (refused_as kind place (Detail.Channel x.now)) result }
{
    match x.copy(alloc) {
        Ok(channel) => refused(kind, place, Detail::Channel(channel)),
        Err(_) => Refusal::OutOfMemory,
    }
}

// The refusal for a fault of a link.
fn of_link(alloc: Global, place: Place, x: &Name) -> Refusal
    ensures { IsOrStarves (refused_as ProcessKind.PlugCycle place (Detail.Link x.now)) result }
{
    match x.copy(alloc) {
        Ok(link) => refused(ProcessKind::PlugCycle, place, Detail::Link(link)),
        Err(_) => Refusal::OutOfMemory,
    }
}

// The refusal for a part that is apart.
fn of_part(place: Place, part: usize) -> Refusal
    ensures { result ≡ refused_as ProcessKind.PlugApart place (Detail.Part part) }
{
    refused(ProcessKind::PlugApart, place, Detail::Part(part))
}

// The refusal for a fault of a constructor.
fn of_constructor(alloc: Global, kind: ProcessKind, place: Place, k: &Name) -> Refusal
    ensures { IsOrStarves (refused_as kind place (Detail.Constructor k.now)) result }
{
    match k.copy(alloc) {
        Ok(constructor) => refused(kind, place, Detail::Constructor(constructor)),
        Err(_) => Refusal::OutOfMemory,
    }
}

// The refusal for a channel that is at another action.
fn of_action(alloc: Global, place: Place, x: &Name, t: &ChanType, side: Side) -> Refusal
    ensures { IsOrStarves (refused_as ProcessKind.WrongAction place (Detail.HeldSo x.now (chan_text (view_chan t.now)) side)) result }
{
    let Ok(channel) = x.copy(alloc) else {
        return Refusal::OutOfMemory;
    };
    match chan_text(alloc, t) {
        Ok(held) => refused(
            ProcessKind::WrongAction,
            place,
            Detail::HeldSo(channel, held, side),
        ),
        Err(_) => Refusal::OutOfMemory,
    }
}

// The refusal for a call with other channels than are declared.
fn of_call(alloc: Global, place: Place, channel: &Option<Name>) -> Refusal
    ensures { IsOrStarves (refused_as ProcessKind.CallChannels place (channel_if_named channel.now)) result }
{
    match channel {
        Some(x) => of_channel(alloc, ProcessKind::CallChannels, place, x),
        None => of_place(ProcessKind::CallChannels, place),
    }
}

// The refusal for processes that are wrong so, at this place.
fn refused(kind: ProcessKind, place: Place, detail: Detail) -> Refusal
    ensures { result ≡ refused_as kind place detail }
{
    Refusal::Source(SourceFault {
        kind: FaultKind::Process(kind),
        place,
        detail,
    })
}
