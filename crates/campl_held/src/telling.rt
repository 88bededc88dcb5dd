//! Faults told of what stands in the way.
ghost use Rattle.std.specs.Prelude.{◌≡◌};
ghost use Rattle.campl_tree.specs.View.{view_chan};
ghost use Rattle.campl_linear.specs.Faults as plain;
ghost use Rattle.campl_held.specs.Answered.{Tells, from_fault};

use crate::channel::HeldChannel;
use crate::fault::LinFault;
use campl_seqcheck::SeqFault;
use campl_tree::{Ident, Name, Place};
use std::alloc::Global;

/// A fault of the sequential rules as one of processes, and want of memory as want of memory.
pub fn of_seq(fault: SeqFault) -> LinFault
    ensures { result ≡ from_fault fault }
{
    match fault {
        SeqFault::OutOfMemory => LinFault::OutOfMemory,
        SeqFault::TypeDiffers {
            place,
            found,
            wanted,
        } => LinFault::Seq(SeqFault::TypeDiffers {
            place,
            found,
            wanted,
        }),
        SeqFault::NeedsType { place } => LinFault::Seq(SeqFault::NeedsType { place }),
        SeqFault::NotExhaustive { place, missing } => {
            LinFault::Seq(SeqFault::NotExhaustive { place, missing })
        }
        SeqFault::ArgumentCount {
            place,
            found,
            wanted,
        } => LinFault::Seq(SeqFault::ArgumentCount {
            place,
            found,
            wanted,
        }),
        SeqFault::NameTwiceInPattern { place, name } => {
            LinFault::Seq(SeqFault::NameTwiceInPattern { place, name })
        }
    }
}

/// That the channel isn't held (E40), or that memory wants.
pub fn not_held(alloc: Global, x: &Ident) -> LinFault
    ensures { Tells (plain.NotHeld x.now.place x.now.name) result }
{
    match x.name.copy(alloc) {
        Ok(channel) => LinFault::NotHeld(x.place, channel),
        Err(_) => LinFault::OutOfMemory,
    }
}

/// That the channel of this name is left over, or that a new one takes its name (E41); or that memory wants.
pub fn left_over(alloc: Global, at: Place, name: &Name) -> LinFault
    ensures { Tells (plain.LeftOver at name.now) result }
{
    match name.copy(alloc) {
        Ok(channel) => LinFault::LeftOver(at, channel),
        Err(_) => LinFault::OutOfMemory,
    }
}

/// That the channel, which is held under this name, is at another action (E42), or that memory wants.
pub fn wrong_action(alloc: Global, at: Place, name: &Name, channel: &HeldChannel) -> LinFault
    ensures { Tells (plain.WrongAction at name.now (view_chan channel.now.channel_type) channel.now.side) result }
{
    let Ok(name) = name.copy(alloc) else {
        return LinFault::OutOfMemory;
    };
    match channel.channel_type.copy(alloc) {
        Ok(t) => LinFault::WrongAction(at, name, t, channel.side),
        Err(_) => LinFault::OutOfMemory,
    }
}
