//! Refusals of the phase that judges processes.
ghost use Rattle.std.specs.Prelude.{◌≡◌};
ghost use Rattle.campl_held.specs.declared.fault.LinFault.TheVariants.{OutOfMemory};

use campl_seqcheck::SeqFault;
use campl_tree::{ChanType, Name, Place, Side};
use std::alloc::{AllocError, AllocFailed, Global};
use std::convert::From;

/// Why processes aren't typed. A fault has the place at which it is told, and what is shown of it.
pub enum LinFault {
    /// An expression, a pattern or a row's variables (E30 to E34). It is never want of memory.
    Seq(SeqFault),
    /// The channel isn't held (E40).
    NotHeld(Place, Name),
    /// The channel is left over, or a new one takes its name (E41).
    LeftOver(Place, Name),
    /// What is held, with its type and side, is at another action (E42).
    WrongAction(Place, Name, ChanType, Side),
    /// A name stands in a plug where it may not, or too seldom (E43).
    PlugUse(Place, Name),
    /// The link closes a cycle (E44).
    PlugCycle(Place, Name),
    /// The part of this number, counted from 1, is apart (E45).
    PlugApart(Place, usize),
    /// The constructor has no row (E46).
    CaseMissing(Place, Name),
    /// The constructor has a second row (E47).
    CaseTwice(Place, Name),
    /// A race of too few or too many branches, or a branch that doesn't begin by receiving (E48).
    RaceForm(Place),
    /// The channels of an identity don't fit together (E49).
    IdentityType(Place),
    /// Another number of channels than is declared, or another side or type of the one that is named (E50).
    CallChannels(Place, Option<Name>),
    /// A plug of too few or too many parts (E51).
    PartCount(Place),
    OutOfMemory,
}

impl Drop for LinFault {
    fn drop(self) {
        match self {
            LinFault::Seq(fault) => drop(fault),
            LinFault::NotHeld(_, x)
            | LinFault::LeftOver(_, x)
            | LinFault::PlugUse(_, x)
            | LinFault::PlugCycle(_, x)
            | LinFault::CaseMissing(_, x)
            | LinFault::CaseTwice(_, x) => drop(x),
            LinFault::WrongAction(_, x, t, _) => {
                drop(x);
                drop(t);
            }
            LinFault::CallChannels(_, x) => drop(x),
            LinFault::PlugApart(_, _)
            | LinFault::RaceForm(_)
            | LinFault::IdentityType(_)
            | LinFault::PartCount(_)
            | LinFault::OutOfMemory => {}
        }
    }
}

impl<T: Drop> From<AllocFailed<T>> for LinFault {
    ghost from_gives = { λ _ e. e ≡ OutOfMemory };

    fn from(_error: AllocFailed<T>) -> LinFault {
        LinFault::OutOfMemory
    }
}

impl From<AllocError> for LinFault {
    ghost from_gives = { λ _ e. e ≡ OutOfMemory };

    fn from(_error: AllocError) -> LinFault {
        LinFault::OutOfMemory
    }
}
