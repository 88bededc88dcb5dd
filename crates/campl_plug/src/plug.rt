//! Links, and why the parts that they join form no tree.
ghost use Rattle.std.specs.Prelude.{◌≡◌};
ghost use Rattle.campl_plug.specs.declared.plug.PlugFault.TheVariants.{OutOfMemory};

use std::alloc::{AllocError, AllocFailed};
use std::convert::From;

/// A link joins two parts, by their numbers from 1.
#[derive(Clone, Copy, Debug, PartialEq, Eq)]
pub struct Link {
    pub a: u32,
    pub b: u32,
}

/// Why the parts have no breadth-first order.
#[derive(Clone, Copy, Debug, PartialEq, Eq)]
pub enum PlugFault {
    /// The first link, from 0, whose two parts are joined by links before it or are the same part.
    Cycle { link: u32 },
    /// No link closes a cycle, and this is the least part that isn't reached from part 1.
    Apart { part: u32 },
    OutOfMemory,
}

impl<T: Drop> From<AllocFailed<T>> for PlugFault {
    ghost from_gives = { λ _ e. e ≡ OutOfMemory };

    fn from(_error: AllocFailed<T>) -> PlugFault {
        PlugFault::OutOfMemory
    }
}

impl From<AllocError> for PlugFault {
    ghost from_gives = { λ _ e. e ≡ OutOfMemory };

    fn from(_error: AllocError) -> PlugFault {
        PlugFault::OutOfMemory
    }
}
