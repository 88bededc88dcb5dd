//! Refusals of the phase that judges names.
ghost use Rattle.std.specs.Prelude.{◌≡◌};
ghost use Rattle.campl_types.specs.declared.fault.NameFault.TheVariants.{OutOfMemory};

use campl_tree::{Name, Place};
use std::alloc::{AllocError, AllocFailed};
use std::convert::From;

/// Why a program isn't well declared.
#[derive(Debug, Drop)]
pub enum NameFault {
    /// A name is declared a second time in its space, or a parameter stands a second time in one
    /// heading.
    Twice {
        place: Place,
        name: Name,
    },
    /// A type, type variable, constructor, function, process or variable isn't known.
    Unknown {
        place: Place,
        name: Name,
    },
    /// The name is known in its space and of another kind than its place wants.
    WrongKind {
        place: Place,
        name: Name,
    },
    /// A named type has another number of arguments than its declaration has parameters.
    TypeArguments {
        place: Place,
        found: usize,
        wanted: usize,
    },
    /// There is no process `run`.
    NoRun {
        place: Place,
    },
    /// The heading of `run` asks for more than services. The place is that of the name `run`.
    RunNotService {
        place: Place,
    },
    OutOfMemory,
}

impl<T: Drop> From<AllocFailed<T>> for NameFault {
    ghost from_gives = { λ _ e. e ≡ OutOfMemory };

    fn from(_error: AllocFailed<T>) -> NameFault {
        NameFault::OutOfMemory
    }
}

impl From<AllocError> for NameFault {
    ghost from_gives = { λ _ e. e ≡ OutOfMemory };

    fn from(_error: AllocError) -> NameFault {
        NameFault::OutOfMemory
    }
}
