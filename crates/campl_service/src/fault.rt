//! Why a script is refused, and why it isn't migrated.
use std::alloc::AllocError;

/// The first fault of a script. Lines count from 1.
#[derive(Clone, Copy, Debug, PartialEq, Eq)]
pub enum ScriptFault {
    /// The line has no colon.
    NoColon { line: u32 },
    /// What stands before the line's first colon is no name of the heading.
    UnknownChannel { line: u32 },
    /// The line, or its text after escapes, has too many characters.
    LineTooLong { line: u32 },
    /// The line comes after the last that there may be.
    TooManyLines { line: u32 },
    /// A backslash begins no escape.
    BadEscape { line: u32 },
    /// Memory ran out.
    OutOfMemory,
}

impl From<AllocError> for ScriptFault {
    ghost use Rattle.std.specs.Prelude.{◌≡◌};
    ghost use Rattle.campl_service.specs.declared.fault.ScriptFault.TheVariants.{OutOfMemory};

    ghost from_gives = { λ _ fault. fault ≡ OutOfMemory };

    fn from(_error: AllocError) -> ScriptFault {
        ScriptFault::OutOfMemory
    }
}

/// Why a script isn't migrated.
#[derive(Clone, Copy, Debug, PartialEq, Eq)]
pub enum MigrateFault {
    /// The first fault of the script itself, which is never want of memory.
    Script(ScriptFault),
    /// The migrated script has more than `SCRIPT_BYTES_MAX` bytes.
    TooLong,
    /// Memory ran out.
    OutOfMemory,
}

impl From<AllocError> for MigrateFault {
    ghost use Rattle.std.specs.Prelude.{◌≡◌};
    ghost use Rattle.campl_service.specs.declared.fault.MigrateFault.TheVariants.{OutOfMemory};

    ghost from_gives = { λ _ fault. fault ≡ OutOfMemory };

    fn from(_error: AllocError) -> MigrateFault {
        MigrateFault::OutOfMemory
    }
}
