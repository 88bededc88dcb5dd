//! Why a command ends before it does what is ordered.
ghost use Rattle.std.specs.Prelude.{◌≡◌};
ghost use Rattle.campl_cli.specs.Refusals.{status_of};
ghost use Rattle.campl_cli.specs.Source.{refusal_of_text};

use crate::fault::{Detail, FaultKind, SourceFault};
use crate::script::ScriptRefusal;
use crate::source::TreeFault;
use thiserror::Error;

/// The most bytes that a source has.
pub const SOURCE_LIMIT: u64 = 1_048_576;

/// Why a command ended before it did what was ordered.
#[derive(Debug, Error)]
pub enum Refusal {
    /// The words are no command.
    #[error("bad command line")]
    BadCommandLine,
    /// The source is longer than `SOURCE_LIMIT`.
    #[error("source is longer than {limit} bytes", limit = SOURCE_LIMIT)]
    TooLong,
    /// The source isn't UTF-8; its longest front that is has `at` bytes.
    #[error("source isn't UTF-8 at byte {at}")]
    NotUtf8 { at: u64 },
    /// The source has a fault, of which this is the first: of its tokens, layout or grammar, its names, its functions or its processes.
    #[error("{0}")]
    Source(SourceFault),
    /// The script is refused.
    #[error("script refused: {0:?}")]
    Script(ScriptRefusal),
    /// The source or the script can't be read.
    #[error("read fault")]
    ReadFault,
    /// Memory ran out.
    #[error("out of memory")]
    OutOfMemory,
}

impl Drop for Refusal {
    fn drop(self) {
        match self {
            Refusal::Source(fault) => drop(fault),
            Refusal::BadCommandLine
            | Refusal::TooLong
            | Refusal::NotUtf8 { at: _ }
            | Refusal::Script(_)
            | Refusal::ReadFault
            | Refusal::OutOfMemory => (),
        }
    }
}

impl Refusal {
    /// The refusal of a text that has no tree.
    pub fn of_text(fault: TreeFault) -> Refusal
        ensures { result ≡ refusal_of_text fault }
    {
        match fault {
            TreeFault::Wrong { kind, place } => Refusal::Source(SourceFault {
                kind: FaultKind::Text(kind),
                place,
                detail: Detail::Nothing,
            }),
            TreeFault::OutOfMemory => Refusal::OutOfMemory,
        }
    }

    /// The exit status that goes with it.
    pub fn status(&self) -> u8
        ensures { result ≡ status_of self.now }
    {
        match self {
            Refusal::BadCommandLine => 2,
            Refusal::TooLong | Refusal::NotUtf8 { .. } | Refusal::Source(_) => 3,
            Refusal::Script(_) => 4,
            Refusal::ReadFault => 5,
            Refusal::OutOfMemory => 7,
        }
    }
}
