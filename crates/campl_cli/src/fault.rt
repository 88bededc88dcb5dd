//! Faults of a source.
ghost use Rattle.std.specs.Prelude.{◌≡◌};
ghost use Rattle.campl_cli.specs.Faults.{code_of, word_of_side};

use crate::kind::{FunctionKind, NameKind, ProcessKind, TextKind};
use campl_shown::Shown;
use campl_tree::{Name, Place, Side};
use thiserror::Error;

/// The first fault of a source, at its place.
#[derive(Debug, Drop, Error)]
#[error("{code} at {line}:{column}{detail}", code = .kind.code(), line = .place.line, column = .place.column, detail = .detail)]
pub struct SourceFault {
    pub kind: FaultKind,
    pub place: Place,
    pub detail: Detail,
}

/// What a fault tells beside its place.
#[derive(Debug, Error)]
pub enum Detail {
    #[error("")]
    Nothing,
    /// The name that is at fault.
    #[error(": name {0}")]
    Named(Name),
    /// A number that was found where another is wanted.
    #[error(": found {found}, wanted {wanted}")]
    Counted { found: usize, wanted: usize },
    /// A type that is found where another is wanted.
    #[error(": found {0}, wanted {1}")]
    Differing(Shown, Shown),
    /// The patterns that no row covers.
    #[error(": missing {0}")]
    Missing(Shown),
    /// The channel that is at fault.
    #[error(": channel {0}")]
    Channel(Name),
    /// The channel that is at fault, with its type and the side on which it is held.
    #[error(": channel {0} has {1} on the {side} side", side = side_word(.2))]
    HeldSo(Name, Shown, Side),
    /// The link that is at fault.
    #[error(": link {0}")]
    Link(Name),
    /// The number of the part that is at fault, from 1.
    #[error(": part {0}")]
    Part(usize),
    /// The constructor that is at fault.
    #[error(": constructor {0}")]
    Constructor(Name),
}

impl Drop for Detail {
    fn drop(self) {
        match self {
            Detail::Nothing => {}
            Detail::Named(name)
            | Detail::Channel(name)
            | Detail::Link(name)
            | Detail::Constructor(name) => drop(name),
            Detail::Counted {
                found: _,
                wanted: _,
            } => {}
            Detail::Differing(found, wanted) => {
                drop(found);
                drop(wanted);
            }
            Detail::Missing(patterns) => drop(patterns),
            Detail::HeldSo(channel, held, _) => {
                drop(channel);
                drop(held);
            }
            Detail::Part(_) => {}
        }
    }
}

/// A side, as refusals write it.
pub(crate) fn side_word(side: &Side) -> &'static str
    ensures { result.now ≡ word_of_side side.now }
{
    match side {
        Side::Input => "input",
        Side::Output => "output",
    }
}

/// What is wrong of a source, by the phase that finds it. `docs/LANGUAGE.md` lists the numbers and the places.
#[derive(Clone, Copy, Debug, PartialEq, Eq)]
pub enum FaultKind {
    /// Of its tokens, their layout or the grammar.
    Text(TextKind),
    /// Of its names.
    Name(NameKind),
    /// Of its functions, or of an expression or a pattern in a process.
    Function(FunctionKind),
    /// Of its processes.
    Process(ProcessKind),
}

impl FaultKind {
    /// The number and the name of the fault, as its line has them.
    pub fn code(self) -> &'static str
        ensures { result.now ≡ code_of self }
    {
        match self {
            FaultKind::Text(kind) => kind.code(),
            FaultKind::Name(kind) => kind.code(),
            FaultKind::Function(kind) => kind.code(),
            FaultKind::Process(kind) => kind.code(),
        }
    }
}
