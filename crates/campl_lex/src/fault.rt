//! Why a source has no tokens or no layout.
ghost use Rattle.std.specs.Prelude.{◌≡◌};
ghost use Rattle.campl_lex.specs.declared.fault.LexFault.TheVariants.{OutOfMemory};

use campl_tree::Place;
use std::alloc::{AllocError, AllocFailed};
use std::convert::From;

/// The first fault of a source's tokens, or of its layout (`BadColumn`), with its place; or want of memory.
#[derive(Clone, Copy, Debug, PartialEq, Eq)]
pub enum LexFault {
    /// A character that begins no token.
    BadCharacter { place: Place },
    /// A literal that doesn't end on its line, or a character literal that hasn't exactly one character. At its quote.
    OpenString { place: Place },
    /// A backslash that begins no escape.
    BadEscape { place: Place },
    /// A number above 9,223,372,036,854,775,807. At its first digit.
    NumberTooLarge { place: Place },
    /// A name of more than 64 characters. At its first.
    NameTooLong { place: Place },
    /// A Tab outside a comment.
    Tab { place: Place },
    /// A token, or the end, that stands in no column that the blocks round it allow.
    BadColumn { place: Place },
    /// A text of more than 1,024 characters. At its opening quote.
    TextTooLong { place: Place },
    /// No memory was left.
    OutOfMemory,
}

impl<T: Drop> From<AllocFailed<T>> for LexFault {
    ghost from_gives = { λ _ e. e ≡ OutOfMemory };

    fn from(_error: AllocFailed<T>) -> LexFault {
        LexFault::OutOfMemory
    }
}

impl From<AllocError> for LexFault {
    ghost from_gives = { λ _ e. e ≡ OutOfMemory };

    fn from(_error: AllocError) -> LexFault {
        LexFault::OutOfMemory
    }
}
