//! Why words are no program.

use campl_gram::Fault;

/// What is wrong of the word at which reading stopped, or want of memory.
#[derive(Clone, Copy, Debug, PartialEq, Eq)]
pub enum ParseError {
    OutOfMemory,
    Refused(Fault),
}

impl From<std::alloc::AllocError> for ParseError {
    ghost use Rattle.std.specs.Prelude.{◌≡◌};
    ghost use Rattle.campl_parse_terms.specs.declared.error.ParseError.TheVariants.{OutOfMemory};

    ghost from_gives = { λ _ e. e ≡ OutOfMemory };

    fn from(_error: std::alloc::AllocError) -> ParseError {
        ParseError::OutOfMemory
    }
}

impl<T: Drop> From<std::alloc::AllocFailed<T>> for ParseError {
    ghost use Rattle.std.specs.Prelude.{◌≡◌};
    ghost use Rattle.campl_parse_terms.specs.declared.error.ParseError.TheVariants.{OutOfMemory};

    ghost from_gives = { λ _ e. e ≡ OutOfMemory };

    fn from(_error: std::alloc::AllocFailed<T>) -> ParseError {
        ParseError::OutOfMemory
    }
}
