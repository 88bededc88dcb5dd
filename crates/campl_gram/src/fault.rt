//! Why tokens are no program.

/// What is wrong at the first token that is refused.
#[derive(Clone, Copy, Debug, PartialEq, Eq)]
pub enum Fault {
    /// No program begins with the tokens up to and with this one.
    Unexpected,
    /// The token is nested deeper than the limit.
    TooDeep,
}
