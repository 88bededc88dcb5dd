//! What became of an instruction.

/// What became of the operands.
#[derive(Clone, Copy, Debug, PartialEq, Eq)]
pub enum Effect {
    /// They are as the instruction leaves them.
    Done,
    /// The value would be too deep.
    TooDeep,
    /// There are too few operands, or they are of wrong kinds.
    Faulty,
    OutOfMemory,
}

/// What became of a row's variables.
#[derive(Clone, Copy, Debug, PartialEq, Eq)]
pub enum RowEffect {
    /// All are set.
    Done,
    /// The value of one of them isn't there.
    Missing,
    OutOfMemory,
}
