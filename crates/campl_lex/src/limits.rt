//! The limits of tokens.

/// How many characters a name has at most.
pub const NAME_MAX: usize = 64;

/// How many characters a text has at most, escapes counted as what they stand for.
pub const TEXT_MAX: usize = 1024;

/// The greatest number.
pub const NUMBER_MAX: u64 = 9_223_372_036_854_775_807;
