//! How long scripts and their lines may be.

/// How many lines a script of version 1 has at most.
pub const LINES_MAX: u32 = 100_000;

/// How many characters a line of version 1 has at most.
pub const LINE_MAX: usize = 1_024;

/// How many lines a script of version 2 has at most, with its first line.
pub const VERSION_2_LINES_MAX: u32 = 100_001;

/// How many characters a line of version 2 has at most.
pub const VERSION_2_LINE_MAX: usize = 8_192;

/// How many characters the text of a line has at most, after its escapes.
pub const TEXT_MAX: usize = 1_024;

/// How many characters the name of a channel has at most.
pub const NAME_MAX: usize = 64;

/// How many bytes a script has at most.
pub const SCRIPT_BYTES_MAX: u64 = 16_777_216;
