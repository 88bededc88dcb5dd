//! A block that is judged, within its code.
use campl_instructions::{Instr, RawCode};

/// A block that is judged, within its code.
#[derive(Clone, Copy)]
pub(crate) struct Judged<'c> {
    pub code: &'c RawCode,
    /// For each decision whether the rows that it names are there, with as many places as they have variables.
    pub named: &'c [bool],
    pub in_process: bool,
    pub block: &'c [Instr],
}
