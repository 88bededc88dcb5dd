//! What one turn by number, the step of the first who has one, means for the source.
//!
//! - `specs/Turns` says who waits, whose turn it is, and how journals tell it.
//! - `specs/Meaning` says what a turn is for the source.
//! - `specs/Endings` says how a run by number ends.
//!
//! `src/laws.rt` is the page to read.
#![tactic(auto)]

mod laws;

pub use laws::{law_alone, law_begins, law_end, law_services, law_turn};
