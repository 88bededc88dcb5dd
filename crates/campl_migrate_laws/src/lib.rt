//! What migration keeps, as contracts of functions that do nothing.
//!
//! A migrated script says what the script said ([`law_says_the_same`]), and migrated again it stays as it is
//! ([`law_stays_as_it_is`]). `specs/Kept` says when two readings say the same.
#![tactic(auto)]

mod laws;

pub use laws::{law_says_the_same, law_stays_as_it_is};
