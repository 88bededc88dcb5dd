//! The laws of configurations by number over the source: from the start of an accepted source, what is done by number is what
//! the source's processes and services do.
//!
//! `src/laws.rt` is the page to read; `specs/Sources` says when parts by number stand for a configuration of the source.
#![tactic(auto)]

mod laws;

pub use laws::{law_parts_begin, law_parts_rest, law_parts_run, law_parts_step};
