//! Configurations of the code's machine by number: which parts there are, what a step changes, and when parts stand for a
//! configuration.
//!
//! - `specs/Parts` has the parts: processes and services, the ends of channels with their peers, and what lies at them.
//! - `specs/Wants` says what a process or service does next, read off its part.
//! - `specs/Steps` says what a step changes, and the parts after it.
//! - `specs/Stands` says when parts stand for a configuration of the machine, under the machine's names of the numbers.
//! - `specs/Runs` has whole runs by number.
//! - `specs/Starts` has the parts at the start.
//! - `specs/Local` says which parts a step reads and changes.
//!
//! `src/laws.rt` has the laws: parts have the steps of the configuration that they stand for.
#![tactic(auto)]

mod laws;

pub use laws::{law_frame, law_local, law_runs, law_start, law_step, law_still, law_waits};
