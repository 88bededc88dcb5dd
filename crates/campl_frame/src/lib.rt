//! The frame of a step: what a step of one process or service asks of its own ends and messages, so that a lawful configuration
//! stays lawful, whatever stands elsewhere.
//!
//! `specs/Frame` says it. The crates of kept steps show that each command's step has it.
#![tactic(auto)]

mod laws;

pub use laws::law_frames;
