//! What the value of an expression is, and that what is typed is never wrong and has a value of its type.
//!
//! `specs/Evaluation` has the value under variables with a budget of calls; `Typed` says when an evaluation keeps to types.
#![tactic(auto)]

mod laws;

pub use laws::{law_budget, law_soundness};
