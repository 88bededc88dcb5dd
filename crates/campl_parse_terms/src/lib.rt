//! The terms of a source, read by the grammar (`campl_grammar/specs/Rules.antt`): names, types, patterns and expressions.
//!
//! Each name of the grammar has a function. It takes the nesting at which it stands, and ensures that it answers what the
//! grammar's reading function answers of the words, and leaves the same words (`specs/Reads.antt`).
//!
//! - [`cursor`]: the words that are left
//! - [`error`]: why reading stopped
//! - `step`: the macros [`read!`] and [`made!`], for steps that may fail
//! - [`lines`]: lines with `;` between them
//! - [`names`]: lists of names, and what a process names for a value
//! - [`types`]: types of values and of channels
//! - [`pattern`]: patterns
//! - [`expr`]: expressions
//!
//! Declarations and what processes do are read in the same way by `campl_parse`.
#![tactic(auto)]

pub mod cursor;
pub mod error;
pub mod expr;
pub mod lines;
pub mod names;
pub mod pattern;
mod step;
pub mod types;
