//! The source that `campl generate N` makes: a pipeline of N stages, each of which adds one to ten numbers, and their sum.
//!
//! `specs/Source` gives the text line by line with N in its place, and [`generated_source`] makes exactly it.
//!
//! ```text
//! generated_source(alloc, 1)?; // .. a => b -> chain(1 | a => b) ..
//! ```
#![tactic(auto)]

mod source;

pub use source::generated_source;
