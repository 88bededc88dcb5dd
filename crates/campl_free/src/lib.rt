//! What stands free in a process, and where its channels race.
//!
//! At a `fork` each other channel that is held goes to the first row where it is free there. [`free_names`] finds those
//! names in one walk, so that a look-up tells for each channel. [`has_race`] says whether a program has a `race`
//! anywhere.
//!
//! ```text
//! put 1 on x
//! split y into a, b
//! a |=| b              the free names are x and y
//! ```
#![tactic(auto)]

mod bodies;
mod names;
mod racing;
mod walking;

pub use racing::has_race;
pub use walking::free_names;
