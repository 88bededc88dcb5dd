//! The run of one at a time, in memory.
//!
//! [`Solo`] has a configuration (`campl_steps`) and the tables that say who may step (`campl_order`), which it keeps from step to
//! step. Again and again the first, in the order of names, of those who have a step makes it, and a race takes its first branch that
//! is ready:
//!
//! ```text
//! let mut solo = Solo::start(alloc, &program, number, services)?;
//! let stop = solo.run(alloc, &program, &mut journal, budget)?;
//! ```
//!
//! In reading order: `solo`, the run; `turn`, one step of the first; `tables`, what a step changes in the tables.
#![tactic(auto)]

mod solo;
mod tables;
mod turn;

pub use solo::{Solo, Stop};
