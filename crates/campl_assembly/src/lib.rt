//! The listing of code: what `campl code FILE` prints.
//!
//! [`listing`] has a line for each block, one for each of its instructions, and one for each decision:
//!
//! ```text
//! function double 1
//!   0 load 0
//!   1 int 2
//!   2 op mul
//!   3 return
//! decision 0 rows 2
//! ```
#![tactic(auto)]

mod instructions;
mod lines;
mod operands;
mod page;
mod words;

pub use lines::listing;
