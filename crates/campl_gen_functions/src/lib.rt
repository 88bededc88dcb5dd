//! The code of a source's functions: their blocks, and the decisions that these name.
//!
//! [`generate_functions`] gives both, exactly those of the definition (`campl_code`). Decisions stand in the order of the
//! `case`s: that of a function's rows, and then those in the rows' values from left to right, the outer before the inner.
#![tactic(auto)]

mod deciding;
mod functions;

pub use deciding::{decide, decide_all};
pub use functions::{generate_functions, put_match};
