//! Rows of patterns compiled to a decision.
//!
//! [`compile_match`] makes the decision of rows: those of a function, or those of a `case`. A row is a list of tests, each
//! that the value at a place has a head, and the decision asks the first test of the first row. Where it holds, rows that
//! want another head there go, and where it doesn't, those that want this one. So rows whose patterns differ at the same
//! places have a decision about as large as they are:
//!
//! ```text
//! 1, x -> ..   Test([0], Int(1)) yes: row 0
//! 2, _ -> ..                     no: Test([0], Int(2)) yes: row 1
//! _, y -> ..                                           no: row 2
//! ```
//!
//! Where a row asks at places of which others say nothing, those others stand behind both answers, so that in the worst case
//! the decision, and the time that it takes, is exponential in the number of rows. For n rows of one literal each the time is
//! quadratic in n. What is still to be made stands on the heap, so that the stack grows with the nesting of a pattern alone.
//!
//! In reading order: `asked`, a test; `flat`, a row as its tests; `flatten`, the tests of patterns; `open`, rows as far as their
//! tests are open; `grown`, the tree; `task`, what is still to be made of it; `compile`.
#![tactic(auto)]

mod asked;
mod compile;
mod flat;
mod flatten;
mod grown;
mod open;
mod task;

pub use compile::compile_match;
