//! Code as the program holds it: instructions, blocks, and decisions that find a row.
//!
//! - [`Instr`] is an instruction, with its operands in the order of the listing. A number is that of a variable, a channel, a
//!   block or a decision, and a place is that of an instruction in its block; all begin at 0.
//! - [`Block`] is a function or a process, and [`RawCode`] all blocks and decisions of a source. Nothing says yet that they keep
//!   the rules of code.
//! - [`Decision`] finds the first row that values match. Its tree stands in one row of [`Node`]s, so that a long one wants no
//!   stack: `1 -> a` before `x -> b` is
//!
//! ```text
//! Test([0], Int(1), 0, 1)   yes: the next node; no: the one behind that
//! Row(0, [])
//! Row(1, [[0]])             x is the value at place 0
//! ```
//!
//! `specs/View` leads from these to the plain data that the definitions of `campl_code` speak of.
#![tactic(auto)]

mod block;
mod choose;
mod decision;
mod instr;

pub use block::{Block, RawCode};
pub use choose::{Chosen, value_at};
pub use decision::{Decision, Head, Node, Spot};
pub use instr::{Instr, Operation};
