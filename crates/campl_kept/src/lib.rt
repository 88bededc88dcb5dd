//! What a process keeps of the evaluation of its command: its values, that it breaks, or where it stands before a call.
//!
//! [`Kept::begin`] starts at a command, and goes on to the first call, for which none is given. A command whose expressions are
//! variables and literals, if it has any, has its values without a machine. [`Kept::advance`] gives calls to what stands before
//! one. What is kept tells the process's next command without another look at its expressions.
//!
//! ```text
//! let mut kept = Kept::begin(alloc, &program, block, at, variables)?;     // AtCall
//! kept.advance(alloc, &program, 1)?;                                     // Values: those of the command, and its place
//! ```
#![tactic(auto)]

mod command;
mod kept;

pub use kept::{Kept, Reached, go_straight};
