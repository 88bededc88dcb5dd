//! Evaluates code: a machine that is given its calls little by little.
//!
//! - A [`Frame`] has a place in a block, variables and operands. [`Machine::step`] does the next instruction of the frame in hand:
//!   a call puts a frame on it, or takes its place where it would only return.
//!   Between steps a frame goes on in its block as far as integers lead, several instructions at once (`leaps`), and a match at the
//!   front of a function that changes no variable is passed with its loads (`passing`).
//! - An [`Eval`] starts at a place of a block. [`Eval::run`] goes on until a process's instruction comes, something breaks, or
//!   before a call when all calls that it was given are spent; then it goes on with those that it is given next. A copy goes on
//!   as the original does. It shares all callers but the topmost, so that it takes no more time where many wait.
//!
//! ```text
//! let mut eval = Eval::start(alloc, block, place, variables);
//! eval.run(alloc, &program, 100)?      // More: 100 calls aren't enough
//! eval.run(alloc, &program, 100)?      // Done: the values, and 142 calls were spent
//! ```
#![tactic(auto)]

mod calls;
mod chunk;
mod eval;
mod laws;
mod leaps;
mod machine;
mod matching;
mod passing;
mod spare;
mod stack;

pub use eval::{Eval, Turn};
pub use laws::law_turn;
pub use machine::{Flow, Frame, Machine};
pub use spare::Spare;
pub use stack::Stack;
