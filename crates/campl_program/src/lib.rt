//! Code that can be run: its jumps lead onward, and it is known how many variables the frame of each function and process has.
//!
//! [`Program::new`] finds the sizes of the frames, and refuses code with a jump that leads back: of such code an evaluation could
//! go on for ever without a call. [`Program::assemble`] takes code of which that is known, as of the code of a source.
//!
//! ```text
//! 0 load 4              the frame has 5 variables
//! 1 bool True
//! 2 unless 4
//! 3 jump 1              leads back
//! ```
#![tactic(auto)]

mod forward;
mod program;
mod sizes;

pub use program::{Program, ProgramFault};
