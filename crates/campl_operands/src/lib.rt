//! A frame's values: its variables and its operands, and what instructions do with them.
//!
//! - [`Variables`] are seen as a list, by their numbers. A row of a decision sets some of them at once.
//! - [`Operands`] are seen with the top first. [`Operands::make`] does an instruction that makes a value: it takes its operands
//!   from the top and puts the value there, or tells why it doesn't ([`Effect`]).
//!
//! ```text
//! Int(2)                        2
//! Int(3)                        3 2
//! Op(Calculate(Subtract))       -1
//! Cons                          Faulty: there is one operand alone
//! ```
#![tactic(auto)]

mod copying;
mod effect;
mod making;
mod operands;
mod operations;
mod variables;

pub use copying::copies;
pub use effect::{Effect, RowEffect};
pub use operands::Operands;
pub use operations::{calculated, holds};
pub use variables::Variables;
