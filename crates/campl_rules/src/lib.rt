//! The rules of code.
//!
//! [`first_fault`] finds the first instruction that breaks a rule: by itself (`operands`, `ways`), because of the values on the
//! stack (`stack`, `heights`), or because two ways to it have different heights (`agreement`). The height of the stack at a place
//! is found in rounds: place 0 and each child's place begin with 0, and an instruction hands on the height behind it.
//!
//! ```text
//! 0 bool True      0 values
//! 1 unless 3       1
//! 2 nil            0
//! 3 halt           0 from the jump, 1 from the `nil`: this one breaks a rule
//! ```
#![tactic(auto)]

mod agreement;
mod code;
mod handing;
mod heights;
mod judged;
mod operands;
mod rows;
mod rules;
mod stack;
mod taking;
mod ways;

pub use code::Code;
pub use rules::{CodeFault, first_fault};
