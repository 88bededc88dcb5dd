//! Terminals: tokens as the grammar sees them, each with its text. What a terminal's text says: its name, its number, its
//! character, the characters of a text behind its escapes.
//!
//!     let terminals = terminals_of(alloc, &text, &laid)?;
#![tactic(auto)]

mod digits;
mod laws;
mod literal;
mod terminal;
mod tokens;

pub use laws::{braces_are_balanced, layout_is_cut, number_is_spelled, text_is_spelled};
pub use terminal::Terminal;
pub use tokens::terminals_of;
