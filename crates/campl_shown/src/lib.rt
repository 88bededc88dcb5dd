//! What refusals show: types as they are written.
//!
//! A [`Shown`] is a text, which contracts see as its characters. [`type_text`] and [`chan_text`] write types
//! in one form whatever the source's spaces and parentheses are, and [`type_text_at`] a type whose parameters
//! stand for others:
//!
//! ```text
//! Maybe([Char])    (Int, a)    Put(Int | TopBot) (*) (X (+) Y)    (Int, _)
//! ```
#![tactic(auto)]

mod channels;
mod shown;
mod types;
mod variables;

pub use channels::chan_text;
pub use shown::Shown;
pub use types::{type_text, type_text_at};
