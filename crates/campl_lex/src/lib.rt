//! From the text of a source to its tokens, and from tokens to tokens with the brackets that layout puts between them.
//!
//! `lex` takes the longest token that begins at each place, or answers the text's first fault with its place. `layout` puts `{`, `;`
//! and `}` by the columns at which blocks and lines begin. Tokens are slices of the text: their spans count bytes, their places
//! lines and columns.
//!
//!     let text = Text::of(alloc, "proc run :: | => where\n    | => -> halt")?;
//!     let tokens = lex(alloc, &text)?;
//!     let laid = layout(alloc, &text, &tokens, end_of(&text))?;
#![tactic(auto)]

mod blocks;
mod fault;
mod front;
mod kinds;
mod letters;
mod lexer;
mod limits;
mod literal;
mod piece;
mod spot;
mod stack;
mod token;
mod unescape;

pub use blocks::layout;
pub use fault::LexFault;
pub use front::Front;
pub use lexer::{end_of, lex, one_answer};
pub use limits::{NAME_MAX, NUMBER_MAX, TEXT_MAX};
pub use token::{Token, TokenKind};
pub use unescape::escape;
