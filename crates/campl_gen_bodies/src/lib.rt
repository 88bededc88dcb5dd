//! The code of processes' bodies, exactly that of the definition (`campl_code_bodies`).
//!
//! [`emit_body`] appends the code of a body to what a [`Making`] holds, with its decisions. A command is an instruction behind the
//! values that it needs, and a body in a row stands behind those before it:
//!
//! ```text
//! put 1 on x              int 1; put 0
//! fork x as               fork 0 1 2 4
//!   y -> halt y           halt 1
//!   z -> close z; ..      close 2; ..
//! ```
//!
//! Loops go over commands, rows and parts, so that the stack grows with the nesting of a body alone.
//!
//! In reading order: `known`, what names stand for; `making`, what is made so far; `actions`, commands behind which a body goes on;
//! `ends`, last commands without bodies; `halves`, what the bodies of a `fork` hold; `offers`, the places of `hcase`; `peels`, how a
//! plug is peeled; `emission`, bodies, with their rows in `emission/rows` and a plug's parts in `emission/parts`.
#![tactic(auto)]

mod actions;
mod emission;
mod ends;
mod halves;
mod known;
mod making;
mod offers;
mod peels;

pub use emission::emit_body;
pub use known::Known;
pub use making::Making;
