//! The instructions of expressions, and the blocks of functions.
//!
//! [`emit`] appends the code of an expression to what an [`Emitter`] holds, and [`function_blocks`] gives the blocks of a world's
//! functions: exactly those of the definition (`campl_code`). A place that isn't known yet is written when it is, and a branch
//! in tail position returns by itself.
//!
//! ```text
//! if b then 1 else 2      load 0; unless 4; int 1; jump 5; int 2
//! ```
//!
//! Loops go over lists and rows, so that the stack grows with the nesting of an expression alone, and the time is linear in the
//! source.
//!
//! In reading order: `source`, what names stand for; `scope`, the numbers of variables; `emitter`, the code so far; `binding`,
//! the variables of patterns; `emission`, expressions, and `emission/rows`, their rows; `functions`.
#![tactic(auto)]

mod binding;
mod emission;
mod emitter;
mod functions;
mod scope;
mod source;

pub use binding::{bind_pattern, bind_patterns};
pub use emission::{emit, emit_all};
pub use emitter::Emitter;
pub use functions::function_blocks;
pub use scope::Scope;
pub use source::Source;
