//! Values that programs compute with: integers, characters, truths, lists, pairs and constructors.
//!
//! A value shares its parts, so that a copy costs the same for every value, and it carries its
//! depth, which is at most [`MAX_DEPTH`]. Letters of a text may stand in one shared row, with a value behind
//! them; a [`Part`] is what `look` lends, which may be a letter or the rest of a row.
//! Contracts see a value as a plain tree (`specs/Tree.antt`), whichever way it stands in memory;
//! what would be deeper is answered by [`Made::TooDeep`] and never built. Beside values and their parts
//! (`value`) there are lists (`list`), texts (`text`), the order of values (`compare`) and messages (`message`).
//!
//! ```text
//! let list = match Value::text(alloc, "ab")? {
//!     Made::Is(list) => list,
//!     Made::TooDeep => return Ok(None),
//! };
//! let same = list.copy()?; // of depth 3, as is `list`
//! ```
#![tactic(auto)]

mod compare;
mod list;
pub mod message;
mod shown;
mod text;
pub mod value;

pub use message::Message;
pub use shown::push_shown;
pub use value::{Look, MAX_DEPTH, Made, Part, Value};
