//! The rows of `hcase`, `race`, `case` and `fork`, judged before their bodies.
//!
//! `campl_linear` judges each of these commands in two steps: what stands in the way before the bodies, and then each body
//! with what it holds. Here is the first step of each, and what a body holds:
//!
//! ```text
//! hcase x of            offers_stand: x offers constructors, and each has one row
//!     K -> body         row_held: x goes on behind K
//! race                  race_stands: 2 to 16 rows, each on a held channel at the receipt with which its body begins
//!     x -> body
//! case e of             case_stands: the type of e, which the rows cover
//!     p -> body         row_variables: what p binds
//! fork x as             fork_stands: both halves of what is held, told by the names that are free in the first body
//!     y -> left
//!     z -> right
//! ```
//!
//! In reading order: `hcase`; `receipt` and `race`; `case`; `fork`.
#![tactic(auto)]

mod case;
mod fork;
mod hcase;
mod race;
mod receipt;

pub use case::{case_stands, row_variables};
pub use fork::fork_stands;
pub use hcase::{offers_stand, row_held};
pub use race::race_stands;
