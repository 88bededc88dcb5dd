//! Type parameters bound by matching declared types against types that are known.
//!
//! A call of `fun first :: [a] -> Maybe(a)` with a list of numbers binds `a` to Int: [`matched`] matches the declared `[a]`
//! against `[Int]` and puts what `a` stands for into a `Filling`. [`is_known`] says whether each parameter of a type stands for
//! something already. [`item_of`], [`parts_of`] and [`named_parts`] take a type apart.
//!
//! ```text
//! matched(alloc, &mut filling, &list_of_a, &list_of_int)?; // true, and a is Int
//! matched(alloc, &mut filling, &a, &char)?; // false, since a is Int
//! ```
#![tactic(auto)]

mod matching;
mod parts;

pub use matching::{is_known, matched};
pub use parts::{item_of, named_parts, parts_of};
