//! Sequential typing judged: the first fault of functions and of expressions.
//!
//! [`check_seq`] judges the functions of a program whose names are judged already (`campl_names::declare`), and
//! [`check_functions`] those among declarations, such as a world's. [`check_expr`] and [`find_expr`] judge an
//! expression under variables, with and without a type that is wanted; [`check_match`] judges the patterns of rows, and
//! [`fit_pattern`] tells what one binds. [`SeqFault`] is the first fault.
//!
//! In reading order: `fault`; `meeting`, types compared with what is wanted; `fitting` and `rows`, patterns;
//! `callee`, what is called and what its type parameters stand for; `judging`, expressions; `functions`; `laws`.
#![tactic(auto)]

mod callee;
mod fault;
mod fitting;
mod functions;
mod judging;
mod laws;
mod meeting;
mod rows;

pub use fault::SeqFault;
pub use functions::{check_expr, check_functions, check_seq, find_expr, fit_pattern};
pub use laws::{
    law_functions_are_typed, law_judging_is_complete, law_judging_is_sound,
    law_types_are_found_once, law_values_match_a_row,
};
pub use rows::{Row, check_match};
