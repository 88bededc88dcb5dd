//! What names mean, what types are the same, who may do what with a channel, and which programs are typed.
//!
//! The definitions of the language up to its typing stand in `specs/`, over the plain trees of
//! `campl_tree`, in the order of the language's rules: names and types, the prelude, what is declared,
//! polarity, patterns, expressions, processes. No code that judges stands here: names are judged in
//! `campl_names`, and typing in the crates above it. What is here of Rust is what the definitions name:
//! [`NameFault`], why a program isn't well declared, and [`Act`], what a channel's type lets a process do.
//! `laws` says of the definitions what doesn't meet the eye, in functions with nothing to do.
#![tactic(auto)]

mod act;
mod fault;
mod laws;

pub use act::Act;
pub use fault::NameFault;
pub use laws::{
    law_bodies_name_what_they_hold, law_declarations_are_known, law_forks_divide_by_names,
    law_forks_divide_in_one_way, law_some_row_matches, law_the_table_sees_no_places,
};
