//! What is declared: names judged, and looked up.
//!
//! [`declare`] judges the names of a program by the rules of `campl_types` and gives its [`World`], which
//! finds what is declared by a name. A world also reads off the channels of `run` (`services`), the polarity
//! table (`allowed`), and the type that remains after a constructor (`after`). [`partners`] says which two ends
//! fit together, and [`same_seq`] and [`same_chan`] which types are the same; a [`Filling`] is what type parameters
//! stand for, and a [`NameSet`] a set of names. A channel of type `Put(Int | TopBot)` gives
//!
//! ```text
//! on the output side: Act::Put, on the input side: Act::Get
//! ```
#![tactic(auto)]

mod after;
mod ends;
mod filling;
mod judge;
mod judge_bodies;
mod judge_decls;
mod judge_exprs;
mod judge_types;
mod lines;
mod name_set;
mod polarity;
mod prelude;
mod refusing;
mod run;
mod same;
mod table;
mod tables;
mod world;

pub use ends::partners;
pub use filling::{Filling, parts_at};
pub use judge::declare;
pub use name_set::NameSet;
pub use run::RunServices;
pub use same::{same_chan, same_seq};
pub use world::{ConstructorRef, LowerRef, TypeRef, World};
