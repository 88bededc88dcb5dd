//! Who steps next in the run of one at a time: the first, in the order of names, of those who may step.
//!
//! - [`Order`] knows the births of all processes and compares two of them by going up to where their lines of descent part.
//! - [`Board`] has a flag for each process or service, and a tree of matches over the flags: its top is the first that is flagged.
//! - [`Schedule`] has both, and for each end of a channel who waits there: whoever has no step rests until one of its ends is woken.
#![tactic(auto)]

mod board;
mod order;
mod schedule;

pub use board::Board;
pub use order::{Order, Rank, SERVICE_DEPTH};
pub use schedule::Schedule;
