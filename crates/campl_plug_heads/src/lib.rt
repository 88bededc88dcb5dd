//! A plug before its bodies, judged by code: the first fault, exactly where the definition has it.
//!
//! [`plug_stands`] judges how many parts there are, the links, the headers, and that links and parts form a tree.
//! Where it does, [`share_of`] gives what a part holds: the held channels of its header, and its ends of links.
//!
//! ```text
//! plug_stands(alloc, at, links, parts, &held)?;
//! for part in parts {
//!     let share = share_of(alloc, links, &held, part)?;
//! }
//! ```
//!
//! Sets of names stand in `sets`, names with numbers of parts in `numbers`. The steps of a plug follow: `links` has
//! those on links, `heads` those on headers, `uses` that each held channel is in a part, `tree` the tree. `plug` takes
//! them in turn, and `share` divides.
#![tactic(auto)]

mod heads;
mod links;
mod numbers;
mod plug;
mod sets;
mod share;
mod tree;
mod uses;

pub use plug::plug_stands;
pub use share::share_of;
