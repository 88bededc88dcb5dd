//! The parts of configurations in memory: their processes and ends, and what a step reads and changes of them.
//!
//! - `part` has processes, `ends` the ends that they hold, and `inbox` the ends of channels with the messages at them.
//! - `going` and `wanting` find what a process or service does next: [`ProcPart::want`] reads its part alone and takes no memory.
//!   `races` and `rows` belong to it; `want` and `place` have the data for it.
//! - `plan` and `look` make ready on copies what a step needs, so that nothing that comes later can fail.
//! - `going` and `serving` then do to a process's part what the step does, `inbox` to an end; `people` and `wires` do the same at a
//!   place of the tables of processes and of ends, which `tables` reads.
//! - `entry` and `journal` tell what was done; most steps are told [`Brief`]ly.
#![tactic(auto)]

mod ends;
mod entry;
mod going;
mod inbox;
mod journal;
mod look;
mod part;
mod people;
mod place;
mod plan;
mod races;
mod rows;
mod serving;
mod standing;
mod tables;
mod want;
mod wanting;
mod wires;

pub use ends::Ends;
pub use entry::{Entry, Kind};
pub use inbox::EndPart;
pub use journal::{Brief, Journal};
pub use part::{Drawn, Life, ProcPart, Running};
pub use people::{bear, go_on, reach, reach_with, turn_into};
pub use place::{Begun, Place};
pub use plan::Planned;
pub use serving::suits;
pub use standing::Standing;
pub use tables::{front, owner, peer};
pub use want::{Deed, Look, Sent, Want};
pub use wanting::Ready;
pub use wires::{arrive, channel, join, make_room_for, take};
