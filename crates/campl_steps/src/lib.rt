//! Configurations in memory, and their steps.
//!
//! - `config` has the configuration: a table of processes and services, and one of the ends of channels.
//! - `made` tells what a step made.
//! - `step` makes one step: `ready` finds on copies what it comes to (`plan` has the data), `apply` then does it to the tables, of
//!   which `tables` and `attend` have the single calls, and `entries` tells it.
//! - `watch` says on which ends a process or service waits, and how many branches it has.
//! - `work` makes several calls of a process in one entry.
//! - `looks` has look-ups, and `outlook` tells what a process or service does next; for that, `suiting` tests messages.
//! - `start` makes the configuration at the start.
#![tactic(auto)]

mod apply;
mod attend;
mod config;
mod entries;
mod in_place;
mod looks;
mod made;
mod numbers;
mod outlook;
mod plan;
mod ready;
mod start;
mod step;
mod suiting;
mod tables;
mod watch;
mod work;

pub use config::Config;
pub use in_place::Tried;
pub use looks::Birth;
pub use made::{Changed, Made};
pub use outlook::Next;
pub use watch::Waits;
