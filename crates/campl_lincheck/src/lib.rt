//! Processes judged: their first fault.
//!
//! [`check`] judges the processes of a program whose names and functions are judged already (`campl_names::declare`,
//! `campl_seqcheck::check_seq`), and [`check_processes`] those among declarations, such as a world's. [`LinFault`] is the first
//! fault, in the order of `campl_linear`. [`has_race`] tells whether a source's runs may differ. A process that holds
//! `x : Put(Int | TopBot)` as an input, and whose body is `halt x`, has the fault
//!
//! ```text
//! LinFault::WrongAction(place of `halt`, x, Put(Int | TopBot), Side::Input)
//! ```
//!
//! In reading order: `processes`; `judging`, bodies: each command with bodies asks first what stands outside of them
//! (`campl_calls`, `campl_rows`, `campl_plug_heads`), and then judges them.
#![tactic(auto)]

mod judging;
mod processes;

pub use campl_free::has_race;
pub use campl_held::LinFault;
pub use processes::{check, check_processes};
