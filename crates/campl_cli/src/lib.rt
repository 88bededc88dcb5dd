//! The command: it reads a source, judges it, runs it and writes what came out, or the one line of its refusal.
//!
//! Every source is judged; `check` tells of one that it is accepted, `code` lists its code, and `run` runs it. `generate` makes a source and
//! runs it, and `migrate` writes a script anew. In reading order: `command`, the orders; `reading`, `source` and `acceptance`, from a file to a
//! judged program; `scripts` and `running`, runs; `performance`, what an order came to, and its writing; `telling`, refusals.
#![tactic(auto)]

mod acceptance;
mod code;
mod command;
mod fault;
mod functions;
mod gate;
mod kind;
mod names;
mod performance;
mod processes;
mod reading;
mod refusal;
mod report;
mod running;
mod script;
mod scripts;
mod source;
mod telling;

pub use acceptance::{judge, judged, one_verdict};
pub use campl_run::Ended;
pub use code::code_of;
pub use command::campl;
pub use fault::{Detail, FaultKind, SourceFault};
pub use functions::judge_functions;
pub use gate::{Gate, OpenGate};
pub use kind::{FunctionKind, NameKind, ProcessKind, TextKind};
pub use names::judge_names;
pub use processes::judge_processes;
pub use refusal::{Refusal, SOURCE_LIMIT};
pub use report::Report;
pub use script::ScriptRefusal;
pub use source::{TreeFault, one_answer, tree_of};
pub use telling::refuse;
