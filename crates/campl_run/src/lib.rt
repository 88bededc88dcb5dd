//! Whole runs: code is run from its start to its end, and what comes out is put together.
//!
//! ```text
//! let names = services_of(alloc, &world)?;
//! let scripts = read_script(alloc, &text, names.as_slice())?; // or Scripts::none(alloc, count)?
//! let ran = run(alloc, world, code, scripts, budget)?;
//! ```
//!
//! In reading order: `ended`, how a run ends; `services`, the services of a source and their start; `number`, that of `run` in the
//! code; `output`, what a run prints; `running`, the run.
#![tactic(auto)]

mod ended;
mod number;
mod output;
mod running;
mod services;

pub use ended::Ended;
pub use number::number_of_run;
pub use running::{Ran, run};
pub use services::{services_at_start, services_of};
