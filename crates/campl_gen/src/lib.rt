//! The code of a source.
//!
//! [`generate`] gives the blocks of its functions and processes and the decisions that they name, exactly those of the definition
//! (`campl_code_bodies`), so that the code's runs are the source's:
//!
//! ```text
//! let code = generate(alloc, &world)?;
//! ```
//!
//! In reading order: `processes`, the blocks of processes; `generating`, the whole source; `laws`, what the code does.
#![tactic(auto)]

mod generating;
mod laws;
mod processes;

pub use generating::generate;
pub use laws::law_generated_runs;
