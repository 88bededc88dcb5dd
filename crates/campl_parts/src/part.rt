//! Processes and services.
ghost use Rattle.std.specs.Prelude.{◌≡◌, IfOk};
ghost use Rattle.campl_cells.specs.Parts.{Runs};
ghost use Rattle.campl_parts.specs.Views.{held_of, life_of};

use crate::ends::Ends;
use campl_kept::Kept;
use campl_service::Service;
use std::alloc::{AllocError, Global};

/// A process that runs: its block, the ends that it holds, and how far the expressions of its next command are evaluated.
/// Functions are numbered first, then processes.
#[derive(Drop)]
pub struct Running {
    pub block: usize,
    pub ends: Ends,
    pub kept: Kept,
}

/// What a process or service is at a time. It is small, so that it costs little to hand on.
pub enum Life {
    /// It is gone.
    Ended,
    Runs(Box<Running>),
    /// A service, at its end.
    Serves(u32, Box<Service>),
}

impl Life {
    // A process that runs. An error means that memory is out.
    pub(crate) fn runs(alloc: Global, running: Running) -> Result<Life, AllocError>
        ensures { IfOk result (λ life. life_of life ≡ Runs (held_of running)) }
    {
        match Box::new(alloc, running) {
            Ok(running) => Ok(Life::Runs(running)),
            Err(_) => Err(AllocError),
        }
    }
}

impl Drop for Life {
    fn drop(self) {
        match self {
            Life::Ended => {}
            Life::Runs(running) => drop(running),
            Life::Serves(_, service) => drop(service),
        }
    }
}

/// A process or service: its parent, the step of the parent that bore it, and how many steps it made. A process that wasn't
/// born has 0 as parent and step.
#[derive(Drop)]
pub struct ProcPart {
    pub life: Life,
    pub parent: u32,
    pub born: u64,
    pub steps: u64,
}

/// The numbers for what a step may bear: a child, and two channels.
#[derive(Clone, Copy, Debug)]
pub struct Drawn {
    pub child: u32,
    pub channel: u32,
    pub channel2: u32,
}
