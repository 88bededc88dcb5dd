//! What the command answers.
ghost use Rattle.std.specs.Prelude.{◌≡◌};
ghost use Rattle.campl_cli.specs.Runs.{status_by};

use campl_parts::Journal;
use campl_run::Ended;

/// The answer of the command.
#[derive(Drop)]
pub struct Report {
    /// The exit status: 0 where what was ordered was done, and of a run where it finished; 10 where it awaits a line, 11 where it is out
    /// of steps, and 12 where it is broken; 2 for a bad command line, 3 for a refused source, 4 for a refused script, 5 for a
    /// failed read, 6 for a failed write, and 7 for want of memory.
    pub status: u8,
    /// How the run ended, and `None` where nothing ran.
    pub ended: Option<Ended>,
    /// The number of steps that were made.
    pub steps: u64,
    /// What was done, the oldest first; empty where nothing ran.
    pub journal: Journal,
}

/// The status of what was done: how a run ended, and 0 where nothing ran.
pub(crate) fn status_by(ended: Option<Ended>) -> u8
    ensures { result ≡ status_by ended }
{
    match ended {
        None | Some(Ended::Finished) => 0,
        Some(Ended::Awaiting) => 10,
        Some(Ended::OutOfSteps) => 11,
        Some(Ended::Broken) => 12,
    }
}
