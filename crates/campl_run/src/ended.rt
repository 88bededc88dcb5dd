//! How a run ends.
ghost use Rattle.std.specs.Prelude.{◌≡◌};
ghost use Rattle.campl_turns.specs.Endings.{EndsAs};
ghost use Rattle.campl_steps.specs.Configs.{parts};
ghost use Rattle.campl_run.specs.Left.{has_some, is_broken, is_running, keeps_break};
ghost use Rattle.campl_run.specs.Endings.{EndsSo};
ghost use Rattle.campl_run.specs.Runs.{ending_of};

use campl_kept::Kept;
use campl_parts::{Life, ProcPart};
use campl_solo::Stop;
use campl_steps::Config;

/// How a run ended.
#[derive(Clone, Copy, Debug, PartialEq, Eq)]
pub enum Ended {
    /// No process is left.
    Finished,
    /// Some process is left, and a service was asked for a line with its script spent.
    Awaiting,
    /// As many steps were made as there may be, and something could go on.
    OutOfSteps,
    /// A process broke, since a value grew too deep.
    Broken,
}

/// How a run ended that stopped here.
pub(crate) fn ended_by(stop: Stop, config: &Config) -> Ended
    ensures { EndsSo stop config.now result }
{
    match stop {
        Stop::Spent => Ended::OutOfSteps,
        Stop::Rested => ended_at_rest(config),
    }
}

// How a run ended that rests here.
fn ended_at_rest(config: &Config) -> Ended
    ensures { EndsAs (parts config.now) (ending_of result) }
{
    if has_broken(config.processes.as_slice()) {
        return Ended::Broken;
    }
    if has_running(config.processes.as_slice()) {
        return Ended::Awaiting;
    }
    Ended::Finished
}

// Whether some process is left.
fn has_running(processes: &[ProcPart]) -> bool
    ensures { result ≡ has_some is_running processes.now }
{
    for process in processes {
        if is_running(&process.life) {
            return true;
        }
    }
    false
}

// Whether some process broke.
fn has_broken(processes: &[ProcPart]) -> bool
    ensures { result ≡ has_some is_broken processes.now }
{
    for process in processes {
        if is_broken(&process.life) {
            return true;
        }
    }
    false
}

fn is_running(life: &Life) -> bool
    ensures { result ≡ is_running life.now }
{
    match life {
        Life::Ended => false,
        Life::Runs(_) => true,
        Life::Serves(_, _) => false,
    }
}

fn is_broken(life: &Life) -> bool
    ensures { result ≡ is_broken life.now }
{
    match life {
        Life::Ended => false,
        Life::Runs(running) => keeps_break(&running.as_ref().kept),
        Life::Serves(_, _) => false,
    }
}

fn keeps_break(kept: &Kept) -> bool
    ensures { result ≡ keeps_break kept.now }
{
    match kept {
        Kept::Values { .. } => false,
        Kept::AtCall(_) => false,
        Kept::Broken => true,
    }
}
