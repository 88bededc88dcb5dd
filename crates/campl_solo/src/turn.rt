//! The turn of one: its step by its first branch that is ready, if it has one.
ghost use Rattle.std.specs.Prelude.{◌≡◌, ◌≤◌, ◌<◌, ◌+◌, ◌^◌, ℕ};
ghost use Rattle.campl_tree.specs.Plain.Decl.{Program as Source};
ghost use Rattle.campl_meaning.specs.Reductions.{Configuration};
ghost use Rattle.campl_cells.specs.Stands.{Naming, Wired};
ghost use Rattle.campl_eval.specs.View.{code_of};
ghost use Rattle.campl_parts.specs.Journal.{weight_of};
ghost use Rattle.campl_steps.specs.Configs as configs;
ghost use Rattle.campl_steps.specs.Configs.{parts};
ghost use Rattle.campl_solo.specs.Asking.{Asked, HasBranch, IsFirst, Looked, Turned};
ghost use Rattle.campl_solo.specs.Solos.{IsRun};

use crate::solo::Solo;
use crate::tables::{grow, rest, wake_all};
use campl_parts::Journal;
use campl_program::Program;
use campl_steps::{Config, Made, Tried};
use std::alloc::{AllocError, Global};

impl Solo {
    /// The step of this one, the first that is flagged, if it has one, with its entry in the journal; it is no longer flagged else.
    pub(crate) fn ask(
        &mut self,
        alloc: Global,
        program: &Program,
        number: u32,
        journal: &mut Journal,
    ) -> Result<bool, AllocError>
        requires run { (source : Source) × (n : Naming) × (c : Configuration) × IsRun source (code_of program.now) n c self.old × IsFirst n self.old number }
        requires room { (1 ≤ journal.old.spare) × (1 ≤ journal.old.spare_full) }
        requires within { weight_of journal.old.entries + 1 < 2 ^ 64 }
        ensures { (source : Source) (n : Naming) (c : Configuration) → IsRun source (code_of program.now) n c self.old → IsFirst n self.old number
            → Asked source (code_of program.now) n c self.old self.new journal.old journal.new result }
    {
        match self.config.step_in_place(alloc, program, number, journal) {
            Tried::Made(changed) => {
                wake_all(&mut self.schedule, changed);
                Ok(true)
            }
            Tried::OutOfMemory => Err(AllocError),
            Tried::Still => self.turn(alloc, program, number, journal),
            Tried::Otherwise => self.turn(alloc, program, number, journal),
        }
    }

    // The same on copies.
    fn turn(
        &mut self,
        alloc: Global,
        program: &Program,
        number: u32,
        journal: &mut Journal,
    ) -> Result<bool, AllocError>
        requires run { (source : Source) × (n : Naming) × (c : Configuration) × IsRun source (code_of program.now) n c self.old × IsFirst n self.old number }
        requires room { (1 ≤ journal.old.spare) × (1 ≤ journal.old.spare_full) }
        requires within { weight_of journal.old.entries + 1 < 2 ^ 64 }
        ensures { (source : Source) (n : Naming) (c : Configuration) → IsRun source (code_of program.now) n c self.old → IsFirst n self.old number
            → Asked source (code_of program.now) n c self.old self.new journal.old journal.new result }
    {
        match self.schedule.make_room(alloc) {
            Ok(()) => {}
            Err(error) => return Err(error),
        }
        let count = match self.config.branches(program, number) {
            Ok(count) => count,
            Err(error) => return Err(error),
        };
        match first_step(&mut self.config, alloc, program, number, count) {
            Ok(None) => {
                rest(&mut self.schedule, &self.config, program, number, count);
                Ok(false)
            }
            Ok(Some(made)) => {
                let born = self.config.steps(number);
                grow(&mut self.schedule, number, born, &made.entry);
                wake_all(&mut self.schedule, made.changed);
                let Made { entry, changed: _ } = made;
                journal.record(entry);
                Ok(true)
            }
            Err(error) => Err(error),
        }
    }

    /// Whether this one, the first that is flagged, has a step; where it has none, it is no longer flagged.
    pub(crate) fn look(
        &mut self,
        alloc: Global,
        program: &Program,
        number: u32,
    ) -> Result<bool, AllocError>
        requires { (source : Source) × (n : Naming) × (c : Configuration) × IsRun source (code_of program.now) n c self.old × IsFirst n self.old number }
        ensures { (source : Source) (n : Naming) (c : Configuration) → IsRun source (code_of program.now) n c self.old → IsFirst n self.old number
            → Looked source (code_of program.now) n c self.old self.new result }
    {
        let count = match self.config.branches(program, number) {
            Ok(count) => count,
            Err(error) => return Err(error),
        };
        match has_branch(&self.config, alloc, program, number, count) {
            Ok(false) => {
                rest(&mut self.schedule, &self.config, program, number, count);
                Ok(false)
            }
            Ok(true) => Ok(true),
            Err(error) => Err(error),
        }
    }
}

// The step by the first of so many branches that is ready.
fn first_step(
    config: &mut Config,
    alloc: Global,
    program: &Program,
    number: u32,
    count: u32,
) -> Result<Option<Made>, AllocError>
    requires { Wired (parts config.old) }
    ensures { Turned (code_of program.now) number count config.old config.new result }
{
    for branch in 0..count {
        match config.step(alloc, program, number, branch) {
            Ok(None) => {}
            Ok(Some(made)) => return Ok(Some(made)),
            Err(error) => return Err(error),
        }
    }
    Ok(None)
}

// Whether one of so many branches is ready.
fn has_branch(
    config: &Config,
    alloc: Global,
    program: &Program,
    number: u32,
    count: u32,
) -> Result<bool, AllocError>
    ensures { HasBranch (code_of program.now) (configs.drawn config.now) (parts config.now) number count result }
{
    for branch in 0..count {
        match config.can_step(alloc, program, number, branch) {
            Ok(false) => {}
            Ok(true) => return Ok(true),
            Err(error) => return Err(error),
        }
    }
    Ok(false)
}
