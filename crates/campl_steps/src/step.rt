//! One step.
ghost use Rattle.std.specs.Prelude.{◌≡◌, ◌<◌, ◌+◌, ◌^◌, ℕ, ⊤, MatchOption, vec_len};
ghost use Rattle.campl_code.specs.Instructions.{Code};
ghost use Rattle.campl_cells.specs.Stands.{Wired};
ghost use Rattle.campl_eval.specs.View.{code_of};
ghost use Rattle.campl_parts.specs.Tables.{IsThere, procs};
ghost use Rattle.campl_parts.specs.Views.{drawn_of};
ghost use Rattle.campl_steps.specs.Configs as configs;
ghost use Rattle.campl_steps.specs.Configs.{CanStep, Stepped, parts, steps_of};
ghost use Rattle.campl_steps.specs.Stepping.{ComesTo, is_step, made_of};

use crate::config::Config;
use crate::entries::{at_end, of_link, of_move};
use crate::made::{Changed, Made};
use crate::numbers::MOST_STEPS;
use crate::plan::Ready;
use campl_parts::{Drawn, Entry, Kind};
use campl_program::Program;
use std::alloc::{AllocError, Global};

impl Config {
    /// One step of this process or service as this branch, if it has one.
    ///
    /// # Errors
    ///
    /// `AllocError` where memory wants, or where there are 2^31 processes or channels or a process made 2^62 steps. Nothing has
    /// changed then.
    pub fn step(
        &mut self,
        alloc: Global,
        program: &Program,
        number: u32,
        branch: u32,
    ) -> Result<Option<Made>, AllocError>
        requires { Wired (parts self.old) }
        ensures { Stepped (code_of program.now) number branch self.old self.new result }
    {
        if self.processes.len() <= number as usize {
            return Ok(None);
        }
        let Some(drawn) = self.drawn_for(number) else {
            return Err(AllocError);
        };
        match self.ready(alloc, program, number, branch, drawn) {
            Ok(ready) => self.make(alloc, number, drawn, ready),
            Err(error) => Err(error),
        }
    }

    /// Whether this process or service has a step as this branch.
    ///
    /// # Errors
    ///
    /// `AllocError` as of [`Config::step`].
    pub fn can_step(
        &self,
        alloc: Global,
        program: &Program,
        number: u32,
        branch: u32,
    ) -> Result<bool, AllocError>
        ensures { CanStep (code_of program.now) (configs.drawn self.now) (parts self.now) number branch result }
    {
        if self.processes.len() <= number as usize {
            return Ok(false);
        }
        let Some(drawn) = self.drawn_for(number) else {
            return Err(AllocError);
        };
        match self.ready(alloc, program, number, branch, drawn) {
            Ok(ready) => Ok(ready.is_step()),
            Err(error) => Err(error),
        }
    }

    // The numbers of what a step bears, where there are any left, and its process made few steps.
    fn drawn_for(&self, number: u32) -> Option<Drawn>
        ensures { MatchOption result ⊤ (λ d. (drawn_of d ≡ configs.drawn self.now) × (d.channel + 2 < 2 ^ 31) × (d.channel2 < 2 ^ 31) × (steps_of (procs self.now.processes.items number) < 2 ^ 62)) }
    {
        if MOST_STEPS <= self.steps(number) {
            return None;
        }
        self.drawn()
    }

    // Makes a step that is ready.
    fn make(
        &mut self,
        alloc: Global,
        number: u32,
        drawn: Drawn,
        ready: Ready,
    ) -> Result<Option<Made>, AllocError>
        requires wired { Wired (parts self.old) }
        requires drawn { drawn_of drawn ≡ configs.drawn self.old }
        requires few { vec_len self.old.ends + 4 < 2 ^ 32 }
        requires there { IsThere (procs self.old.processes.items number) }
        requires ready { (code : Code) × (i : ℕ) × ComesTo code number i self.old ready }
        ensures { (code : Code) (i : ℕ) → ComesTo code number i self.old ready → Stepped code number i self.old self.new result }
    {
        match ready {
            Ready::Still => Ok(None),
            Ready::Moves {
                kind,
                end,
                borne,
                told,
                planned,
            } => {
                let entry = of_move(number, kind, end, told, &planned.child, borne, drawn);
                made(entry, self.apply_move(alloc, number, borne, planned))
            }
            Ready::Looks {
                kind,
                takes,
                end,
                told,
                next,
            } => {
                let entry = at_end(number, kind, end, told);
                made(entry, Ok(self.apply_look(number, takes, end, next)))
            }
            Ready::Links {
                end,
                second,
                first_peer,
                second_peer,
            } => {
                let entry = of_link(number, end, second);
                let linked = self.apply_link(number, end, second, first_peer, second_peer);
                made(entry, linked)
            }
            Ready::Hears {
                kind,
                end,
                told,
                message,
            } => {
                let entry = at_end(number, kind, end, Some(told));
                made(entry, self.apply_hearing(number, end, message))
            }
            Ready::Says { end, told } => {
                let entry = at_end(number, Kind::ServeLine, end, Some(told));
                made(entry, self.apply_saying(number, end))
            }
        }
    }
}

impl Ready {
    // Whether there is a step.
    fn is_step(&self) -> bool
        ensures { result ≡ is_step self.now }
    {
        match self {
            Ready::Still => false,
            Ready::Moves { .. } => true,
            Ready::Looks { .. } => true,
            Ready::Links { .. } => true,
            Ready::Hears { .. } => true,
            Ready::Says { .. } => true,
        }
    }
}

// A step that was made, with its entry.
fn made(entry: Entry, changed: Result<Changed, AllocError>) -> Result<Option<Made>, AllocError>
    ensures { result ≡ made_of entry changed }
{
    match changed {
        Ok(changed) => Ok(Some(Made { entry, changed })),
        Err(error) => Err(error),
    }
}
