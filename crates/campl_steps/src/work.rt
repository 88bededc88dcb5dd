//! Several calls of a process in one entry.
ghost use Rattle.std.specs.Prelude.{◌≡◌, ◌≤◌, true};
ghost use Rattle.campl_cells.specs.Stands.{Wired};
ghost use Rattle.campl_eval.specs.View.{code_of};
ghost use Rattle.campl_kept.specs.View.{view_kept};
ghost use Rattle.campl_parts.specs.Tables.{procs};
ghost use Rattle.campl_parts.specs.Views.{entry_of, life_of};
ghost use Rattle.campl_steps.specs.Configs.{parts};
ghost use Rattle.campl_steps.specs.Works.{Advanced, HasCalled, HasCalledIf, is_at_call, is_call, is_calling, work};

use crate::config::Config;
use crate::made::{Changed, Made};
use campl_kept::Kept;
use campl_parts::{Entry, Kind, Life};
use campl_program::Program;
use std::alloc::{AllocError, Global};

impl Config {
    /// One step of this process or service as this branch, if it has one. Where the step is a call that a process spends on its
    /// present command, it makes further calls as long as it stands before one, and at most this many in all. One entry tells
    /// them all, with their number as its weight. Where memory wants behind the first call, it ends with what was made.
    ///
    /// # Errors
    ///
    /// `AllocError` as of [`Config::step`]. Nothing has changed then.
    pub fn advance(
        &mut self,
        alloc: Global,
        program: &Program,
        number: u32,
        branch: u32,
        most: u32,
    ) -> Result<Option<Made>, AllocError>
        requires wired { Wired (parts self.old) }
        requires most { 1 ≤ most }
        ensures { Advanced (code_of program.now) number branch most self.old self.new result }
    {
        if self.is_at_call(number) {
            self.work(alloc, program, number, branch, most)
        } else {
            self.step(alloc, program, number, branch)
        }
    }

    // Of who stands before a call.
    fn work(
        &mut self,
        alloc: Global,
        program: &Program,
        number: u32,
        branch: u32,
        most: u32,
    ) -> Result<Option<Made>, AllocError>
        requires { Wired (parts self.old) }
        ensures { Advanced (code_of program.now) number branch most self.old self.new result }
    {
        let calls = self.calls(alloc, program, number, branch, most);
        if calls == 0 {
            return Err(AllocError);
        }
        Ok(Some(worked(number, calls)))
    }

    // Makes calls as long as the process stands before one and memory suffices, and tells how many.
    fn calls(
        &mut self,
        alloc: Global,
        program: &Program,
        number: u32,
        branch: u32,
        most: u32,
    ) -> u32
        requires { Wired (parts self.old) }
        ensures { HasCalled (code_of program.now) number branch most self.old self.new result }
    {
        let mut calls = 0;
        while calls < most && self.is_at_call(number) {
            if !self.call(alloc, program, number, branch) {
                return calls;
            }
            calls += 1;
        }
        calls
    }

    // Makes one call, if memory suffices.
    fn call(&mut self, alloc: Global, program: &Program, number: u32, branch: u32) -> bool
        requires wired { Wired (parts self.old) }
        requires calling { is_at_call (procs self.old.processes.items number) ≡ true }
        ensures { HasCalledIf (code_of program.now) number branch self.old self.new result }
    {
        match self.step(alloc, program, number, branch) {
            Ok(Some(_)) => true,
            Ok(None) => false,
            Err(_) => false,
        }
    }

    // Whether a process stands before a further call for its present command.
    fn is_at_call(&self, number: u32) -> bool
        ensures { result ≡ is_at_call (procs self.now.processes.items number) }
    {
        match self.processes.get(number as usize) {
            None => false,
            Some(part) => is_calling(&part.life),
        }
    }
}

fn is_calling(life: &Life) -> bool
    ensures { result ≡ is_calling (life_of life.now) }
{
    match life {
        Life::Ended => false,
        Life::Runs(running) => is_call(&running.as_ref().kept),
        Life::Serves(_, _) => false,
    }
}

fn is_call(kept: &Kept) -> bool
    ensures { result ≡ is_call (view_kept kept.now) }
{
    match kept {
        Kept::AtCall(_) => true,
        Kept::Values { .. } => false,
        Kept::Broken => false,
    }
}

// What was made with so many calls.
fn worked(process: u32, calls: u32) -> Made
    ensures { entry_of result.entry ≡ work process calls }
{
    let entry = Entry {
        process,
        kind: Kind::Work,
        weight: calls,
        end: None,
        second: None,
        message: None,
        child: None,
        channel: None,
        channel2: None,
    };
    Made {
        entry,
        changed: Changed::Nothing,
    }
}
