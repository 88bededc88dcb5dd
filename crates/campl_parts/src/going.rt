//! What a step does to the part of its process. Nothing here takes memory.
ghost use Rattle.std.specs.Prelude.{◌≡◌, ◌<◌, ◌^◌};
ghost use Rattle.campl_cells.specs.Steps.{goes_on, newborn};
ghost use Rattle.campl_cells.specs.Wants.{wanted};
ghost use Rattle.campl_eval.specs.View.{code_of};
ghost use Rattle.campl_parts.specs.Views.{drawn_of, life_of, proc_of};
ghost use Rattle.campl_parts.specs.Wanted.{want_of};

use crate::part::{Drawn, Life, ProcPart};
use crate::serving::serve;
use crate::want::Want;
use campl_program::Program;

impl ProcPart {
    /// What it does next, as this branch if it is a race. What it may bear gets the numbers that are drawn. It takes no memory.
    pub fn want<'a>(&'a self, program: &'a Program, drawn: Drawn, branch: u32) -> Want<'a>
        requires few { drawn.channel < 2 ^ 31 }
        requires few2 { drawn.channel2 < 2 ^ 31 }
        ensures { want_of result ≡ wanted (code_of program.now) (drawn_of drawn) (life_of self.now.life) branch }
    {
        match &self.life {
            Life::Ended => Want::Rests,
            Life::Runs(running) => running.as_ref().want(program, drawn, branch),
            Life::Serves(end, service) => serve(*end, service.as_ref()),
        }
    }

    /// It goes on as this life, one step later.
    pub fn go_on(&mut self, life: Life)
        requires { self.old.steps < 2 ^ 62 }
        ensures { proc_of self.new ≡ goes_on (proc_of self.old) (life_of life) }
    {
        self.steps += 1;
        self.life = life;
    }

    /// It goes on as this life, one step later, and bears a child, where its own number is this.
    pub fn go_on_bearing(&mut self, number: u32, life: Life, child: Life) -> ProcPart
        requires { self.old.steps < 2 ^ 62 }
        ensures parent { proc_of self.new ≡ goes_on (proc_of self.old) (life_of life) }
        ensures child { proc_of result ≡ newborn number (proc_of self.old) (life_of child) }
    {
        self.steps += 1;
        self.life = life;
        ProcPart {
            life: child,
            parent: number,
            born: self.steps,
            steps: 0,
        }
    }
}
