//! Places where processes go on.
ghost use Rattle.std.specs.Prelude.{◌≡◌, IfOk};
ghost use Rattle.campl_cells.specs.Wants.{Begins, set_end};
ghost use Rattle.campl_cells.specs.Steps.{IsLifeOf};
ghost use Rattle.campl_parts.specs.Plans.{begun_of};
ghost use Rattle.campl_eval.specs.View.{code_of};
ghost use Rattle.campl_parts.specs.Views.{life_of};
ghost use Rattle.campl_parts.specs.Wanted.{at_place, start_of, with_ends};

use crate::ends::Ends;
use crate::part::{Life, Running};
use campl_kept::Kept;
use campl_operands::Variables;
use campl_program::Program;
use std::alloc::{AllocError, Global};

/// A place of a block where a process would go on, with its variables and ends as they are.
#[derive(Clone, Copy)]
pub struct Place<'a> {
    pub block: usize,
    pub at: usize,
    pub variables: &'a Variables,
    pub ends: &'a Ends,
}

/// A place of a block, with variables and ends of its own.
#[derive(Drop)]
pub struct Begun {
    pub block: usize,
    pub at: usize,
    pub variables: Variables,
    pub ends: Ends,
}

impl<'a> Place<'a> {
    /// The same place with copies. An error means that memory is out.
    pub fn copy(&self, alloc: Global) -> Result<Begun, AllocError>
        ensures { IfOk result (λ begun. begun_of begun ≡ start_of self.now) }
    {
        let variables = self.variables.copy(alloc)?;
        let ends = self.ends.copy(alloc)?;
        Ok(Begun {
            block: self.block,
            at: self.at,
            variables,
            ends,
        })
    }

    /// A process that goes on there. An error means that memory is out.
    pub fn begin(&self, alloc: Global, program: &Program) -> Result<Life, AllocError>
        ensures { IfOk result (λ life. IsLifeOf (code_of program.now) (Begins (start_of self.now)) (life_of life)) }
    {
        self.copy(alloc)?.begin(alloc, program)
    }

    /// Another place of the block.
    pub fn moved(&self, at: usize) -> Place<'a>
        ensures { start_of result ≡ at_place (start_of self.now) at }
    {
        Place {
            block: self.block,
            at,
            variables: self.variables,
            ends: self.ends,
        }
    }

    /// A process that goes on there with one more end. An error means that memory is out.
    pub fn begin_holding(
        &self,
        alloc: Global,
        program: &Program,
        channel: u32,
        end: u32,
    ) -> Result<Life, AllocError>
        ensures { IfOk result (λ life. IsLifeOf (code_of program.now) (Begins (with_ends (start_of self.now) (set_end channel end (start_of self.now).ends))) (life_of life)) }
    {
        let mut begun = self.copy(alloc)?;
        begun.ends.set(channel, end)?;
        begun.begin(alloc, program)
    }

    /// A process that goes on there with two more ends, each with the number of its channel before it. An error means that memory
    /// is out.
    pub fn begin_holding_two(
        &self,
        alloc: Global,
        program: &Program,
        left: (u32, u32),
        right: (u32, u32),
    ) -> Result<Life, AllocError>
        ensures { IfOk result (λ life. IsLifeOf (code_of program.now) (Begins (with_ends (start_of self.now) (set_end right.0 right.1 (set_end left.0 left.1 (start_of self.now).ends)))) (life_of life)) }
    {
        let mut begun = self.copy(alloc)?;
        begun.ends.set(left.0, left.1)?;
        begun.ends.set(right.0, right.1)?;
        begun.begin(alloc, program)
    }
}

impl Begun {
    /// The process that is there, its command's expressions evaluated as far as they come without a call. An error means that
    /// memory is out.
    pub fn begin(self, alloc: Global, program: &Program) -> Result<Life, AllocError>
        ensures { IfOk result (λ life. IsLifeOf (code_of program.now) (Begins (begun_of self)) (life_of life)) }
    {
        let kept = Kept::begin(alloc, program, self.block, self.at, self.variables)?;
        let running = Running {
            block: self.block,
            ends: self.ends,
            kept,
        };
        Life::runs(alloc, running)
    }
}
