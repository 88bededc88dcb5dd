//! Processes at a command whose expressions are evaluated, and how they go on in place: in their block with their ends and, but for
//! what is said, with their variables, so that nothing is made but their next command.
ghost use Rattle.std.specs.Prelude.{◌≡◌, ◌+◌, ◌-◌, ◌<◌, ◌^◌, [], Some, IfOk, IfSome, length, option_map, slice_get, slice_set};
ghost use Rattle.std.specs.Option.{option_copied};
ghost use Rattle.campl_code.specs.Frames.{frame_at, frame_size};
ghost use Rattle.campl_code.specs.Instructions.{Block, blocks};
ghost use Rattle.campl_code.specs.Machine.{code_at};
ghost use Rattle.campl_code_bodies.specs.Kept.{Values};
ghost use Rattle.campl_instructions.specs.View.{view_instr};
ghost use Rattle.campl_cells.specs.Parts.{Runs};
ghost use Rattle.campl_cells.specs.Steps.{IsLifeOf, goes_on};
ghost use Rattle.campl_cells.specs.Wants.{Begins, called};
ghost use Rattle.campl_eval.specs.View.{code_of};
ghost use Rattle.campl_kept.specs.Keeps.{Keeps};
ghost use Rattle.campl_kept.specs.View.{view_kept};
ghost use Rattle.campl_parts.specs.Ends.{ends_of};
ghost use Rattle.campl_parts.specs.Standing.{IsStanding, kept_by, reached_kept, turned};
ghost use Rattle.campl_parts.specs.Views.{held_of, life_of, proc_of};

use crate::ends::Ends;
use crate::part::{Life, ProcPart, Running};
use crate::plan::called_variables;
use campl_instructions::Instr;
use campl_kept::{Kept, Reached, go_straight};
use campl_operands::Variables;
use campl_program::Program;
use campl_value::Value;
use std::alloc::{AllocError, Global};

/// A process at a command whose expressions are evaluated, with its variables and their values.
#[derive(Clone, Copy)]
pub struct Standing<'a> {
    pub running: &'a Running,
    pub at: usize,
    pub variables: &'a Variables,
    pub values: &'a [Value],
}

impl ProcPart {
    /// Where it stands, if it is a process whose expressions are evaluated.
    #[inline]
    pub fn standing(&self) -> Option<Standing<'_>>
        ensures { IfSome result (IsStanding (life_of self.now.life)) }
    {
        match &self.life {
            Life::Ended => None,
            Life::Runs(running) => running.as_ref().standing(),
            Life::Serves(_, _) => None,
        }
    }

    /// It goes on at a command that it reached in its block, one step later.
    #[inline]
    pub fn reach(&mut self, reached: Reached)
        requires { self.old.steps < 2 ^ 62 }
        ensures { proc_of self.new ≡ goes_on (proc_of self.old) (kept_by (reached_kept reached.at reached.values.items) (life_of self.old.life)) }
    {
        self.steps += 1;
        match &mut self.life {
            Life::Ended => drop(reached),
            Life::Runs(running) => running.as_mut().reach(reached),
            Life::Serves(_, _) => drop(reached),
        }
    }

    /// The same with other variables.
    pub fn reach_with(&mut self, variables: Variables, reached: Reached)
        requires { self.old.steps < 2 ^ 62 }
        ensures { proc_of self.new ≡ goes_on (proc_of self.old) (kept_by (λ kept. Values reached.at variables reached.values.items) (life_of self.old.life)) }
    {
        self.steps += 1;
        let kept = Kept::Values {
            at: reached.at,
            variables,
            values: reached.values,
        };
        match &mut self.life {
            Life::Ended => drop(kept),
            Life::Runs(running) => running.as_mut().kept = kept,
            Life::Serves(_, _) => drop(kept),
        }
    }

    /// It goes on as this process, one step later.
    pub fn turn_into(&mut self, other: Running)
        requires { self.old.steps < 2 ^ 62 }
        ensures { proc_of self.new ≡ goes_on (proc_of self.old) (turned (held_of other) (life_of self.old.life)) }
    {
        self.steps += 1;
        match &mut self.life {
            Life::Ended => drop(other),
            Life::Runs(running) => *running.as_mut() = other,
            Life::Serves(_, _) => drop(other),
        }
    }
}

impl Running {
    #[inline]
    fn standing(&self) -> Option<Standing<'_>>
        ensures { IfSome result (IsStanding (Runs (held_of self.now))) }
    {
        match &self.kept {
            Kept::Broken => None,
            Kept::AtCall(_) => None,
            Kept::Values {
                at,
                variables,
                values,
            } => Some(Standing {
                running: self,
                at: *at,
                variables,
                values: values.as_slice(),
            }),
        }
    }

    #[inline]
    fn reach(&mut self, reached: Reached)
        ensures block { self.new.block ≡ self.old.block }
        ensures ends { self.new.ends ≡ self.old.ends }
        ensures kept { view_kept self.new.kept ≡ reached_kept reached.at reached.values.items (view_kept self.old.kept) }
    {
        match &mut self.kept {
            Kept::Broken => drop(reached),
            Kept::AtCall(_) => drop(reached),
            Kept::Values { at, values, .. } => {
                *at = reached.at;
                *values = reached.values;
            }
        }
    }
}

impl<'a> Standing<'a> {
    /// The instruction of its command.
    #[inline]
    pub fn instr<'p>(&self, program: &'p Program) -> Option<&'p Instr>
        ensures value { option_map view_instr (option_copied result) ≡ code_at (slice_get (blocks (code_of program.now)) self.now.running.now.block) self.now.at }
        ensures room { IfSome result (λ _. self.now.at + 1 < 2 ^ 64) }
    {
        program.instr(self.running.block, self.at)
    }

    /// The command at another place of its block, with these variables, where it is reached straight. An error means that memory
    /// is out.
    #[inline]
    pub fn onward(
        &self,
        alloc: Global,
        program: &Program,
        at: usize,
        variables: &Variables,
    ) -> Result<Option<Reached>, AllocError>
        ensures { IfOk result (λ r. IfSome r (λ r. Keeps (code_of program.now) (frame_at self.now.running.now.block at variables.now) [] 0 (Values r.at variables.now r.values.items))) }
    {
        go_straight(alloc, program, self.running.block, at, variables)
    }

    /// Its variables, of which this one is a copy of a value. An error means that memory is out.
    pub fn with(&self, alloc: Global, variable: u32, value: &Value) -> Result<Variables, AllocError>
        ensures { IfOk result (λ variables. variables ≡ slice_set self.now.variables.now variable value.now) }
    {
        let value = match value.copy() {
            Ok(value) => value,
            Err(error) => return Err(error),
        };
        let mut variables = match self.variables.copy(alloc) {
            Ok(variables) => variables,
            Err(error) => return Err(error),
        };
        variables.put(variable as usize, value);
        Ok(variables)
    }

    /// The process as which it goes on with a call, where its first command is reached straight. An error means that memory is out.
    pub fn called(
        &self,
        alloc: Global,
        program: &Program,
        process: u32,
        channels: &[u32],
    ) -> Result<Option<Running>, AllocError>
        ensures { (b : Block) → slice_get (code_of program.now).processes process ≡ Some b
            → IfOk result (λ r. IfSome r (λ r. IsLifeOf (code_of program.now) (Begins (called (code_of program.now) (held_of self.now.running.now) process channels.now self.now.values.now b)) (Runs (held_of r)))) }
    {
        let Some((block, missing)) = head_of(program, process) else {
            return Ok(None);
        };
        let variables = match called_variables(alloc, missing, self.values) {
            Ok(variables) => variables,
            Err(error) => return Err(error),
        };
        let ends = match self.running.ends.given(alloc, channels) {
            Ok(ends) => ends,
            Err(error) => return Err(error),
        };
        begin_straight(alloc, program, block, variables, ends)
    }
}

// The block of a process, and how many variables its frame has behind its parameters.
fn head_of(program: &Program, process: u32) -> Option<(usize, usize)>
    ensures { (b : Block) → slice_get (code_of program.now).processes process ≡ Some b
        → IfSome result (λ head. (head.0 ≡ length (code_of program.now).functions + process) × (head.1 ≡ frame_size (code_of program.now).decisions b - b.variables)) }
{
    let Some((parameters, size)) = program.process_entry(process) else {
        return None;
    };
    let functions = program.raw().functions.as_slice();
    Some((
        functions.len() + process as usize,
        size.saturating_sub(parameters as usize),
    ))
}

// A process at the head of a block, where its first command is reached straight.
fn begin_straight(
    alloc: Global,
    program: &Program,
    block: usize,
    variables: Variables,
    ends: Ends,
) -> Result<Option<Running>, AllocError>
    ensures { IfOk result (λ r. IfSome r (λ r. IsLifeOf (code_of program.now) (Begins (record { block = block; at = 0; vars = variables; ends = ends_of ends })) (Runs (held_of r)))) }
{
    match go_straight(alloc, program, block, 0, &variables) {
        Err(error) => Err(error),
        Ok(None) => Ok(None),
        Ok(Some(reached)) => Ok(Some(Running {
            block,
            ends,
            kept: Kept::Values {
                at: reached.at,
                variables,
                values: reached.values,
            },
        })),
    }
}
