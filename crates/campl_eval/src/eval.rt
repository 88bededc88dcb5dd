//! An evaluation that is given its calls little by little.
ghost use Rattle.std.specs.Prelude.{◌≡◌, ◌+◌, ◌^◌, ◌<◌, [], true, false, reverse, slice_get, IfOk, OnOk, OnErr};
ghost use Rattle.campl_code.specs.Frames.{frame_at};
ghost use Rattle.campl_code.specs.Machine.{step, enters};
ghost use Rattle.campl_eval.specs.Turn.{Answers, GivesAll, is_entry};
ghost use Rattle.campl_eval.specs.View.{code_of, seen, seens};

use crate::{Flow, Frame, Machine, Spare, Stack};
use campl_instructions::Instr;
use campl_operands::{Operands, Variables};
use campl_program::Program;
use campl_value::Value;
use std::alloc::{AllocError, Global};

/// An evaluation.
#[derive(Drop)]
pub struct Eval {
    pub machine: Machine,
    /// The calls that are spent so far.
    pub spent: u64,
    /// Memory was out.
    pub is_out: bool,
}

/// How a turn ended, with all calls that were spent.
//
// Its drop is derived, so that a caller can take the values out.
#[derive(Drop)]
pub enum Turn {
    /// At a process's instruction, with the values of its expressions.
    Done(Vec<Value>, u64),
    /// Before a call, with all calls spent that were given.
    More,
    /// A value would be too deep.
    TooDeep(u64),
    /// An instruction can't be done.
    Faulty(u64),
}

impl Eval {
    /// An evaluation from a place of a block, with these variables. It takes no memory.
    pub fn start(alloc: Global, block: usize, at: usize, variables: Variables) -> Eval
        ensures frame { seen result.machine.frame ≡ frame_at block at variables }
        ensures callers { seens result.machine.callers ≡ [] }
        ensures spent { result.spent ≡ 0 }
        ensures in_memory { result.is_out ≡ false }
    {
        Eval {
            machine: Machine {
                frame: Frame {
                    block,
                    at,
                    variables,
                    operands: Operands::new(alloc),
                },
                callers: Stack::new(alloc),
                spare: Spare::new(alloc),
            },
            spent: 0,
            is_out: false,
        }
    }

    /// The same evaluation, which shares the parts of its values with this one. An error means that memory is out.
    pub fn copy(&self, alloc: Global) -> Result<Eval, AllocError>
        ensures { IfOk result (λ copy. copy ≡ self.now) }
    {
        match self.machine.copy(alloc) {
            Err(error) => Err(error),
            Ok(machine) => Ok(Eval {
                machine,
                spent: self.spent,
                is_out: self.is_out,
            }),
        }
    }

    /// Goes on with so many more calls, as the machine does. The error means that memory is out, and comes from then on.
    pub fn run(&mut self, alloc: Global, program: &Program, calls: u64) -> Result<Turn, AllocError>
        requires room { self.old.spent + calls < 2 ^ 64 }
        ensures turn { IfOk result (λ turn. Answers (code_of program.now) (seen self.old.machine.frame) (seens self.old.machine.callers) calls
            (self.old.spent + calls) turn (seen self.new.machine.frame) (seens self.new.machine.callers) self.new.spent) }
        ensures ok { OnOk result (self.old.is_out ≡ false) }
        ensures out { OnErr result (self.new.is_out ≡ true) }
    {
        if self.is_out {
            return Err(AllocError);
        }
        match self.go(alloc, program, calls) {
            Err(_) => {
                self.is_out = true;
                Err(AllocError)
            }
            Ok(turn) => Ok(turn),
        }
    }

    // Goes on with so many more calls.
    fn go(&mut self, alloc: Global, program: &Program, calls: u64) -> Result<Turn, AllocError>
        requires room { self.old.spent + calls < 2 ^ 64 }
        ensures { IfOk result (λ turn. Answers (code_of program.now) (seen self.old.machine.frame) (seens self.old.machine.callers) calls
            (self.old.spent + calls) turn (seen self.new.machine.frame) (seens self.new.machine.callers) self.new.spent) }
    {
        // Its jumps lead onward, so that the loop ends.
        let _raw = program.raw();
        let mut left = calls;
        'left: loop {
            self.machine.frame.leap(program)?;
            if left == 0 && is_at_call(&self.machine, program) {
                return Ok(Turn::More);
            }
            match self.machine.step(alloc, program) {
                Flow::Goes => {}
                Flow::Entered => {
                    left -= 1;
                    self.spent += 1;
                }
                Flow::Gives => return Ok(self.values(alloc)),
                Flow::TooDeep => return Ok(Turn::TooDeep(self.spent)),
                Flow::Faulty => return Ok(Turn::Faulty(self.spent)),
                Flow::OutOfMemory => return Err(AllocError),
            }
        }
    }

    // Takes the values that the process's instruction needs.
    fn values(&mut self, alloc: Global) -> Turn
        ensures values { GivesAll result (reverse self.old.machine.frame.operands) self.old.spent }
        ensures at { self.new.machine.frame.at ≡ self.old.machine.frame.at }
        ensures variables { self.new.machine.frame.variables ≡ self.old.machine.frame.variables }
    {
        let values = self.machine.frame.operands.take_all(alloc);
        Turn::Done(values, self.spent)
    }
}

// Whether the next instruction enters a function.
fn is_at_call(machine: &Machine, program: &Program) -> bool
    ensures { result ≡ is_entry (step (code_of program.now) (seen machine.now.frame) (seens machine.now.callers)) }
{
    match machine.frame.instr(program) {
        Some(Instr::Call(g)) => can_enter(machine, program, *g),
        _ => false,
    }
}

// Whether a call of this function has its arguments.
fn can_enter(machine: &Machine, program: &Program, g: u32) -> bool
    ensures { result ≡ is_entry (enters (code_of program.now) g (slice_get (code_of program.now).functions g) (seen machine.now.frame) (seens machine.now.callers)) }
{
    match program.entry(g) {
        None => false,
        Some((parameters, _)) => parameters as usize <= machine.frame.operands.len(),
    }
}
