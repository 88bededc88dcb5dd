//! The machine, an instruction at a time.
ghost use Rattle.std.specs.Prelude.{◌≡◌, ◌+◌, ◌<◌, ◌^◌, option_map, IfOk, IfSome};
ghost use Rattle.std.specs.Option.{option_copied};
ghost use Rattle.campl_code.specs.Machine as m;
ghost use Rattle.campl_instructions.specs.View.{view_instr};
ghost use Rattle.campl_operands.specs.Effects.{made};
ghost use Rattle.campl_eval.specs.Flow.{Leads, goes};
ghost use Rattle.campl_eval.specs.View.{code_of, seen, seens};

use crate::{Spare, Stack};
use campl_instructions::Instr;
use campl_operands::{Effect, Operands, Variables};
use campl_program::Program;
use campl_value::Look;
use std::alloc::{AllocError, Global};

/// A block's number, the place in it, its variables and operands. Functions are numbered first, then processes.
#[derive(Drop)]
pub struct Frame {
    pub block: usize,
    pub at: usize,
    pub variables: Variables,
    pub operands: Operands,
}

/// The frame in hand, and those that wait for it.
#[derive(Drop)]
pub struct Machine {
    pub frame: Frame,
    pub callers: Stack,
    pub spare: Spare,
}

/// Where an instruction led.
#[derive(Clone, Copy, Debug, PartialEq, Eq)]
pub enum Flow {
    /// To the next instruction.
    Goes,
    /// Into a function, which is a call.
    Entered,
    /// To a process's instruction, whose values are the operands.
    Gives,
    /// A value would be too deep.
    TooDeep,
    /// It can't be done: operands are missing or of wrong kinds, or a variable, row, function or caller isn't there.
    Faulty,
    OutOfMemory,
}

impl Frame {
    /// The next instruction, where there is one.
    #[inline]
    pub fn instr<'c>(&self, program: &'c Program) -> Option<&'c Instr>
        ensures value { option_map view_instr (option_copied result) ≡ m.fetch (code_of program.now) (seen self.now) }
        ensures room { IfSome result (λ _. self.now.at + 1 < 2 ^ 64) }
    {
        program.instr(self.block, self.at)
    }

    /// The same frame, which shares the parts of its values with this one. An error means that memory is out.
    pub fn copy(&self, alloc: Global) -> Result<Frame, AllocError>
        ensures { IfOk result (λ copy. copy ≡ self.now) }
    {
        let Ok(variables) = self.variables.copy(alloc) else {
            return Err(AllocError);
        };
        let Ok(operands) = self.operands.copy(alloc) else {
            return Err(AllocError);
        };
        Ok(Frame {
            block: self.block,
            at: self.at,
            variables,
            operands,
        })
    }
}

impl Machine {
    /// The same machine, which shares the parts of its values with this one. An error means that memory is out.
    pub fn copy(&self, alloc: Global) -> Result<Machine, AllocError>
        ensures { IfOk result (λ copy. copy ≡ self.now) }
    {
        let Ok(frame) = self.frame.copy(alloc) else {
            return Err(AllocError);
        };
        let Ok(callers) = self.callers.copy(alloc) else {
            return Err(AllocError);
        };
        Ok(Machine {
            frame,
            callers,
            spare: Spare::new(alloc),
        })
    }

    /// Does the next instruction. What a break or want of memory leaves isn't said.
    #[inline]
    pub fn step(&mut self, alloc: Global, program: &Program) -> Flow
        ensures { Leads (m.step (code_of program.now) (seen self.old.frame) (seens self.old.callers)) result (seen self.new.frame) (seens self.new.callers) }
    {
        match self.frame.instr(program) {
            None => Flow::Faulty,
            Some(instr) => self.act(alloc, program, instr),
        }
    }

    // Does this instruction.
    #[inline]
    #[tactic(auto, using(crate::proofs::Making::making))]
    fn act(&mut self, alloc: Global, program: &Program, instr: &Instr) -> Flow
        requires { self.old.frame.at + 1 < 2 ^ 64 }
        ensures { Leads (m.act (code_of program.now) (view_instr instr.now) (seen self.old.frame) (seens self.old.callers)) result (seen self.new.frame) (seens self.new.callers) }
    {
        match instr {
            Instr::Jump(to) => {
                self.frame.at = *to as usize;
                Flow::Goes
            }
            Instr::Unless(to) => self.unless(*to),
            Instr::Call(g) => self.enter(alloc, program, *g),
            Instr::Match(n, first, places) => {
                self.find_row(program, *n, *first, places.as_slice())
            }
            Instr::Return => self.give_back(alloc),
            Instr::Int(_) => self.make(alloc, instr),
            Instr::Char(_) => self.make(alloc, instr),
            Instr::Truth(_) => self.make(alloc, instr),
            Instr::Nil => self.make(alloc, instr),
            Instr::Text(_) => self.make(alloc, instr),
            Instr::Load(_) => self.make(alloc, instr),
            Instr::Cons => self.make(alloc, instr),
            Instr::Pair => self.make(alloc, instr),
            Instr::Build(_, _) => self.make(alloc, instr),
            Instr::Op(_) => self.make(alloc, instr),
            Instr::Case(_, _, _) => self.give(),
            Instr::Put(_) => self.give(),
            Instr::Get(_, _) => self.give(),
            Instr::Pick(_, _) => self.give(),
            Instr::Split(_, _, _) => self.give(),
            Instr::Close(_) => self.give(),
            Instr::Offer(_, _) => self.give(),
            Instr::Fork(_, _, _, _) => self.give(),
            Instr::Halt(_) => self.give(),
            Instr::Link(_, _) => self.give(),
            Instr::LinkNeg(_, _) => self.give(),
            Instr::Peel(_, _, _) => self.give(),
            Instr::Race(_) => self.give(),
            Instr::Go(_, _) => self.give(),
        }
    }

    // Does an instruction that makes a value.
    #[inline]
    fn make(&mut self, alloc: Global, instr: &Instr) -> Flow
        requires { self.old.frame.at + 1 < 2 ^ 64 }
        ensures { Leads (goes (seen self.old.frame) (seens self.old.callers) (made (view_instr instr.now) self.old.frame.variables self.old.frame.operands)) result (seen self.new.frame) (seens self.new.callers) }
    {
        match self
            .frame
            .operands
            .make(alloc, &self.frame.variables, instr)
        {
            Effect::Done => {
                self.frame.at += 1;
                Flow::Goes
            }
            Effect::TooDeep => Flow::TooDeep,
            Effect::Faulty => Flow::Faulty,
            Effect::OutOfMemory => Flow::OutOfMemory,
        }
    }

    // Goes to this place where the top is False.
    fn unless(&mut self, to: u32) -> Flow
        requires { self.old.frame.at + 1 < 2 ^ 64 }
        ensures { Leads (m.branches to (seen self.old.frame) (seens self.old.callers) self.old.frame.operands) result (seen self.new.frame) (seens self.new.callers) }
    {
        let Some(test) = self.frame.operands.pop() else {
            return Flow::Faulty;
        };
        match test.look() {
            Look::Truth(true) => {
                self.frame.at += 1;
                Flow::Goes
            }
            Look::Truth(false) => {
                self.frame.at = to as usize;
                Flow::Goes
            }
            _ => Flow::Faulty,
        }
    }

    // A process's instruction has its values where no caller waits.
    fn give(&self) -> Flow
        ensures { Leads (m.gives (seen self.now.frame) (seens self.now.callers)) result (seen self.now.frame) (seens self.now.callers) }
    {
        if self.callers.is_empty() {
            return Flow::Gives;
        }
        Flow::Faulty
    }
}
