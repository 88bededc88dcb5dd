//! Calls and returns.
ghost use Rattle.std.specs.Prelude.{◌≡◌, ◌≤◌, ◌<◌, ◌+◌, ◌-◌, ◌^◌, ◌++◌, ◌&&◌, [], ◌∷◌, length, reverse, take, drop, replicate, slice_get, OnOk};
ghost use Rattle.campl_value.specs.Tree.{Nil as NilTree};
ghost use Rattle.campl_code.specs.Machine as m;
ghost use Rattle.campl_eval.specs.Flow.{Leads};
ghost use Rattle.campl_eval.specs.View.{code_of, seen, seens};

use crate::{Flow, Frame, Machine};
use campl_instructions::Instr;
use campl_program::Program;
use campl_value::Value;
use std::alloc::{AllocError, Global};
use std::mem;

impl Machine {
    // Calls the function with this number.
    pub(crate) fn enter(&mut self, alloc: Global, program: &Program, g: u32) -> Flow
        requires { self.old.frame.at + 1 < 2 ^ 64 }
        ensures { Leads (m.enters (code_of program.now) g (slice_get (code_of program.now).functions g) (seen self.old.frame) (seens self.old.callers)) result (seen self.new.frame) (seens self.new.callers) }
    {
        let Some((parameters, size)) = program.entry(g) else {
            return Flow::Faulty;
        };
        let n = parameters as usize;
        if n > self.frame.operands.len() {
            return Flow::Faulty;
        }
        self.frame.at += 1;
        match self.leave(alloc, program, g, n, size) {
            Err(_) => Flow::OutOfMemory,
            Ok(()) => Flow::Entered,
        }
    }

    // Leaves the frame for that of a call with the topmost n operands.
    fn leave(
        &mut self,
        alloc: Global,
        program: &Program,
        g: u32,
        n: usize,
        size: usize,
    ) -> Result<(), AllocError>
        requires { n ≤ length self.old.frame.operands }
        ensures frame { OnOk result (seen self.new.frame ≡ record { block = g; at = 0; vars = reverse (take n self.old.frame.operands) ++ replicate (size - n) NilTree; stack = [] }) }
        ensures callers { OnOk result (seens self.new.callers ≡ m.below (code_of program.now) (record { block = self.old.frame.block; at = self.old.frame.at; vars = self.old.frame.variables; stack = drop n self.old.frame.operands }) (seens self.old.callers)) }
    {
        if self.is_last(program, n) {
            return self.replace(g, size);
        }
        self.keep(alloc, g, n, size)
    }

    // Whether a call of n values leaves a frame that would only return.
    fn is_last(&self, program: &Program, n: usize) -> bool
        requires { n ≤ length self.now.frame.operands }
        ensures { result ≡ m.is_return (m.fetch (code_of program.now) (seen self.now.frame)) && m.is_empty (drop n self.now.frame.operands) }
    {
        if self.frame.operands.len() == n {
            return would_return(&self.frame, program);
        }
        false
    }

    // A call's frame takes the place of this one, and the operands become its variables.
    fn replace(&mut self, g: u32, size: usize) -> Result<(), AllocError>
        ensures frame { OnOk result (seen self.new.frame ≡ record { block = g; at = 0; vars = reverse self.old.frame.operands ++ replicate (size - length self.old.frame.operands) NilTree; stack = [] }) }
        ensures callers { OnOk result (self.new.callers ≡ self.old.callers) }
    {
        self.frame
            .operands
            .become_variables(&mut self.frame.variables);
        self.frame.block = g as usize;
        self.frame.at = 0;
        self.frame.variables.pad(size)
    }

    // A call's frame is put on this one.
    fn keep(&mut self, alloc: Global, g: u32, n: usize, size: usize) -> Result<(), AllocError>
        requires { n ≤ length self.old.frame.operands }
        ensures frame { OnOk result (seen self.new.frame ≡ record { block = g; at = 0; vars = reverse (take n self.old.frame.operands) ++ replicate (size - n) NilTree; stack = [] }) }
        ensures callers { OnOk result (seens self.new.callers ≡ record { block = self.old.frame.block; at = self.old.frame.at; vars = self.old.frame.variables; stack = drop n self.old.frame.operands } ∷ seens self.old.callers) }
    {
        self.callers.stay_light(alloc)?;
        let mut frame = self.spare.take(alloc);
        frame.block = g as usize;
        frame.at = 0;
        self.frame.operands.give_top(n, &mut frame.variables)?;
        frame.variables.pad(size)?;
        let caller = mem::replace(&mut self.frame, frame);
        self.callers.push(caller)
    }

    // Gives the top to the caller.
    pub(crate) fn give_back(&mut self, alloc: Global) -> Flow
        ensures { Leads (m.returns self.old.frame.operands (seens self.old.callers)) result (seen self.new.frame) (seens self.new.callers) }
    {
        let Some(value) = self.frame.operands.pop() else {
            return Flow::Faulty;
        };
        match self.callers.pop_near() {
            Some(caller) => self.resume(caller, value),
            None => self.give_below(alloc, value),
        }
    }

    // Gives a value to the caller, which may be one of those that copies share.
    #[cold]
    #[inline(never)]
    fn give_below(&mut self, alloc: Global, value: Value) -> Flow
        ensures { Leads (m.returns (value ∷ self.old.frame.operands) (seens self.old.callers)) result (seen self.new.frame) (seens self.new.callers) }
    {
        match self.callers.pop(alloc) {
            Err(_) => Flow::OutOfMemory,
            Ok(None) => Flow::Faulty,
            Ok(Some(caller)) => self.resume(caller, value),
        }
    }

    // Goes on with the caller, which gets a value.
    #[inline]
    fn resume(&mut self, caller: Frame, value: Value) -> Flow
        ensures { Leads (m.returns (value ∷ self.old.frame.operands) (seen caller ∷ seens self.old.callers)) result (seen self.new.frame) (seens self.new.callers) }
    {
        let gone = mem::replace(&mut self.frame, caller);
        if self.spare.keep(gone).is_err() {
            return Flow::OutOfMemory;
        }
        match self.frame.operands.push_moved(value) {
            Err(_) => Flow::OutOfMemory,
            Ok(()) => Flow::Goes,
        }
    }
}

fn would_return(frame: &Frame, program: &Program) -> bool
    ensures { result ≡ m.is_return (m.fetch (code_of program.now) (seen frame.now)) }
{
    match frame.instr(program) {
        Some(Instr::Return) => true,
        _ => false,
    }
}
