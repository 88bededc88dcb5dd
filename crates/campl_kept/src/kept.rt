//! A process's evaluation, kept advanced.
ghost use Rattle.std.specs.Prelude.{◌≡◌, [], true, false, IfOk, IfSome, OnOk, OnErr};
ghost use Rattle.campl_code.specs.Frames.{frame_at};
ghost use Rattle.campl_code_bodies.specs.Commands.{Cell};
ghost use Rattle.campl_code_bodies.specs.Kept.{AtCall as at_call, IsKept, Values, spent_more};
ghost use Rattle.campl_eval.specs.View.{code_of, seen, seens};
ghost use Rattle.campl_kept.specs.View.{view_kept, is_lost, came_to, IsValues};
ghost use Rattle.campl_kept.specs.Keeps.{Keeps};

use crate::command::{all_made, code_from, reach};
use campl_eval::{Eval, Frame, Machine, Turn};
use campl_operands::{Variables, copies};
use campl_program::Program;
use campl_value::Value;
use std::alloc::{AllocError, Global};
use std::mem;

/// An evaluation that has gone on as far as its calls reach.
pub enum Kept {
    /// It is at the process's instruction at this place, with the process's variables, and the values of the instruction's
    /// expressions in their order.
    Values {
        at: usize,
        variables: Variables,
        values: Vec<Value>,
    },
    /// It stands before a call. The evaluation is big, and few steps move it: it has a place of its own.
    AtCall(Box<Eval>),
    /// A value would be too deep, or an instruction can't be done.
    Broken,
}

impl Drop for Kept {
    fn drop(self) {
        match self {
            Kept::Values {
                at: _,
                variables,
                values,
            } => {
                drop(variables);
                drop(values);
            }
            Kept::AtCall(eval) => drop(eval),
            Kept::Broken => {}
        }
    }
}

/// A command whose expressions are evaluated: its place, and their values in their order.
#[derive(Drop)]
pub struct Reached {
    pub at: usize,
    pub values: Vec<Value>,
}

/// The command at this place of a block, where no jump, match or call is before it and nothing breaks. Functions are numbered
/// first, then processes. An error means that memory is out.
pub fn go_straight(
    alloc: Global,
    program: &Program,
    block: usize,
    at: usize,
    variables: &Variables,
) -> Result<Option<Reached>, AllocError>
    ensures { IfOk result (λ r. IfSome r (λ r. Keeps (code_of program.now) (frame_at block at variables.now) [] 0 (Values r.at variables.now r.values.items))) }
{
    let code = code_from(program, block, at);
    let Some(n) = reach(code) else {
        return Ok(None);
    };
    let Some(to) = at.checked_add(n) else {
        return Ok(None);
    };
    match all_made(alloc, &code[..n], variables) {
        Err(error) => Err(error),
        Ok(None) => Ok(None),
        Ok(Some(mut operands)) => Ok(Some(Reached {
            at: to,
            values: operands.take_all(alloc),
        })),
    }
}

impl Kept {
    /// The evaluation of the command at this place of a block, with these variables, before any call. Functions are numbered
    /// first, then processes. An error means that memory is out, and drops the variables.
    pub fn begin(
        alloc: Global,
        program: &Program,
        block: usize,
        at: usize,
        variables: Variables,
    ) -> Result<Kept, AllocError>
        ensures { IfOk result (λ kept. Keeps (code_of program.now) (frame_at block at variables) [] 0 (view_kept kept)) }
    {
        match go_straight(alloc, program, block, at, &variables) {
            Err(error) => return Err(error),
            Ok(None) => {}
            Ok(Some(Reached { at, values })) => {
                return Ok(Kept::Values {
                    at,
                    variables,
                    values,
                });
            }
        }
        // Called at one place alone, it is compiled where it is called, which saves moves.
        evaluate(alloc, program, block, at, variables)
    }

    /// Gives so many more calls, which change nothing but where it stands before one. The error means that memory is out, and
    /// comes from then on: what was kept is lost. Copy it first where it must stay.
    pub fn advance(
        &mut self,
        alloc: Global,
        program: &Program,
        calls: u64,
    ) -> Result<(), AllocError>
        ensures kept { OnOk result ((c : Cell) → IsKept (code_of program.now) c (view_kept self.old) → IsKept (code_of program.now) (spent_more calls c) (view_kept self.new)) }
        ensures ok { OnOk result (is_lost self.old ≡ false) }
        ensures out { OnErr result (is_lost self.new ≡ true) }
    {
        let came = match self {
            Kept::Values { .. } => return Ok(()),
            Kept::Broken => return Ok(()),
            Kept::AtCall(eval) => match go_on(alloc, program, eval.as_mut(), calls) {
                Err(error) => return Err(error),
                Ok(came) => came,
            },
        };
        match came {
            None => {}
            Some(kept) => *self = kept,
        }
        Ok(())
    }

    /// The same again, which shares the parts of its values with this one. An error means that memory is out.
    pub fn copy(&self, alloc: Global) -> Result<Kept, AllocError>
        ensures kept { IfOk result (λ copy. view_kept copy ≡ view_kept self.now) }
        ensures lost { IfOk result (λ copy. is_lost copy ≡ is_lost self.now) }
    {
        match self {
            Kept::Values {
                at,
                variables,
                values,
            } => copy_values(alloc, *at, variables, values.as_slice()),
            Kept::AtCall(eval) => copy_call(alloc, eval.as_ref()),
            Kept::Broken => Ok(Kept::Broken),
        }
    }
}

fn copy_values(
    alloc: Global,
    at: usize,
    variables: &Variables,
    values: &[Value],
) -> Result<Kept, AllocError>
    ensures kept { IfOk result (λ copy. IsValues copy at variables.now values.now) }
    ensures lost { IfOk result (λ copy. is_lost copy ≡ false) }
{
    let Ok(values) = copies(alloc, values) else {
        return Err(AllocError);
    };
    let Ok(variables) = variables.copy(alloc) else {
        return Err(AllocError);
    };
    Ok(Kept::Values {
        at,
        variables,
        values,
    })
}

// A copy of what stands before a call.
fn copy_call(alloc: Global, eval: &Eval) -> Result<Kept, AllocError>
    ensures kept { IfOk result (λ copy. view_kept copy ≡ at_call (seen eval.now.machine.frame) (seens eval.now.machine.callers)) }
    ensures lost { IfOk result (λ copy. is_lost copy ≡ eval.now.is_out) }
{
    match eval.copy(alloc) {
        Err(error) => Err(error),
        Ok(copy) => before_call(alloc, copy),
    }
}

// An evaluation that stands before a call.
fn before_call(alloc: Global, eval: Eval) -> Result<Kept, AllocError>
    ensures kept { IfOk result (λ kept. view_kept kept ≡ at_call (seen eval.machine.frame) (seens eval.machine.callers)) }
    ensures lost { IfOk result (λ kept. is_lost kept ≡ eval.is_out) }
{
    match Box::new(alloc, eval) {
        Err(_) => Err(AllocError),
        Ok(eval) => Ok(Kept::AtCall(eval)),
    }
}

// The same by the machine, as far as the first call.
#[inline]
fn evaluate(
    alloc: Global,
    program: &Program,
    block: usize,
    at: usize,
    variables: Variables,
) -> Result<Kept, AllocError>
    ensures { IfOk result (λ kept. Keeps (code_of program.now) (frame_at block at variables) [] 0 (view_kept kept)) }
{
    let mut eval = Eval::start(alloc, block, at, variables);
    match eval.run(alloc, program, 0) {
        Err(error) => Err(error),
        Ok(Turn::More) => before_call(alloc, eval),
        Ok(Turn::Done(values, _)) => Ok(values_from(eval, values)),
        Ok(Turn::TooDeep(_)) => Ok(Kept::Broken),
        Ok(Turn::Faulty(_)) => Ok(Kept::Broken),
    }
}

// The values with the place and the variables of an evaluation that is over.
fn values_from(eval: Eval, values: Vec<Value>) -> Kept
    ensures { IsValues result eval.machine.frame.at eval.machine.frame.variables values.items }
{
    let Eval { machine, .. } = eval;
    let Machine {
        frame,
        callers,
        spare,
    } = machine;
    drop(callers);
    drop(spare);
    let Frame {
        at,
        variables,
        operands,
        ..
    } = frame;
    drop(operands);
    Kept::Values {
        at,
        variables,
        values,
    }
}

// Gives an evaluation so many more calls. What it came to is answered, or nothing where it stands before a call again.
fn go_on(
    alloc: Global,
    program: &Program,
    eval: &mut Eval,
    calls: u64,
) -> Result<Option<Kept>, AllocError>
    ensures came { IfOk result (λ came. Keeps (code_of program.now) (seen eval.old.machine.frame) (seens eval.old.machine.callers) calls (came_to came (seen eval.new.machine.frame) (seens eval.new.machine.callers))) }
    ensures ok { OnOk result (eval.old.is_out ≡ false) }
    ensures out { OnErr result (eval.new.is_out ≡ true) }
{
    // The calls of each turn are counted by themselves.
    eval.spent = 0;
    match eval.run(alloc, program, calls) {
        Err(error) => Err(error),
        Ok(Turn::More) => Ok(None),
        Ok(Turn::Done(values, _)) => Ok(Some(values_of(alloc, eval, values))),
        Ok(Turn::TooDeep(_)) => Ok(Some(Kept::Broken)),
        Ok(Turn::Faulty(_)) => Ok(Some(Kept::Broken)),
    }
}

// The values with the place and the variables of an evaluation, which has them no more.
fn values_of(alloc: Global, eval: &mut Eval, values: Vec<Value>) -> Kept
    ensures { IsValues result eval.old.machine.frame.at eval.old.machine.frame.variables values.items }
{
    let at = eval.machine.frame.at;
    let variables = mem::replace(&mut eval.machine.frame.variables, Variables::new(alloc));
    Kept::Values {
        at,
        variables,
        values,
    }
}
