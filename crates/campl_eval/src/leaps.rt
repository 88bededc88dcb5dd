//! Several instructions at once, as far as integers lead.
ghost use Rattle.std.specs.Prelude.{◌≡◌, ◌<◌, ◌+◌, ◌^◌, ◌∷◌, true, Some, IfOk, IfSome, OnOk, option_map, slice_get};
ghost use Rattle.std.specs.Option.{option_copied};
ghost use Rattle.campl_value.specs.Tree.{Int, Truth};
ghost use Rattle.std.specs.Ordering.{int_cmp};
ghost use Rattle.campl_evaluation.specs.Evaluation.{holds as is_so};
ghost use Rattle.campl_instructions.specs.View.{view_instr, view_block};
ghost use Rattle.campl_eval.specs.Leaps.{Comes, Within, put_by, put_at};
ghost use Rattle.campl_eval.specs.View.{code_of, seen};

use crate::Frame;
use campl_instructions::{Block, Instr, Operation};
use campl_operands::{Variables, calculated, holds};
use campl_program::Program;
use campl_tree::Comparison;
use campl_value::{Look, Value};
use sqlite_items::at as item_at;
use std::alloc::AllocError;

impl Frame {
    /// Passes a match at the front of the frame's block that changes no variable, and goes on in the block as far as integers
    /// lead. An error means that memory is out.
    pub(crate) fn leap(&mut self, program: &Program) -> Result<(), AllocError>
        ensures { OnOk result (Comes (code_of program.now) (seen self.old) (seen self.new)) }
    {
        let Some(block) = program.block(self.block) else {
            return Ok(());
        };
        self.pass(program, block);
        self.go_in(block)
    }

    // Goes on in this block.
    fn go_in(&mut self, block: &Block) -> Result<(), AllocError>
        ensures { OnOk result (Within (view_block block.now) (seen self.old) (seen self.new)) }
    {
        loop {
            match self.hop(block) {
                Err(error) => return Err(error),
                Ok(true) => {}
                Ok(false) => return Ok(()),
            }
        }
    }

    // Does what begins with this instruction, or nothing where that is no matter of integers.
    #[inline]
    #[tactic(auto, using(crate::proofs::Leaping::leaps))]
    fn hop(&mut self, block: &Block) -> Result<bool, AllocError>
        ensures within { OnOk result (Within (view_block block.now) (seen self.old) (seen self.new)) }
        ensures onward { IfOk result (λ on. on ≡ true → (self.old.at < self.new.at) × (self.old.at < 2 ^ 64)) }
    {
        match int_at(block, self.at, &self.variables) {
            None => self.hop_other(block),
            Some(x) => {
                self.with_one(block, self.at + 1, x)?;
                Ok(true)
            }
        }
    }

    // Does a load or a jump.
    #[inline]
    fn hop_other(&mut self, block: &Block) -> Result<bool, AllocError>
        ensures within { OnOk result (Within (view_block block.now) (seen self.old) (seen self.new)) }
        ensures onward { IfOk result (λ on. on ≡ true → (self.old.at < self.new.at) × (self.old.at < 2 ^ 64)) }
    {
        match instr_at(block, self.at) {
            Some(Instr::Load(_)) => self.load(block),
            Some(Instr::Jump(_)) => Ok(self.jump(block)),
            _ => Ok(false),
        }
    }

    // Loads a variable, where that is the instruction.
    #[inline]
    #[tactic(auto, using(crate::proofs::Leaping::leaps))]
    fn load(&mut self, block: &Block) -> Result<bool, AllocError>
        ensures within { OnOk result (Within (view_block block.now) (seen self.old) (seen self.new)) }
        ensures onward { IfOk result (λ on. on ≡ true → (self.old.at < self.new.at) × (self.old.at < 2 ^ 64)) }
    {
        let Some(Instr::Load(v)) = instr_at(block, self.at) else {
            return Ok(false);
        };
        let Some(value) = self.variables.get(*v) else {
            return Ok(false);
        };
        let value = value.copy()?;
        self.put(self.at + 1, value)?;
        Ok(true)
    }

    // Jumps, where that is the instruction, and onward.
    #[inline]
    #[tactic(auto, using(crate::proofs::Leaping::leaps))]
    fn jump(&mut self, block: &Block) -> bool
        ensures within { Within (view_block block.now) (seen self.old) (seen self.new) }
        ensures onward { result ≡ true → (self.old.at < self.new.at) × (self.old.at < 2 ^ 64) }
    {
        match instr_at(block, self.at) {
            Some(Instr::Jump(to)) => {
                let to = *to as usize;
                if self.at < to {
                    self.at = to;
                    return true;
                }
                false
            }
            _ => false,
        }
    }

    // Goes on at this place with an integer on the operands.
    #[inline]
    #[tactic(auto, using(crate::proofs::Leaping::leaps))]
    fn with_one(&mut self, block: &Block, at: usize, x: i64) -> Result<(), AllocError>
        ensures { OnOk result (Within (view_block block.now) (record { block = self.old.block; at = at; vars = self.old.variables; stack = Int x ∷ self.old.operands }) (seen self.new)) }
    {
        match int_at(block, at, &self.variables) {
            None => self.put(at, Value::int(x)),
            Some(y) => self.with_two(block, at + 1, x, y),
        }
    }

    // Goes on at this place with two integers on the operands, of which the second is on top.
    #[inline]
    #[tactic(auto, using(crate::proofs::Leaping::leaps))]
    fn with_two(&mut self, block: &Block, at: usize, x: i64, y: i64) -> Result<(), AllocError>
        ensures { OnOk result (Within (view_block block.now) (record { block = self.old.block; at = at; vars = self.old.variables; stack = Int y ∷ Int x ∷ self.old.operands }) (seen self.new)) }
    {
        match instr_at(block, at) {
            Some(Instr::Op(Operation::Calculate(op))) => {
                self.put(at + 1, Value::int(calculated(*op, x, y)))
            }
            Some(Instr::Op(Operation::Compare(op))) => self.with_compared(block, at + 1, *op, x, y),
            _ => {
                self.operands.push(Value::int(x))?;
                self.put(at, Value::int(y))
            }
        }
    }

    // Goes on at this place with whether two integers compare so on the operands.
    #[inline]
    fn with_compared(
        &mut self,
        block: &Block,
        at: usize,
        op: Comparison,
        x: i64,
        y: i64,
    ) -> Result<(), AllocError>
        ensures { OnOk result (Within (view_block block.now) (record { block = self.old.block; at = at; vars = self.old.variables; stack = Truth (is_so op (int_cmp x y)) ∷ self.old.operands }) (seen self.new)) }
    {
        self.with_truth(block, at, holds(op, x.cmp(&y)))
    }

    // Goes on at this place with a truth on the operands.
    #[inline]
    #[tactic(auto, using(crate::proofs::Leaping::leaps))]
    fn with_truth(&mut self, block: &Block, at: usize, truth: bool) -> Result<(), AllocError>
        ensures { OnOk result (Within (view_block block.now) (record { block = self.old.block; at = at; vars = self.old.variables; stack = Truth truth ∷ self.old.operands }) (seen self.new)) }
    {
        match instr_at(block, at) {
            Some(Instr::Unless(to)) => {
                let to = *to as usize;
                if truth {
                    self.at = at + 1;
                    return Ok(());
                }
                if at < to {
                    self.at = to;
                    return Ok(());
                }
                self.put(at, Value::truth(truth))
            }
            _ => self.put(at, Value::truth(truth)),
        }
    }

    // Puts a value on the operands, at this place.
    #[inline]
    fn put(&mut self, at: usize, value: Value) -> Result<(), AllocError>
        ensures { OnOk result (seen self.new ≡ record { block = self.old.block; at = at; vars = self.old.variables; stack = value ∷ self.old.operands }) }
    {
        self.at = at;
        self.operands.push(value)
    }
}

// The instruction at this place of a block, where there is one.
#[inline]
pub(crate) fn instr_at(block: &Block, place: usize) -> Option<&Instr>
    ensures value { option_map view_instr (option_copied result) ≡ slice_get (view_block block.now).code place }
    ensures room { IfSome result (λ _. place + 1 < 2 ^ 64) }
{
    item_at(block.code.as_slice(), place)
}

// The integer that the instruction at this place puts on the operands, where it is one that puts an integer there.
#[inline]
fn int_at(block: &Block, place: usize, variables: &Variables) -> Option<i64>
    ensures value { IfSome result (λ x. put_at (slice_get (view_block block.now).code place) variables.now ≡ Some (Int x)) }
    ensures room { IfSome result (λ _. place + 1 < 2 ^ 64) }
{
    match instr_at(block, place) {
        None => None,
        Some(instr) => int_by(instr, variables),
    }
}

#[inline]
fn int_by(instr: &Instr, variables: &Variables) -> Option<i64>
    ensures { IfSome result (λ x. put_by (view_instr instr.now) variables.now ≡ Some (Int x)) }
{
    match instr {
        Instr::Int(x) => Some(*x),
        Instr::Load(v) => int_of(variables, *v),
        _ => None,
    }
}

// The variable with this number, where it is an integer.
#[inline]
fn int_of(variables: &Variables, v: u32) -> Option<i64>
    ensures { IfSome result (λ x. slice_get variables.now v ≡ Some (Int x)) }
{
    match variables.get(v) {
        None => None,
        Some(value) => match value.look() {
            Look::Int(x) => Some(x),
            _ => None,
        },
    }
}
