//! What instructions do with the operands.
ghost use Rattle.std.specs.Prelude.{[], slice_get};
ghost use Rattle.campl_value.specs.Tree.{Tree, Cell as CellTree, Pair as PairTree};
ghost use Rattle.campl_value.specs.Text.{text_of};
ghost use Rattle.campl_code.specs.Machine.{popped};
ghost use Rattle.campl_code.specs.Results as r;
ghost use Rattle.campl_instructions.specs.View.{view_instr, view_operation};
ghost use Rattle.campl_operands.specs.Effects.{Tells, pushed, on_one, on_two, operated, built_of, made};

use crate::operations::{calculate, char_of, code_of, compare, negate};
use crate::{Effect, Operands, Variables};
use campl_instructions::{Instr, Operation};
use campl_tree::{Arithmetic, Comparison};
use campl_value::{Made, Value};
use std::alloc::Global;

impl Operands {
    /// Does an instruction that makes a value of the operands and variables. Any other one is faulty here. What a break or want
    /// of memory leaves isn't said.
    #[inline]
    pub fn make(&mut self, alloc: Global, variables: &Variables, instr: &Instr) -> Effect
        ensures { Tells (made (view_instr instr.now) variables.now self.old) result self.new }
    {
        match instr {
            Instr::Int(n) => self.constant(Value::int(*n)),
            Instr::Char(c) => self.constant(Value::character(*c)),
            Instr::Truth(b) => self.constant(Value::truth(*b)),
            Instr::Nil => self.constant(Value::nil()),
            Instr::Text(characters) => self.text(alloc, characters.as_slice()),
            Instr::Load(n) => self.load(variables, *n),
            Instr::Cons => self.cons(alloc),
            Instr::Pair => self.pair(alloc),
            Instr::Build(constructor, n) => self.build(alloc, *constructor, *n),
            Instr::Op(operation) => self.operate(alloc, *operation),
            _ => Effect::Faulty,
        }
    }

    // Puts a value on top.
    #[inline]
    fn constant(&mut self, value: Value) -> Effect
        ensures { Tells (pushed self.old (r.Value value)) result self.new }
    {
        match self.push(value) {
            Err(_) => Effect::OutOfMemory,
            Ok(()) => Effect::Done,
        }
    }

    // Puts a text on top.
    fn text(&mut self, alloc: Global, characters: &[char]) -> Effect
        ensures { Tells (pushed self.old (r.fitting (text_of characters.now))) result self.new }
    {
        match Value::text_of(alloc, characters) {
            Err(_) => Effect::OutOfMemory,
            Ok(Made::TooDeep) => Effect::TooDeep,
            Ok(Made::Is(value)) => self.constant(value),
        }
    }

    // Puts the value of the variable with this number on top. It is faulty where there is none.
    #[inline]
    fn load(&mut self, variables: &Variables, n: u32) -> Effect
        ensures { Tells (pushed self.old (r.perhaps (slice_get variables.now n) r.Value)) result self.new }
    {
        match variables.get(n) {
            None => Effect::Faulty,
            Some(value) => match value.copy() {
                Err(_) => Effect::OutOfMemory,
                Ok(value) => self.constant(value),
            },
        }
    }

    // Makes a cell of the two on top: the head, and on it the tail.
    fn cons(&mut self, alloc: Global) -> Effect
        ensures { Tells (on_two self.old (λ v u. r.fitting (CellTree v u))) result self.new }
    {
        let Some(right) = self.pop() else {
            return Effect::Faulty;
        };
        let Some(left) = self.pop() else {
            return Effect::Faulty;
        };
        match Value::cell(alloc, left, right) {
            Err(_) => Effect::OutOfMemory,
            Ok(Made::TooDeep) => Effect::TooDeep,
            Ok(Made::Is(value)) => self.constant(value),
        }
    }

    // Makes a pair of the two on top, of which the upper one is its second part.
    fn pair(&mut self, alloc: Global) -> Effect
        ensures { Tells (on_two self.old (λ v u. r.fitting (PairTree v u))) result self.new }
    {
        let Some(right) = self.pop() else {
            return Effect::Faulty;
        };
        let Some(left) = self.pop() else {
            return Effect::Faulty;
        };
        match Value::pair(alloc, left, right) {
            Err(_) => Effect::OutOfMemory,
            Ok(Made::TooDeep) => Effect::TooDeep,
            Ok(Made::Is(value)) => self.constant(value),
        }
    }

    // Makes the value of a constructor of the topmost n operands.
    fn build(&mut self, alloc: Global, constructor: u32, n: u32) -> Effect
        ensures { Tells (built_of constructor (popped n [] self.old)) result self.new }
    {
        let n = n as usize;
        if n > self.len() {
            return Effect::Faulty;
        }
        let Ok(parts) = self.take_top(n) else {
            return Effect::OutOfMemory;
        };
        match Value::construct(alloc, constructor, parts) {
            Err(_) => Effect::OutOfMemory,
            Ok(Made::TooDeep) => Effect::TooDeep,
            Ok(Made::Is(value)) => self.constant(value),
        }
    }

    // Does an operation on the one or two on top.
    #[inline]
    fn operate(&mut self, alloc: Global, operation: Operation) -> Effect
        ensures { Tells (operated (view_operation operation) self.old) result self.new }
    {
        match operation {
            Operation::Calculate(op) => self.calculate(op),
            Operation::Compare(op) => self.compare(op),
            Operation::Append => self.append(alloc),
            Operation::Negate => self.negate(),
            Operation::CodeOf => self.code_of(),
            Operation::CharOf => self.char_of(),
        }
    }

    // Calculates with the two on top.
    fn calculate(&mut self, op: Arithmetic) -> Effect
        ensures { Tells (on_two self.old (r.calculates op)) result self.new }
    {
        let Some(right) = self.pop() else {
            return Effect::Faulty;
        };
        let Some(left) = self.pop() else {
            return Effect::Faulty;
        };
        match calculate(op, &left, &right) {
            None => Effect::Faulty,
            Some(value) => self.constant(value),
        }
    }

    // Compares the two on top.
    fn compare(&mut self, op: Comparison) -> Effect
        ensures { Tells (on_two self.old (r.compares op)) result self.new }
    {
        let Some(right) = self.pop() else {
            return Effect::Faulty;
        };
        let Some(left) = self.pop() else {
            return Effect::Faulty;
        };
        match compare(op, &left, &right) {
            None => Effect::Faulty,
            Some(value) => self.constant(value),
        }
    }

    // Puts the list on top behind the one below it.
    fn append(&mut self, alloc: Global) -> Effect
        ensures { Tells (on_two self.old r.appends) result self.new }
    {
        let Some(right) = self.pop() else {
            return Effect::Faulty;
        };
        let Some(left) = self.pop() else {
            return Effect::Faulty;
        };
        match left.append(alloc, &right) {
            Err(_) => Effect::OutOfMemory,
            Ok(None) => Effect::Faulty,
            Ok(Some(Made::TooDeep)) => Effect::TooDeep,
            Ok(Some(Made::Is(value))) => self.constant(value),
        }
    }

    // Changes the sign of the top.
    fn negate(&mut self) -> Effect
        ensures { Tells (on_one self.old r.negates) result self.new }
    {
        let Some(operand) = self.pop() else {
            return Effect::Faulty;
        };
        match negate(&operand) {
            None => Effect::Faulty,
            Some(value) => self.constant(value),
        }
    }

    // Makes a number of a character.
    fn code_of(&mut self) -> Effect
        ensures { Tells (on_one self.old r.codes) result self.new }
    {
        let Some(operand) = self.pop() else {
            return Effect::Faulty;
        };
        match code_of(&operand) {
            None => Effect::Faulty,
            Some(value) => self.constant(value),
        }
    }

    // Makes a character of a number.
    fn char_of(&mut self) -> Effect
        ensures { Tells (on_one self.old r.chars) result self.new }
    {
        let Some(operand) = self.pop() else {
            return Effect::Faulty;
        };
        match char_of(&operand) {
            None => Effect::Faulty,
            Some(value) => self.constant(value),
        }
    }
}
