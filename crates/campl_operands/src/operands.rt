//! Operands.
ghost use Rattle.std.specs.Prelude.{◌≡◌, ◌≤◌, ◌<◌, [], ◌∷◌, length, reverse, take, drop, IfOk, OnOk, MatchOption};

use crate::Variables;
use crate::copying::copies;
use campl_value::{Look, Value};
use std::alloc::{AllocError, Global};
use std::marker::Model;
use std::mem;

/// Operands on one another. Contracts see the top first.
#[derive(Drop)]
pub struct Operands {
    items: Vec<Value>,
}

impl Model for Operands {
    ghost use Rattle.std.specs.Prelude.{List, reverse};
    ghost use Rattle.std.specs.Coded.{coded_list};
    ghost use Rattle.campl_value.specs.Tree.{Tree, tree_code};

    ghost Value = { List Tree };

    ghost coded = { coded_list tree_code };

    ghost view = { λ operands. reverse operands.items.items };
}

impl Operands {
    /// No operands. It takes no memory.
    pub fn new(alloc: Global) -> Operands
        ensures { result ≡ [] }
    {
        Operands {
            items: Vec::new(alloc),
        }
    }

    /// How many there are.
    pub fn len(&self) -> usize
        ensures { result ≡ length self.now }
    {
        self.items.len()
    }

    /// The same operands, which share their parts with these. An error means that memory is out.
    pub fn copy(&self, alloc: Global) -> Result<Operands, AllocError>
        ensures { IfOk result (λ copy. copy ≡ self.now) }
    {
        match copies(alloc, self.items.as_slice()) {
            Err(error) => Err(error),
            Ok(items) => Ok(Operands { items }),
        }
    }

    /// Puts a value on top. An error means that memory is out.
    pub fn push(&mut self, value: Value) -> Result<(), AllocError>
        ensures { OnOk result (self.new ≡ value ∷ self.old) }
    {
        self.items.push(value)?;
        Ok(())
    }

    /// The same of a value that stood elsewhere. An integer is written anew, which costs less than to move it.
    #[inline]
    pub fn push_moved(&mut self, value: Value) -> Result<(), AllocError>
        ensures { OnOk result (self.new ≡ value ∷ self.old) }
    {
        match value.look() {
            Look::Int(n) => self.push(Value::int(n)),
            _ => self.push(value),
        }
    }

    /// Takes the top, where there is one.
    pub fn pop(&mut self) -> Option<Value>
        ensures { MatchOption result ((self.old ≡ []) × (self.new ≡ [])) (λ top. self.old ≡ top ∷ self.new) }
    {
        self.items.pop()
    }

    /// Lets all of them go, and keeps their room.
    pub fn clear(&mut self)
        ensures { self.new ≡ [] }
    {
        self.items.clear();
    }

    /// The topmost n operands, in the order in which they came; None where there are fewer.
    pub fn top(&self, n: usize) -> Option<&[Value]>
        ensures { MatchOption result (length self.now < n) (λ values. (n ≤ length self.now) × (values.now ≡ reverse (take n self.now))) }
    {
        let len = self.items.len();
        if n > len {
            return None;
        }
        let (_, values) = self.items.as_slice().split_at(len - n);
        Some(values)
    }

    /// Lets the topmost n operands go.
    pub fn drop_top(&mut self, n: usize)
        requires { n ≤ length self.old }
        ensures { self.new ≡ drop n self.old }
    {
        let at = self.items.len() - n;
        self.items.truncate(at);
    }

    /// Takes the topmost n operands, in the order in which they came. An error means that memory is out.
    pub fn take_top(&mut self, n: usize) -> Result<Vec<Value>, AllocError>
        requires { n ≤ length self.old }
        ensures taken { IfOk result (λ taken. taken.items ≡ reverse (take n self.old)) }
        ensures rest { OnOk result (self.new ≡ drop n self.old) }
    {
        let at = self.items.len() - n;
        let taken = self.items.split_off(at)?;
        Ok(taken)
    }

    /// Takes all operands, in the order in which they came. It takes no memory.
    pub fn take_all(&mut self, alloc: Global) -> Vec<Value>
        ensures taken { result.items ≡ reverse self.old }
        ensures rest { self.new ≡ [] }
    {
        mem::replace(&mut self.items, Vec::new(alloc))
    }

    /// Moves the topmost n operands to the variables, of which there were none, in the order in which they came. An error means
    /// that memory is out.
    pub fn move_top(&mut self, n: usize, variables: &mut Variables) -> Result<(), AllocError>
        requires none { variables.old ≡ [] }
        requires there { n ≤ length self.old }
        ensures moved { OnOk result (variables.new ≡ reverse (take n self.old)) }
        ensures rest { OnOk result (self.new ≡ drop n self.old) }
    {
        for _i in 0..n {
            let Some(value) = self.pop() else {
                return Ok(());
            };
            variables.push_moved(value)?;
        }
        if n > 1 {
            variables.reverse();
        }
        Ok(())
    }

    /// The same, at less cost where there are no other operands.
    pub fn give_top(&mut self, n: usize, variables: &mut Variables) -> Result<(), AllocError>
        requires none { variables.old ≡ [] }
        requires there { n ≤ length self.old }
        ensures moved { OnOk result (variables.new ≡ reverse (take n self.old)) }
        ensures rest { OnOk result (self.new ≡ drop n self.old) }
    {
        if self.len() == n {
            self.become_variables(variables);
            return Ok(());
        }
        self.move_top(n, variables)
    }

    /// The operands become the variables, in the order in which they came, and those are gone. It takes no memory.
    pub fn become_variables(&mut self, variables: &mut Variables)
        ensures variables { variables.new ≡ reverse self.old }
        ensures operands { self.new ≡ [] }
    {
        variables.swap(&mut self.items);
        self.items.clear();
    }
}
