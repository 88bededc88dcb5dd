//! A frame's variables.
ghost use Rattle.std.specs.Prelude.{◌≡◌, ◌≤◌, true, take, ◌++◌, ◌-◌, [], ◌∷◌, length, reverse, replicate, slice_get, slice_set, option_map, Some, IfOk, IfSome, OnOk};
ghost use Rattle.std.specs.Option.{option_copied};
ghost use Rattle.campl_value.specs.Tree.{Nil, Int};
ghost use Rattle.campl_code.specs.Decisions.{value_at, values_at};
ghost use Rattle.campl_code.specs.Frames.{set_from};
ghost use Rattle.campl_operands.specs.Effects.{Sets};

use crate::RowEffect;
use crate::copying::copies;
use campl_instructions::{Spot, value_at};
use campl_value::{Look, Part, Value};
use std::alloc::{AllocError, Global};
use std::marker::Model;
use std::mem;

/// A frame's variables, by their numbers from 0.
#[derive(Drop)]
pub struct Variables {
    items: Vec<Value>,
}

impl Model for Variables {
    ghost use Rattle.std.specs.Prelude.{List};
    ghost use Rattle.std.specs.Coded.{coded_list};
    ghost use Rattle.campl_value.specs.Tree.{Tree, tree_code};

    ghost Value = { List Tree };

    ghost coded = { coded_list tree_code };

    ghost view = { λ variables. variables.items.items };
}

impl Variables {
    /// No variables. It takes no memory.
    pub fn new(alloc: Global) -> Variables
        ensures { result ≡ [] }
    {
        Variables {
            items: Vec::new(alloc),
        }
    }

    /// The same variables, which share their parts with these. An error means that memory is out.
    pub fn copy(&self, alloc: Global) -> Result<Variables, AllocError>
        ensures { IfOk result (λ copy. copy ≡ self.now) }
    {
        match copies(alloc, self.items.as_slice()) {
            Err(error) => Err(error),
            Ok(items) => Ok(Variables { items }),
        }
    }

    /// The value of the variable with this number, where there is one.
    pub fn get(&self, n: u32) -> Option<&Value>
        ensures { option_copied result ≡ slice_get self.now n }
    {
        self.items.get(n as usize)
    }

    /// Sets a variable, where there is one with this number.
    pub fn put(&mut self, n: usize, value: Value)
        ensures { self.new ≡ slice_set self.old n value }
    {
        if n < self.items.len() {
            self.items[n] = value;
        }
    }

    /// Sets a row's variables, from the first on, to the values at these places.
    pub fn put_row(&mut self, values: &[Value], first: u32, spots: &[Spot]) -> RowEffect
        ensures { Sets (option_map (λ ts. set_from first ts self.old) (values_at values.now spots.now)) result self.new }
    {
        for (i, spot) in spots.iter().enumerate() {
            match self.put_part(values, first as usize + i, spot.as_slice()) {
                RowEffect::Done => {}
                RowEffect::Missing => return RowEffect::Missing,
                RowEffect::OutOfMemory => return RowEffect::OutOfMemory,
            }
        }
        RowEffect::Done
    }

    // Sets a variable to the value at this place.
    #[inline]
    fn put_part(&mut self, values: &[Value], n: usize, spot: &[u32]) -> RowEffect
        ensures { Sets (option_map (slice_set self.old n) (value_at values.now spot.now)) result self.new }
    {
        if let Some(x) = int_at(values, spot) {
            self.put(n, Value::int(x));
            return RowEffect::Done;
        }
        // The part is lent where it stands, since a move of it costs more than all else here.
        match &value_at(values, spot) {
            None => RowEffect::Missing,
            Some(part) => self.put_copy(n, part),
        }
    }

    // Sets a variable to a copy of a part.
    #[inline]
    fn put_copy(&mut self, n: usize, part: &Part<'_>) -> RowEffect
        ensures { Sets (Some (slice_set self.old n part.now)) result self.new }
    {
        match part.copy() {
            Err(_) => RowEffect::OutOfMemory,
            Ok(value) => {
                self.put(n, value);
                RowEffect::Done
            }
        }
    }

    /// How many there are.
    #[inline]
    pub fn len(&self) -> usize
        ensures { result ≡ length self.now }
    {
        self.items.len()
    }

    /// The first n variables, where there are so many.
    #[inline]
    pub fn first(&self, n: usize) -> Option<&[Value]>
        ensures { IfSome result (λ values. (n ≤ length self.now) × (values.now ≡ take n self.now)) }
    {
        if n > self.items.len() {
            return None;
        }
        let (values, _) = self.items.as_slice().split_at(n);
        Some(values)
    }

    /// Whether a row of the first variables at these places sets each variable, from `first` on, to what it holds already.
    #[inline]
    pub fn stay(&self, width: usize, first: u32, spots: &[Spot]) -> bool
        ensures { result ≡ true → option_map (λ ts. set_from first ts self.now) (values_at (take width self.now) spots.now) ≡ Some self.now }
    {
        for (i, spot) in spots.iter().enumerate() {
            if !self.stays(width, first as usize + i, spot.as_slice()) {
                return false;
            }
        }
        true
    }

    // Whether the place is that of the variable with this number, which is one of the first.
    #[inline]
    fn stays(&self, width: usize, n: usize, spot: &[u32]) -> bool
        ensures { result ≡ true → option_map (slice_set self.now n) (value_at (take width self.now) spot.now) ≡ Some self.now }
    {
        let Some(k) = only(spot) else {
            return false;
        };
        if k as usize != n {
            return false;
        }
        if n >= width {
            return false;
        }
        if n >= self.len() {
            return false;
        }
        true
    }

    /// Lets all of them go, and keeps their room.
    pub fn clear(&mut self)
        ensures { self.new ≡ [] }
    {
        self.items.clear();
    }

    /// Adds `[]` until there are this many. An error means that memory is out.
    pub fn pad(&mut self, size: usize) -> Result<(), AllocError>
        ensures { OnOk result (self.new ≡ self.old ++ replicate (size - length self.old) Nil) }
    {
        let missing = size.saturating_sub(self.items.len());
        for _i in 0..missing {
            self.push(Value::nil())?;
        }
        Ok(())
    }

    // Adds a variable behind the others.
    pub(crate) fn push(&mut self, value: Value) -> Result<(), AllocError>
        ensures { OnOk result (self.new ≡ self.old ++ value ∷ []) }
    {
        self.items.push(value)?;
        Ok(())
    }

    // The same of a value that stood elsewhere.
    #[inline]
    pub(crate) fn push_moved(&mut self, value: Value) -> Result<(), AllocError>
        ensures { OnOk result (self.new ≡ self.old ++ value ∷ []) }
    {
        match value.look() {
            Look::Int(n) => self.push(Value::int(n)),
            _ => self.push(value),
        }
    }

    pub(crate) fn reverse(&mut self)
        ensures { self.new ≡ reverse self.old }
    {
        self.items.as_mut_slice().reverse();
    }

    // These values become the variables, and the other way round.
    pub(crate) fn swap(&mut self, values: &mut Vec<Value>)
        ensures variables { self.new ≡ values.old.items }
        ensures values { values.new.items ≡ self.old }
    {
        mem::swap(&mut self.items, values);
    }
}

// The integer that is one of these values by itself, where the place is that of one.
#[inline]
fn int_at(values: &[Value], spot: &[u32]) -> Option<i64>
    ensures { IfSome result (λ x. value_at values.now spot.now ≡ Some (Int x)) }
{
    match spot {
        [n] => match values.get(*n as usize) {
            None => None,
            Some(value) => match value.look() {
                Look::Int(x) => Some(x),
                _ => None,
            },
        },
        _ => None,
    }
}

// The number of a value, where the place is that of one by itself.
#[inline]
fn only(spot: &[u32]) -> Option<u32>
    ensures { IfSome result (λ n. spot.now ≡ n ∷ []) }
{
    match spot {
        [n] => Some(*n),
        _ => None,
    }
}
