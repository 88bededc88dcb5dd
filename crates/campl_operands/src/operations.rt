//! What operations make of values.
ghost use Rattle.std.specs.Prelude.{◌≡◌, ℤ, Some, None, pos};
ghost use Rattle.std.specs.Int.{w64, int_wrapping_neg};
ghost use Rattle.campl_value.specs.Tree.{Tree, Int, Char, Truth};
ghost use Rattle.campl_value.specs.Compare.{compared};
ghost use Rattle.campl_evaluation.specs.Evaluation.{calculated as calculation, char_of as character_of, holds as is_so};
ghost use Rattle.campl_code.specs.Results as r;
ghost use Rattle.campl_operands.specs.Effects.{IsResult};

use campl_tree::{Arithmetic, Comparison};
use campl_value::{Look, Value};
use std::cmp::Ordering;

/// The left and the right operand calculated with; None where one of them is no integer.
pub(crate) fn calculate(op: Arithmetic, left: &Value, right: &Value) -> Option<Value>
    ensures { IsResult (r.calculates op left.now right.now) result }
{
    match (left.look(), right.look()) {
        (Look::Int(x), Look::Int(y)) => Some(Value::int(calculated(op, x, y))),
        _ => None,
    }
}

/// The two integers calculated with, as 64 bits hold it.
#[inline]
pub fn calculated(op: Arithmetic, x: i64, y: i64) -> i64
    ensures { result ≡ calculation op x y }
{
    match op {
        Arithmetic::Add => x.wrapping_add(y),
        Arithmetic::Subtract => x.wrapping_sub(y),
        Arithmetic::Multiply => x.wrapping_mul(y),
        Arithmetic::Divide => {
            if y == 0 {
                return 0;
            }
            x.wrapping_div(y)
        }
        Arithmetic::Remainder => {
            if y == 0 {
                return x;
            }
            x.wrapping_rem(y)
        }
    }
}

/// Whether the two compare so; None where they have no order.
pub(crate) fn compare(op: Comparison, left: &Value, right: &Value) -> Option<Value>
    ensures { IsResult (r.compares op left.now right.now) result }
{
    match left.compare(right) {
        None => None,
        Some(order) => Some(Value::truth(holds(op, order))),
    }
}

/// Whether two values in this order compare so.
#[inline]
pub fn holds(op: Comparison, order: Ordering) -> bool
    ensures { result ≡ is_so op order }
{
    match op {
        Comparison::Equal => order == Ordering::Equal,
        Comparison::Different => order != Ordering::Equal,
        Comparison::Less => order == Ordering::Less,
        Comparison::AtMost => order != Ordering::Greater,
        Comparison::Greater => order == Ordering::Greater,
        Comparison::AtLeast => order != Ordering::Less,
    }
}

/// The integer with the other sign; None where the value is no integer.
pub(crate) fn negate(value: &Value) -> Option<Value>
    ensures { IsResult (r.negates value.now) result }
{
    match value.look() {
        Look::Int(x) => Some(Value::int(x.wrapping_neg())),
        _ => None,
    }
}

/// A character's number; None where the value is no character.
pub(crate) fn code_of(value: &Value) -> Option<Value>
    ensures { IsResult (r.codes value.now) result }
{
    match value.look() {
        Look::Char(c) => Some(Value::int(i64::from(u32::from(c)))),
        _ => None,
    }
}

/// The character with this number; None where the value is no integer.
pub(crate) fn char_of(value: &Value) -> Option<Value>
    ensures { IsResult (r.chars value.now) result }
{
    match value.look() {
        Look::Int(x) => Some(Value::character(character(x))),
        _ => None,
    }
}

fn character(x: i64) -> char
    ensures { result ≡ character_of x }
{
    match u32::try_from(x) {
        Err(_) => char::REPLACEMENT_CHARACTER,
        Ok(n) => match char::from_u32(n) {
            None => char::REPLACEMENT_CHARACTER,
            Some(c) => c,
        },
    }
}
