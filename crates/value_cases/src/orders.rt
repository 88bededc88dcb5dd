//! The order of values.
use crate::lists::{cell, text};
use anyhow::Result;
use campl_value::Value;
use std::alloc::Global;
use std::cmp::Ordering;
use std::io::Write;

fn word(order: Option<Ordering>) -> &'static str {
    match order {
        Some(Ordering::Less) => "less",
        Some(Ordering::Equal) => "equal",
        Some(Ordering::Greater) => "greater",
        None => "no order",
    }
}

// The order of two values, that of the second and the first, and that of the first and itself.
fn words(left: Value, right: Value) -> [&'static str; 3] {
    [
        word(left.compare(&right)),
        word(right.compare(&left)),
        word(left.compare(&left)),
    ]
}

fn print_order(out: &mut impl Write, name: &str, left: Value, right: Value) -> Result<()> {
    let [there, back, alone] = words(left, right);
    writeln!(out, "{name}: {there}, and back {back}, and alone {alone}")?;
    Ok(())
}

fn print_texts(alloc: Global, out: &mut impl Write, left: &str, right: &str) -> Result<()> {
    write!(out, "\"{left}\" to \"{right}\"")?;
    print_order(out, "", text(alloc, left)?, text(alloc, right)?)
}

pub fn print_orders(alloc: Global, out: &mut impl Write) -> Result<()> {
    print_order(out, "-2 to 1", Value::int(-2), Value::int(1))?;
    print_order(
        out,
        "'b' to 'B'",
        Value::character('b'),
        Value::character('B'),
    )?;
    print_order(
        out,
        "False to True",
        Value::truth(false),
        Value::truth(true),
    )?;
    print_order(out, "1 to True", Value::int(1), Value::truth(true))?;
    print_order(out, "[] to 1", Value::nil(), Value::int(1))?;
    for (left, right) in [("", "a"), ("a", "ab"), ("ab", "b"), ("Z", "a"), ("z", "é")] {
        print_texts(alloc, out, left, right)?;
    }
    let longer = cell(alloc, 'a', text(alloc, "b")?)?;
    print_order(out, "a row to a cell and a row", text(alloc, "ab")?, longer)
}
