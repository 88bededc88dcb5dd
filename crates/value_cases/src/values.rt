//! How deep values are, and how deep they may be.
use anyhow::{Result, bail};
use campl_value::{MAX_DEPTH, Made, Value};
use std::alloc::{AllocError, Global};
use std::io::Write;

// How deep a value is that was made, and `None` where it would be too deep.
fn depth_of(made: Made) -> Option<u32> {
    match made {
        Made::Is(value) => Some(value.depth()),
        Made::TooDeep => None,
    }
}

// Prints how deep a value is that was made, or that it would be too deep.
pub fn print_depth(out: &mut impl Write, name: &str, made: Made) -> Result<()> {
    match depth_of(made) {
        Some(depth) => writeln!(out, "{name}: {depth} deep")?,
        None => writeln!(out, "{name}: too deep")?,
    }
    Ok(())
}

// A value that isn't too deep.
pub fn is(made: Made) -> Result<Value> {
    match made {
        Made::Is(value) => Ok(value),
        Made::TooDeep => bail!("a value is too deep"),
    }
}

// A list of so many empty lists, of depth one more.
pub fn list(alloc: Global, cells: u32) -> Result<Value> {
    let mut list = Value::nil();
    for _ in 0..cells {
        list = is(Value::cell(alloc, Value::nil(), list)?)?;
    }
    Ok(list)
}

fn one_part(alloc: Global, part: Value) -> std::result::Result<Made, AllocError> {
    let mut parts = Vec::new(alloc);
    parts.push(part)?;
    Value::construct(alloc, 0, parts)
}

// A cell, a pair and a constructor with a list of so many cells.
fn print_above(alloc: Global, out: &mut impl Write, cells: u32) -> Result<()> {
    let head = Value::cell(alloc, list(alloc, cells)?, Value::nil())?;
    print_depth(out, "a cell of it", head)?;
    let tail = Value::cell(alloc, Value::nil(), list(alloc, cells)?)?;
    print_depth(out, "a cell before it", tail)?;
    let pair = Value::pair(alloc, list(alloc, cells)?, Value::nil())?;
    print_depth(out, "a pair of it and nothing", pair)?;
    let pair = Value::pair(alloc, Value::nil(), list(alloc, cells)?)?;
    print_depth(out, "a pair of nothing and it", pair)?;
    print_depth(
        out,
        "a constructor of it",
        one_part(alloc, list(alloc, cells)?)?,
    )
}

fn print_small(alloc: Global, out: &mut impl Write) -> Result<()> {
    print_depth(out, "an integer", Made::Is(Value::int(-7)))?;
    print_depth(out, "a character", Made::Is(Value::character('x')))?;
    print_depth(out, "a truth", Made::Is(Value::truth(true)))?;
    let pair = Value::pair(alloc, Value::int(1), Value::nil())?;
    print_depth(out, "a pair", pair)?;
    let nothing = Value::construct(alloc, 4, Vec::new(alloc))?;
    print_depth(out, "a constructor without parts", nothing)
}

// As a tree it has 2 to the 4,000 places, and only its 4,001 nodes exist.
fn doubled(alloc: Global) -> Result<Value> {
    let mut doubled = Value::int(1);
    for _ in 0..4000 {
        let half = doubled.copy()?;
        doubled = is(Value::pair(alloc, half, doubled)?)?;
    }
    Ok(doubled)
}

// Constructors of one part, as deep as values go.
fn constructors(alloc: Global) -> Result<Value> {
    let mut tree = Value::nil();
    for _ in 1..MAX_DEPTH {
        tree = is(one_part(alloc, tree)?)?;
    }
    Ok(tree)
}

pub fn print_values(alloc: Global, out: &mut impl Write) -> Result<()> {
    print_small(alloc, out)?;
    writeln!(out, "of a list that is {} deep:", MAX_DEPTH - 1)?;
    print_above(alloc, out, MAX_DEPTH - 2)?;
    writeln!(out, "of a list that is {MAX_DEPTH} deep:")?;
    print_above(alloc, out, MAX_DEPTH - 1)?;
    print_depth(out, "a pair of pairs, doubled", Made::Is(doubled(alloc)?))?;
    print_depth(
        out,
        "constructors in one another",
        Made::Is(constructors(alloc)?),
    )
}
