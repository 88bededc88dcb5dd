//! Lists and texts, which may stand in cells or in rows.
use crate::values::{is, list, print_depth};
use anyhow::{Context, Result, bail};
use campl_value::{Look, MAX_DEPTH, Made, Part, Value};
use std::alloc::Global;
use std::io::Write;

// A text that isn't too deep.
pub fn text(alloc: Global, s: &str) -> Result<Value> {
    is(Value::text(alloc, s)?)
}

// A list with another behind it.
fn appended(alloc: Global, left: Value, right: Value) -> Result<Made> {
    left.append(alloc, &right)?.context("the first is no list")
}

// The characters of a text.
fn spelled(alloc: Global, value: Value) -> Result<String> {
    let characters = value.characters(alloc)?.context("it is no text")?;
    Ok(characters.iter().collect(alloc)?)
}

fn print_text(alloc: Global, out: &mut impl Write, name: &str, value: Value) -> Result<()> {
    let depth = value.depth();
    let spelled = spelled(alloc, value)?;
    writeln!(out, "{name}: {spelled}, {depth} deep")?;
    Ok(())
}

// So many letters.
fn letters(alloc: Global, count: u32) -> Result<String> {
    Ok("é".repeat(alloc, count as usize)?)
}

// The longest text, one too long, and one that is appended to the longest.
fn print_longest(alloc: Global, out: &mut impl Write) -> Result<()> {
    let longest = letters(alloc, MAX_DEPTH - 1)?;
    let made = Value::text(alloc, longest.as_str())?;
    print_depth(out, "the longest text", made)?;
    let more = appended(alloc, text(alloc, longest.as_str())?, text(alloc, "e")?)?;
    print_depth(out, "with a letter behind it", more)?;
    let longer = letters(alloc, MAX_DEPTH)?;
    print_depth(
        out,
        "the same at once",
        Value::text(alloc, longer.as_str())?,
    )
}

fn print_appended(alloc: Global, out: &mut impl Write, left: u32, right: u32) -> Result<()> {
    write!(out, "{left} cells and {right}")?;
    print_depth(
        out,
        "",
        appended(alloc, list(alloc, left)?, list(alloc, right)?)?,
    )
}

fn print_no_text(alloc: Global, out: &mut impl Write) -> Result<()> {
    if Value::int(1).append(alloc, &Value::nil())?.is_none() {
        writeln!(out, "an integer is no list")?;
    }
    if list(alloc, 1)?.characters(alloc)?.is_none() {
        writeln!(out, "a list of lists is no text")?;
    }
    Ok(())
}

// The first letter of a text, and what is behind it.
fn parted<'a>(text: &Part<'a>) -> Result<(char, Part<'a>)> {
    let Look::Cell(head, tail) = text.look() else {
        bail!("it is no cell");
    };
    let Look::Char(c) = head.look() else {
        bail!("its head is no letter");
    };
    Ok((c, tail))
}

// Prints the first letter of a text, and answers a copy of what is behind it, which outlives the whole.
fn print_first(out: &mut impl Write, whole: Value) -> Result<Value> {
    let (first, tail) = parted(&whole.part())?;
    writeln!(out, "{first}, then {} deep", tail.depth())?;
    Ok(tail.copy()?)
}

// A text is taken apart, letter by letter.
fn print_parts(alloc: Global, out: &mut impl Write) -> Result<()> {
    let whole = is(Value::text_of(alloc, ['a', 'β', 'c'].as_slice())?)?;
    let rest = print_first(out, whole)?;
    print_text(alloc, out, "the rest", rest.copy()?)?;
    let rest = print_first(out, rest)?;
    let last = print_first(out, rest)?;
    print_text(alloc, out, "the last", last)
}

// The cell of a letter before a value.
pub fn cell(alloc: Global, letter: char, behind: Value) -> Result<Value> {
    is(Value::cell(alloc, Value::character(letter), behind)?)
}

// The text "ab" in cells.
fn cells(alloc: Global) -> Result<Value> {
    cell(alloc, 'a', cell(alloc, 'b', Value::nil())?)
}

// A text of one row and the same text of cells, and a cell in front of a row.
fn print_rows(alloc: Global, out: &mut impl Write) -> Result<()> {
    print_text(alloc, out, "cells", cells(alloc)?)?;
    print_text(alloc, out, "a row", text(alloc, "ab")?)?;
    let longer = cell(alloc, 'x', text(alloc, "ab")?)?;
    print_text(alloc, out, "a cell before a row", longer.copy()?)?;
    let both = is(appended(alloc, longer, cells(alloc)?)?)?;
    print_text(alloc, out, "a cell, a row and cells", both)
}

// The longest text, each of whose letters stands in a row of its own.
fn rows_of_one(alloc: Global) -> Result<Value> {
    let mut rows = Value::nil();
    for _ in 1..MAX_DEPTH {
        rows = is(appended(alloc, text(alloc, "x")?, rows)?)?;
    }
    Ok(rows)
}

pub fn print_lists(alloc: Global, out: &mut impl Write) -> Result<()> {
    print_longest(alloc, out)?;
    print_appended(alloc, out, 2000, 2095)?;
    print_appended(alloc, out, 2001, 2095)?;
    print_appended(alloc, out, 2000, 2096)?;
    let both = appended(alloc, text(alloc, "aβ")?, text(alloc, "c")?)?;
    print_text(alloc, out, "aβ and c", is(both)?)?;
    print_no_text(alloc, out)?;
    print_parts(alloc, out)?;
    print_rows(alloc, out)?;
    print_depth(out, "rows of one letter", Made::Is(rows_of_one(alloc)?))
}
