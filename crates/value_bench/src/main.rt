//! Copies, builds and drops values, so that the time they take can be compared.
//!
//! `value_bench list N` copies and drops a list of 4,000 cells N times, `value_bench int N` an integer, and
//! `value_bench build N` builds and drops that list N times. Of a text of 4,000 characters, `text N` builds and drops it,
//! `read N` reads its characters, `compare N` compares it with an equal one, `append N` puts 2,000 characters before 2,000
//! others, and `rows N` builds and drops it by putting each letter before the rest, N times each.
#![tactic(auto)]

use anyhow::{Context, Result, bail};
use campl_value::{Made, Value};
use std::alloc::{AllocError, Global};
use std::cmp::Ordering;
use std::env;

const CELLS: u32 = 4000;

// A list of so many integers, or of those that the limit on depth allows.
fn list(alloc: Global, cells: u32) -> std::result::Result<Value, AllocError> {
    let mut list = Value::nil();
    for n in 0..cells {
        match Value::cell(alloc, Value::int(i64::from(n)), list)? {
            Made::Is(longer) => list = longer,
            Made::TooDeep => return Ok(Value::nil()),
        }
    }
    Ok(list)
}

// Not inlined, so that a copy of an integer isn't left out.
#[inline(never)]
fn put_copy(place: &mut Value, value: &Value) -> std::result::Result<(), AllocError> {
    *place = value.copy()?;
    Ok(())
}

fn copy(value: &Value, times: u64) -> std::result::Result<(), AllocError> {
    let mut place = Value::nil();
    for _ in 0..times {
        put_copy(&mut place, value)?;
    }
    Ok(())
}

fn build(alloc: Global, times: u64) -> std::result::Result<(), AllocError> {
    for _ in 0..times {
        let _list = list(alloc, CELLS)?;
    }
    Ok(())
}

// A text of so many letters, or of those that the limit on depth allows.
fn text(alloc: Global, letters: u32) -> std::result::Result<Value, AllocError> {
    let mut s = String::new(alloc);
    for _ in 0..letters {
        s.push('x')?;
    }
    text_of(alloc, s.as_str())
}

fn text_of(alloc: Global, s: &str) -> std::result::Result<Value, AllocError> {
    match Value::text(alloc, s)? {
        Made::Is(text) => Ok(text),
        Made::TooDeep => Ok(Value::nil()),
    }
}

fn texts(alloc: Global, times: u64) -> std::result::Result<(), AllocError> {
    let mut s = String::new(alloc);
    for _ in 0..CELLS {
        s.push('x')?;
    }
    for _ in 0..times {
        let _text = text_of(alloc, s.as_str())?;
    }
    Ok(())
}

fn read(alloc: Global, text: &Value, times: u64) -> std::result::Result<(), AllocError> {
    for _ in 0..times {
        let _characters = text.characters(alloc)?;
    }
    Ok(())
}

fn compare_twins(alloc: Global, times: u64) -> Result<()> {
    let left = text(alloc, CELLS)?;
    let right = text(alloc, CELLS)?;
    if !compare(&left, &right, times) {
        bail!("two equal texts differ");
    }
    Ok(())
}

fn append_half(alloc: Global, times: u64) -> std::result::Result<(), AllocError> {
    let half = text(alloc, CELLS / 2)?;
    append(alloc, &half, &half, times)
}

// Whether each comparison finds the two equal.
fn compare(left: &Value, right: &Value, times: u64) -> bool {
    for _ in 0..times {
        if left.compare(right) != Some(Ordering::Equal) {
            return false;
        }
    }
    true
}

fn append(
    alloc: Global,
    left: &Value,
    right: &Value,
    times: u64,
) -> std::result::Result<(), AllocError> {
    for _ in 0..times {
        let _both = left.append(alloc, right)?;
    }
    Ok(())
}

// A text that is made by putting one letter before it, so many times.
fn rows(alloc: Global, times: u64) -> std::result::Result<(), AllocError> {
    let letter = text(alloc, 1)?;
    for _ in 0..times {
        let mut text = Value::nil();
        for _ in 0..CELLS {
            if let Some(Made::Is(longer)) = letter.append(alloc, &text)? {
                text = longer;
            }
        }
    }
    Ok(())
}

fn main(rt: HostRuntime) -> Result<()> {
    let mut words = env::args(&rt)?.skip(1);
    let work = words.next().context("what to do")?;
    let times = words.next().context("how often")?.parse::<u64>()?;
    match work.as_str() {
        "list" => copy(&list(rt.alloc(), CELLS)?, times)?,
        "int" => copy(&Value::int(1), times)?,
        "build" => build(rt.alloc(), times)?,
        "text" => texts(rt.alloc(), times)?,
        "read" => read(rt.alloc(), &text(rt.alloc(), CELLS)?, times)?,
        "compare" => compare_twins(rt.alloc(), times)?,
        "append" => append_half(rt.alloc(), times)?,
        "rows" => rows(rt.alloc(), times)?,
        _ => bail!("list, int, build, text, read, compare, append or rows"),
    }
    Ok(())
}
