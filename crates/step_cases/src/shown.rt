//! Values as they are printed.
use anyhow::Result;
use campl_value::{Look, Part, Value};
use std::alloc::Global;
use std::fmt::Write;

// How many words of a value are printed at most.
const WORDS: u32 = 10_000;

/// The words of values, in order; `..` in place of the rest, where there are very many.
pub fn shown(alloc: Global, values: &[Value]) -> Result<String> {
    let mut words = String::new(alloc);
    let mut parts = Vec::new(alloc);
    for value in values.iter().rev() {
        parts.push(value.part())?;
    }
    for _ in 0..WORDS {
        let Some(part) = parts.pop() else {
            return Ok(words);
        };
        if !words.is_empty() {
            words.push(' ')?;
        }
        push_part(&part, &mut parts, &mut words)?;
    }
    words.push_str(" ..")?;
    Ok(words)
}

// The word of a value's head. Its parts come next.
fn push_part<'v>(part: &Part<'v>, parts: &mut Vec<Part<'v>>, words: &mut String) -> Result<()> {
    match part.look() {
        Look::Int(n) => write!(words, "{n}")?,
        Look::Char(c) => write!(words, "'{}", u32::from(c))?,
        Look::Truth(true) => words.push_str("True")?,
        Look::Truth(false) => words.push_str("False")?,
        Look::Nil => words.push_str("[]")?,
        Look::Cell(head, tail) => {
            words.push(':')?;
            parts.push(tail)?;
            parts.push(head)?;
        }
        Look::Pair(first, second) => {
            words.push(',')?;
            parts.push(second.part())?;
            parts.push(first.part())?;
        }
        Look::Built(constructor, all) => {
            write!(words, "#{constructor}/{}", all.len())?;
            for part in all.iter().rev() {
                parts.push(part.part())?;
            }
        }
    }
    Ok(())
}
