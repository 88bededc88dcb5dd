//! Steps as they are told.
use crate::shown::shown;
use anyhow::Result;
use campl_parts::Entry;
use campl_value::{Message, Value};
use std::alloc::Global;
use std::io::Write;

/// Prints the line of a step.
pub fn print_entry(alloc: Global, entry: &Entry, out: &mut impl Write) -> Result<()> {
    let kind = entry.kind;
    write!(out, "step {} {kind:?} {}", entry.process, entry.weight)?;
    print_number(entry.end, out)?;
    print_number(entry.second, out)?;
    print_number(entry.child, out)?;
    print_number(entry.channel, out)?;
    print_number(entry.channel2, out)?;
    print_message(alloc, &entry.message, out)
}

fn print_number(number: Option<u32>, out: &mut impl Write) -> Result<()> {
    match number {
        Some(number) => Ok(write!(out, " {number}")?),
        None => Ok(write!(out, " -")?),
    }
}

fn print_message(alloc: Global, message: &Option<Message>, out: &mut impl Write) -> Result<()> {
    match message {
        Some(Message::Word(value)) => print_word(alloc, value, out),
        Some(Message::Pick(number)) => Ok(writeln!(out, " pick {number}")?),
        Some(Message::Ends(end, second)) => Ok(writeln!(out, " ends {end} {second}")?),
        None => Ok(writeln!(out, " -")?),
    }
}

fn print_word(alloc: Global, value: &Value, out: &mut impl Write) -> Result<()> {
    let words = shown(alloc, &[value.copy()?])?;
    Ok(writeln!(out, " word {words}")?)
}
