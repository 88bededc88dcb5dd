//! Steps over memory that print what came out.

use crate::desk::{Desk, number};
use anyhow::{Context, Result};
use campl_cli::{Ended, OpenGate, Report, campl};
use campl_text::{Shelf, Sink, SinkFault, Text, TextFault, read_text, write_all_of};
use std::alloc::{AllocError, Global};
use std::thread::Threads;

/// What a command answered, but for what its entries say.
#[derive(Clone, Copy)]
pub struct Summary {
    status: u8,
    ended: Option<Ended>,
    steps: u64,
    entries: usize,
}

fn summary_of(report: Report) -> Summary {
    Summary {
        status: report.status,
        ended: report.ended,
        steps: report.steps,
        entries: report.journal.len(),
    }
}

// The words of a command line, one space between them; `""` stands for the empty one.
fn words_in(alloc: Global, rest: &str) -> Result<Vec<String>, AllocError> {
    let mut words = Vec::new(alloc);
    if !rest.is_empty() {
        for word in rest.split(' ') {
            words.push(String::from_str(alloc, if word == "\"\"" { "" } else { word })?)?;
        }
    }
    Ok(words)
}

/// What a command with these words answers.
pub fn answer<R: Threads + Sync, F: Shelf, O: Sink, E: Sink>(
    rt: &R,
    alloc: Global,
    words: &str,
    shelf: &mut F,
    out: &mut O,
    err: &mut E,
) -> Result<Summary, AllocError> {
    let words = words_in(alloc, words)?;
    Ok(summary_of(campl(rt, alloc, &words, shelf, out, err, &OpenGate)))
}

/// Prints what a command answered.
pub fn print_summary(rt: &impl Print, summary: Summary) -> Result<()> {
    let Summary {
        status,
        ended,
        steps,
        entries,
    } = summary;
    Ok(println!(rt; "status {status}, {ended:?}, {steps} steps, {entries} entries")?)
}

/// Prints bytes that were written, with escapes, if there are any.
pub fn print_bytes(rt: &impl Print, name: &str, bytes: &[u8]) -> Result<()> {
    if bytes.is_empty() {
        return Ok(());
    }
    let text = str::from_utf8(bytes)
        .ok()
        .context("what was written is no text")?;
    Ok(println!(rt; "{name} {text:?}")?)
}

/// `campl WORDS` gives a command line to the command, over the shelf and the sinks.
pub fn command<R: Threads + Sync + Print>(rt: &R, desk: &mut Desk, words: &str) -> Result<()> {
    let shelf = &mut desk.shelf;
    let summary = answer(rt, desk.alloc, words, shelf, &mut desk.out, &mut desk.err)?;
    print_summary(rt, summary)?;
    print_bytes(rt, "out", desk.out.bytes())?;
    print_bytes(rt, "err", desk.err.bytes())
}

/// Prints a text that was read, or why it wasn't; of a long one the number of its bytes.
pub fn print_text(rt: &impl Print, read: Result<Text, TextFault>) -> Result<()> {
    match read {
        Ok(text) => print_read(rt, text.as_str()),
        Err(fault) => Ok(println!(rt; "{fault:?}")?),
    }
}

fn print_read(rt: &impl Print, text: &str) -> Result<()> {
    let count = text.len();
    if count > 100 {
        return Ok(println!(rt; "text of {count} bytes")?);
    }
    Ok(println!(rt; "text {text:?}")?)
}

/// `LIMIT NAME`, apart.
pub fn limit_and_name(rest: &str) -> Result<(u64, &str)> {
    let (limit, name) = rest.split_once(' ').context("a name is missing")?;
    Ok((u64::from(number(Some(limit))?), name))
}

/// `read LIMIT NAME` reads a text from the shelf.
pub fn read(rt: &impl Print, desk: &mut Desk, rest: &str) -> Result<()> {
    let (limit, name) = limit_and_name(rest)?;
    let limit = limit.min(campl_text::TEXT_BYTES_MAX);
    print_text(rt, read_text(desk.alloc, &mut desk.shelf, name, limit))
}

/// Prints whether all was written.
pub fn print_written(rt: &impl Print, written: Result<(), SinkFault>) -> Result<()> {
    match written {
        Ok(()) => Ok(println!(rt; "all written")?),
        Err(fault) => {
            let count = fault.written;
            Ok(println!(rt; "{count} bytes written")?)
        }
    }
}

/// `write` writes what is gathered onto the sink for output.
pub fn write(rt: &impl Print, desk: &mut Desk) -> Result<()> {
    print_written(rt, write_all_of(&mut desk.out, &desk.bytes))?;
    print_bytes(rt, "out", desk.out.bytes())
}
