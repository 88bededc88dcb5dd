//! Steps over the system's files and streams that print what came out.

use crate::acts::{answer, limit_and_name, print_bytes, print_summary, print_text, print_written};
use crate::desk::{Desk, number};
use anyhow::{Context, Result, bail};
use campl_text::{FileShelf, Shelf, StdSink, read_text, write_all_of};
use std::io::Write;
use std::rt::Files;
use std::thread::Threads;
use std::{fs, io};

/// `system-campl WORDS` gives a command line to the command, over the system's files and the sinks.
pub fn command<R: Threads + Sync + Files + Print>(
    rt: &R,
    desk: &mut Desk,
    words: &str,
) -> Result<()> {
    let mut shelf = FileShelf::new(rt, desk.alloc);
    let summary = answer(
        rt,
        desk.alloc,
        words,
        &mut shelf,
        &mut desk.out,
        &mut desk.err,
    )?;
    print_summary(rt, summary)?;
    print_bytes(rt, "out", desk.out.bytes())?;
    print_bytes(rt, "err", desk.err.bytes())
}

/// `full-campl WORDS` gives a command line to the command, over the shelf, with output onto a device that is full.
pub fn command_to_full<R: Threads + Sync + Files + Print>(
    rt: &R,
    desk: &mut Desk,
    words: &str,
) -> Result<()> {
    let mut full = StdSink::new(fs::create(rt, "/dev/full")?);
    let shelf = &mut desk.shelf;
    let summary = answer(rt, desk.alloc, words, shelf, &mut full, &mut desk.err)?;
    print_summary(rt, summary)?;
    print_bytes(rt, "err", desk.err.bytes())
}

/// `system-read LIMIT NAME` reads a text from the system's files.
pub fn read(rt: &(impl Files + Print), desk: &mut Desk, rest: &str) -> Result<()> {
    let (limit, name) = limit_and_name(rest)?;
    let limit = limit.min(campl_text::TEXT_BYTES_MAX);
    let mut shelf = FileShelf::new(rt, desk.alloc);
    print_text(rt, read_text(desk.alloc, &mut shelf, name, limit))
}

// A writer that takes so many bytes a call, and flushes or doesn't.
#[derive(Drop)]
struct Stubborn {
    takes: usize,
    flushes: bool,
}

impl Write for Stubborn {
    fn write(&mut self, buf: &[u8]) -> io::Result<usize> {
        Ok(self.takes.min(buf.len()))
    }

    fn flush(&mut self) -> io::Result<()> {
        if self.flushes {
            Ok(())
        } else {
            Err(io::Error::from(io::ErrorKind::Other))
        }
    }
}

/// `writer TAKES FLUSHES` writes what is gathered to a writer that takes so many bytes a call, and can't flush where FLUSHES is 0.
pub fn write(rt: &impl Print, desk: &mut Desk, rest: &str) -> Result<()> {
    let (takes, flushes) = rest.split_once(' ').context("a number is missing")?;
    let takes = number(Some(takes))? as usize;
    let flushes = number(Some(flushes))? > 0;
    let mut sink = StdSink::new(Stubborn { takes, flushes });
    print_written(rt, write_all_of(&mut sink, &desk.bytes))
}

/// `stdout` writes what is gathered to standard output.
pub fn write_to_stdout(rt: &impl Print, desk: &mut Desk) -> Result<()> {
    let mut sink = StdSink::new(io::writer(rt));
    print_written(rt, write_all_of(&mut sink, &desk.bytes))
}

// Reads four bytes of a file from a position on, and prints them.
fn print_four<F: Shelf>(rt: &impl Print, shelf: &mut F, name: &str, at: u64) -> Result<()> {
    let mut four = [0u8; 4];
    match shelf.read(name, at, &mut four) {
        Ok(count) => print_bytes(rt, "read", &four[..count]),
        Err(_) => bail!("a read failed"),
    }
}

/// `replaced NAME` writes a file of this name, reads its first half, replaces it, and reads the second half and then the first.
pub fn read_replaced(rt: &(impl Files + Print), desk: &mut Desk, name: &str) -> Result<()> {
    fs::write(rt, name, "old file")?;
    let mut shelf = FileShelf::new(rt, desk.alloc);
    print_four(rt, &mut shelf, name, 0)?;
    fs::remove_file(rt, name)?;
    fs::write(rt, name, "new text")?;
    print_four(rt, &mut shelf, name, 4)?;
    print_four(rt, &mut shelf, name, 0)?;
    print_four(rt, &mut shelf, name, 6)?;
    fs::remove_file(rt, name)?;
    Ok(())
}
