//! What the steps of a script work on: gathered bytes, a shelf and two sinks in memory.

use anyhow::{Context, Result, bail};
use campl_text::{MemShelf, MemSink};
use std::alloc::{AllocError, Global};

/// Gathered bytes, a shelf and two sinks in memory.
#[derive(Drop)]
pub struct Desk {
    pub alloc: Global,
    pub bytes: Vec<u8>,
    pub shelf: MemShelf,
    pub out: MemSink,
    pub err: MemSink,
}

// A sink with ample room.
fn ample(alloc: Global) -> Result<MemSink, AllocError> {
    MemSink::with_room(alloc, 1_000_000, 1_000_000)
}

/// The number that a word is.
pub fn number(word: Option<&str>) -> Result<u32> {
    match word.context("a number is missing")?.parse::<u32>() {
        Ok(number) => Ok(number),
        Err(_) => bail!("a number is none"),
    }
}

// `ROOM MOST CALL`: a sink with this room that takes so many bytes in one write, and whose write with the number CALL fails.
fn sink(alloc: Global, rest: &str) -> Result<MemSink> {
    let mut words = rest.split(' ');
    let room = number(words.next())?;
    let most = number(words.next())?;
    let call = number(words.next())?;
    if most == 0 {
        bail!("a sink takes nothing");
    }
    let mut sink = MemSink::with_room(alloc, room, most)?;
    sink.fail_at(call)?;
    Ok(sink)
}

impl Desk {
    pub fn new(alloc: Global) -> Result<Desk, AllocError> {
        let out = ample(alloc)?;
        let err = ample(alloc)?;
        Ok(Desk {
            alloc,
            bytes: Vec::new(alloc),
            shelf: MemShelf::new(alloc),
            out,
            err,
        })
    }

    /// `line TEXT` gathers the text and a line feed.
    pub fn gather_line(&mut self, text: &str) -> Result<()> {
        self.gather(text)?;
        Ok(self.bytes.push(b'\n')?)
    }

    /// `lines N TEXT` gathers the text and a line feed so many times.
    pub fn gather_lines(&mut self, rest: &str) -> Result<()> {
        let (count, text) = rest.split_once(' ').context("a text is missing")?;
        for _ in 0..number(Some(count))? {
            self.gather_line(text)?;
        }
        Ok(())
    }

    /// `piece TEXT` gathers the text.
    pub fn gather(&mut self, text: &str) -> Result<()> {
        Ok(self.bytes.extend_from_slice(text.as_bytes())?)
    }

    /// `times N TEXT` gathers the text so many times.
    pub fn gather_times(&mut self, rest: &str) -> Result<()> {
        let (count, text) = rest.split_once(' ').context("a text is missing")?;
        for _ in 0..number(Some(count))? {
            self.gather(text)?;
        }
        Ok(())
    }

    /// `byte N` gathers the byte of this number.
    pub fn gather_byte(&mut self, rest: &str) -> Result<()> {
        match rest.parse::<u8>() {
            Ok(byte) => Ok(self.bytes.push(byte)?),
            Err(_) => bail!("a byte is none"),
        }
    }

    /// `put NAME` puts what is gathered on the shelf, and gathers anew.
    pub fn put(&mut self, name: &str) -> Result<()> {
        self.shelf.put(name, &self.bytes)?;
        self.bytes.clear();
        Ok(())
    }

    /// `fail N` has the read with this number fail.
    pub fn fail_read(&mut self, rest: &str) -> Result<()> {
        Ok(self.shelf.fail_at(number(Some(rest))?)?)
    }

    /// `out ROOM MOST CALL` has another sink for output.
    pub fn furnish_out(&mut self, rest: &str) -> Result<()> {
        self.out = sink(self.alloc, rest)?;
        Ok(())
    }

    /// `err ROOM MOST CALL` has another sink for errors.
    pub fn furnish_err(&mut self, rest: &str) -> Result<()> {
        self.err = sink(self.alloc, rest)?;
        Ok(())
    }
}
