//! Reads a file of sources, runs each step by step, and prints each step with what one sees of the configuration before and after it.
//!
//! The word is the file. Each case begins with a line `== NAME`; the lines of its script go to the line `--`, and its source to the
//! next case. Printed is, for the start and after each step:
//!
//! - `at N`, the steps that were made;
//! - a line for each process and service: its number, what it does next, `PARENT.STEP` of its birth, and the ends on which it waits;
//! - for each service, whether it was asked for a line that its script doesn't have, and its transcript;
//! - for each end in order, its peer and how many messages lie at it.
//!
//! A step is its process, kind, weight, end, second end, child, channels and message. Behind 30 steps the first process that stands
//! before a call makes up to 7 at once. `tests/steps.py` makes the file and what has to be printed.
#![tactic(auto)]

mod calls;
mod cases;
mod code;
mod seen;
mod shown;
mod source;
mod start;
mod told;
mod turns;

use anyhow::{Context, Result, bail};
use campl_text::{FileShelf, Text, read_text};
use std::alloc::Global;
use std::env;
use std::rt::Files;

// How many bytes the file of cases has at most.
const FILE_LIMIT: u64 = 16_777_216;

// The text of a file.
fn text_of(rt: &impl Files, alloc: Global, file: &str) -> Result<Text> {
    let mut shelf = FileShelf::new(rt, alloc);
    match read_text(alloc, &mut shelf, file, FILE_LIMIT) {
        Ok(text) => Ok(text),
        Err(_) => bail!("the file is no text within the limit"),
    }
}

fn main(rt: HostRuntime) -> Result<()> {
    let alloc = rt.alloc();
    let mut out = rt.stdout();
    let file = env::args(&rt)?
        .skip(1)
        .next()
        .context("give a file of cases")?;
    let cases = text_of(&rt, alloc, file.as_str())?;
    cases::print_cases(alloc, cases.as_str(), &mut out)
}
