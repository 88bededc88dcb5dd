//! Reads a file of sources, and prints what the evaluator makes of their functions that have no parameters.
//!
//! The word is the file. Each case begins with a line `== NAME`, and its source goes to the next such line. Printed is a line for
//! each such function in order: its name, its value or why it has none, and the calls that were spent. Values are written with the
//! head before the parts: `: 1 []` is a list, `, 1 2` a pair, `#3/1` a constructor's number and how many parts follow, and `'97` a
//! character by its number. A run of few calls is made once more in turns of 0, 1, 2 and 3 calls, each on a copy, and has to give
//! the same.
#![tactic(auto)]

mod cases;
mod code;
mod runs;
mod shown;
mod source;

use anyhow::{Context, Result, bail};
use campl_text::{FileShelf, Text, read_text};
use std::alloc::Global;
use std::env;
use std::rt::Files;

// How many bytes the file of cases has at most.
const FILE_LIMIT: u64 = 16_777_216;

// The text of a file.
fn text_of(rt: &impl Files, alloc: Global, file: &str) -> Result<Text> {
    let mut shelf = FileShelf::new(rt, alloc);
    match read_text(alloc, &mut shelf, file, FILE_LIMIT) {
        Ok(text) => Ok(text),
        Err(_) => bail!("the file is no text within the limit"),
    }
}

fn main(rt: HostRuntime) -> Result<()> {
    let alloc = rt.alloc();
    let mut out = rt.stdout();
    let file = env::args(&rt)?
        .skip(1)
        .next()
        .context("give a file of cases")?;
    let cases = text_of(&rt, alloc, file.as_str())?;
    cases::print_cases(alloc, cases.as_str(), &mut out)
}
