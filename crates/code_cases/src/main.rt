//! Reads three tables of what code is about, and prints what comes out.
//!
//! The words are their files: of rows and values, of code, and of sources. Each case begins with a line `== NAME`, and goes to the
//! next such line; the last line feed before that line, or before the end, belongs to no case. `tests/code_cases.py` makes the
//! files and what has to be printed.
//!
//! - Rows: those of a source's function `rows`. Each row of its function `values` is a list of values, written as patterns:
//!   printed is the row that the decision finds with the places of its variables, or `no row`. First comes the number of the
//!   decision's nodes.
//! - Code: a listing, in which behind the line of a decision stand `  takes N` (its number of values), `  binds LIST` (each row's
//!   number of variables) and a line for each node of its tree, as `reading` says. Printed is `keeps the rules` or `block B breaks
//!   a rule at P`, and then the listing.
//! - Sources, of which the same is printed for the code that is generated.
#![tactic(auto)]

mod cases;
mod decisions;
mod instructions;
mod operands;
mod reading;
mod rows;
mod rules;
mod source;
mod texts;
mod values;

use crate::cases::{Kind, print_cases};
use anyhow::{Context, Result, bail};
use campl_text::{FileShelf, Text, read_text};
use std::alloc::Global;
use std::env;
use std::rt::Files;

// How many bytes a file of cases has at most.
const FILE_LIMIT: u64 = 1_048_576;

// The text of a file.
fn text_of(rt: &impl Files, alloc: Global, file: &str) -> Result<Text> {
    let mut shelf = FileShelf::new(rt, alloc);
    match read_text(alloc, &mut shelf, file, FILE_LIMIT) {
        Ok(text) => Ok(text),
        Err(_) => bail!("the file is no text within the limit"),
    }
}

fn main(rt: HostRuntime) -> Result<()> {
    let alloc = rt.alloc();
    let mut out = rt.stdout();
    let mut words = env::args(&rt)?.skip(1);
    for kind in [Kind::Rows, Kind::Code, Kind::Source] {
        let file = words
            .next()
            .context("give files of rows, of code and of sources")?;
        let cases = text_of(&rt, alloc, file.as_str())?;
        print_cases(alloc, kind, cases.as_str(), &mut out)?;
    }
    Ok(())
}
