//! Tries values, messages, services, scripts and journals, and prints what came out.
//!
//! `value_cases FILE` reads its scripts from a file of cases. Each begins with a line `== NAME`, and its script goes to the next
//! such line; the last line feed before that line, or before the end, belongs to no script, and the picture `␍` stands for a
//! carriage return. What it prints is compared with `stdout`, which was worked by hand.
#![tactic(auto)]

mod journals;
mod lists;
mod messages;
mod orders;
mod scripts;
mod services;
mod values;

use anyhow::{Context, Result, bail};
use campl_text::{FileShelf, Text, read_text};
use std::alloc::Global;
use std::env;
use std::rt::Files;

// How many bytes the file of scripts has at most.
const FILE_LIMIT: u64 = 1_048_576;

// The text of a file.
fn text_of(rt: &impl Files, alloc: Global, file: &str) -> Result<Text> {
    let mut shelf = FileShelf::new(rt, alloc);
    match read_text(alloc, &mut shelf, file, FILE_LIMIT) {
        Ok(text) => Ok(text),
        Err(_) => bail!("the file is no text within the limit"),
    }
}

fn main(rt: HostRuntime) -> Result<()> {
    let alloc = rt.alloc();
    let mut out = rt.stdout();
    let file = env::args(&rt)?
        .skip(1)
        .next()
        .context("give a file of scripts")?;
    let scripts = text_of(&rt, alloc, file.as_str())?;
    values::print_values(alloc, &mut out)?;
    lists::print_lists(alloc, &mut out)?;
    orders::print_orders(alloc, &mut out)?;
    messages::print_messages(alloc, &mut out)?;
    services::print_services(alloc, &mut out)?;
    scripts::print_scripts(alloc, scripts.as_str(), &mut out)?;
    scripts::print_long_scripts(alloc, &mut out)?;
    journals::print_journals(alloc, &mut out)?;
    Ok(())
}
