//! Cases, and what is printed of them.
use crate::source::world_of;
use crate::start::begin;
use crate::turns::print_turns;
use anyhow::{Context, Result};
use std::alloc::Global;
use std::io::Write;

/// Prints the run of each case of a text.
pub fn print_cases(alloc: Global, text: &str, out: &mut impl Write) -> Result<()> {
    let cases = text.strip_prefix("== ").context("no case")?;
    for case in cases.split("\n== ") {
        let (name, rest) = case.split_once('\n').context("a case has no script")?;
        let (script, source) = rest.split_once("--\n").context("a case has no source")?;
        writeln!(out, "== {name}")?;
        print_case(alloc, script, source, out)?;
    }
    Ok(())
}

fn print_case(alloc: Global, script: &str, source: &str, out: &mut impl Write) -> Result<()> {
    let world = world_of(alloc, source)?;
    let mut begun = begin(alloc, &world, script)?;
    print_turns(alloc, &begun.program, &mut begun.solo, out)
}
