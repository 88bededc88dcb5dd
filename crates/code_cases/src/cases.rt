//! Cases, and what is printed of them.
use crate::reading::code_of;
use crate::rows::print_rows;
use crate::rules::print_code;
use crate::source::world_of;
use anyhow::{Context, Result};
use campl_gen::generate;
use campl_instructions::RawCode;
use std::alloc::Global;
use std::io::Write;

/// What a case is.
#[derive(Clone, Copy)]
pub enum Kind {
    Rows,
    Code,
    Source,
}

/// Prints what comes of each case of a text.
pub fn print_cases(alloc: Global, kind: Kind, text: &str, out: &mut impl Write) -> Result<()> {
    let cases = text.strip_prefix("== ").context("no case")?;
    let cases = cases
        .strip_suffix('\n')
        .context("the last line has no end")?;
    for case in cases.split("\n== ") {
        let (name, lines) = case.split_once('\n').unwrap_or((case, ""));
        writeln!(out, "== {name}")?;
        print_case(alloc, kind, lines, out)?;
    }
    Ok(())
}

fn print_case(alloc: Global, kind: Kind, lines: &str, out: &mut impl Write) -> Result<()> {
    match kind {
        Kind::Rows => print_rows_of(alloc, lines, out),
        Kind::Code => print_listed(alloc, lines, out),
        Kind::Source => print_generated(alloc, lines, out),
    }
}

fn print_rows_of(alloc: Global, source: &str, out: &mut impl Write) -> Result<()> {
    let world = world_of(alloc, source)?;
    print_rows(alloc, &world, out)
}

fn print_listed(alloc: Global, lines: &str, out: &mut impl Write) -> Result<()> {
    let code = code_of(alloc, lines)?;
    print_code(alloc, &code, out)
}

fn print_generated(alloc: Global, source: &str, out: &mut impl Write) -> Result<()> {
    let code = generated(alloc, source)?;
    print_code(alloc, &code, out)
}

fn generated(alloc: Global, source: &str) -> Result<RawCode> {
    let world = world_of(alloc, source)?;
    Ok(generate(alloc, &world)?)
}
