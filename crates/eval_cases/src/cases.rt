//! Cases, and what is printed of them.
use crate::code::program_of;
use crate::runs::run_process;
use crate::source::world_of;
use anyhow::{Context, Result};
use campl_program::Program;
use std::alloc::Global;
use std::io::Write;

/// Prints what the functions of each case of a text give.
pub fn print_cases(alloc: Global, text: &str, out: &mut impl Write) -> Result<()> {
    let cases = text.strip_prefix("== ").context("no case")?;
    for case in cases.split("\n== ") {
        let (name, source) = case.split_once('\n').context("a case has no source")?;
        writeln!(out, "== {name}")?;
        print_case(alloc, source, out)?;
    }
    Ok(())
}

fn print_case(alloc: Global, source: &str, out: &mut impl Write) -> Result<()> {
    let world = world_of(alloc, source)?;
    let program = program_of(alloc, &world)?;
    print_functions(alloc, &program, out)
}

fn print_functions(alloc: Global, program: &Program, out: &mut impl Write) -> Result<()> {
    let functions = program.raw().functions.as_slice();
    let mut block = functions.len();
    for function in functions {
        if function.variables == 0 {
            write!(out, "{} ", function.name)?;
            run_process(alloc, program, block, out)?;
        }
        block = block.saturating_add(1);
    }
    Ok(())
}
