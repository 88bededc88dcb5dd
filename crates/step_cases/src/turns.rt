//! Runs, step by step.
ghost use Rattle.step_cases.specs.Begun.{IsRunning};

use crate::calls::print_calls;
use crate::seen::print_seen;
use crate::told::print_entry;
use anyhow::{Result, bail};
use campl_parts::Journal;
use campl_program::Program;
use campl_solo::Solo;
use std::alloc::{AllocError, Global};
use std::io::Write;

// How many steps are made one by one.
const STEPS: u32 = 30;

/// Prints the steps of a run, and what one sees before and after each.
pub fn print_turns(
    alloc: Global,
    program: &Program,
    solo: &mut Solo,
    out: &mut impl Write,
) -> Result<()>
    requires { IsRunning program.now solo.old }
{
    let mut journal = Journal::new(alloc);
    print_seen(alloc, program, &solo.config, 0, out)?;
    let mut steps = 0;
    while steps < STEPS && print_turn(alloc, program, solo, &mut journal, out)? {
        steps += 1;
        print_seen(alloc, program, &solo.config, steps, out)?;
    }
    print_calls(alloc, program, &mut solo.config, steps, out)
}

// Makes a step and prints it, and says whether there was one.
fn print_turn(
    alloc: Global,
    program: &Program,
    solo: &mut Solo,
    journal: &mut Journal,
    out: &mut impl Write,
) -> Result<bool>
    requires { IsRunning program.now solo.old }
    ensures { IsRunning program.now solo.new }
{
    match turn(alloc, program, solo, journal) {
        Ok(true) => print_last(alloc, journal, out),
        Ok(false) => Ok(false),
        Err(_) => bail!("memory is out"),
    }
}

fn turn(
    alloc: Global,
    program: &Program,
    solo: &mut Solo,
    journal: &mut Journal,
) -> std::result::Result<bool, AllocError>
    requires { IsRunning program.now solo.old }
    ensures { IsRunning program.now solo.new }
{
    if journal.weight() > u64::from(STEPS) {
        return Err(AllocError);
    }
    solo.step(alloc, program, journal)
}

// Prints the step that was made last.
fn print_last(alloc: Global, journal: &Journal, out: &mut impl Write) -> Result<bool> {
    let Some(last) = journal.len().checked_sub(1) else {
        bail!("no step was made");
    };
    match journal.entry(last)? {
        Some(entry) => print_entry(alloc, &entry, out)?,
        None => bail!("no step was made"),
    }
    Ok(true)
}
