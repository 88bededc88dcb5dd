//! Runs of functions.
use crate::shown::shown;
use anyhow::{Result, bail};
use campl_eval::{Eval, Turn};
use campl_kept::Kept;
use campl_operands::Variables;
use campl_program::Program;
use std::alloc::Global;
use std::io::Write;

// How many calls a run has.
const CALLS: u64 = 100_000_000;
// How many turns a run may be made in once more.
const TURNS: u64 = 3_000;

/// Runs the process with this block, and prints its value, or why it has none, and the calls that it spent.
pub fn run_process(
    alloc: Global,
    program: &Program,
    block: usize,
    out: &mut impl Write,
) -> Result<()> {
    let mut eval = Eval::start(alloc, block, 0, Variables::new(alloc));
    let turn = eval.run(alloc, program, CALLS)?;
    let (end, spent) = end_of(alloc, &turn)?;
    if spent <= TURNS {
        let again = end_in_turns(alloc, program, block)?;
        if again.as_str() != broken_or(end.as_str()) {
            bail!("turns come to {again} and not to {end}");
        }
    }
    Ok(writeln!(out, "{end} {spent}")?)
}

fn end_of(alloc: Global, turn: &Turn) -> Result<(String, u64)> {
    match turn {
        Turn::Done(values, spent) => Ok((shown(alloc, values.as_slice())?, *spent)),
        Turn::TooDeep(spent) => Ok((String::from_str(alloc, "too deep")?, *spent)),
        Turn::Faulty(spent) => Ok((String::from_str(alloc, "faulty")?, *spent)),
        Turn::More => Ok((String::from_str(alloc, "more")?, CALLS)),
    }
}

// What is kept doesn't tell why it broke.
fn broken_or(end: &str) -> &str {
    match end {
        "too deep" | "faulty" => "broken",
        _ => end,
    }
}

// What the same run comes to in turns of 0, 1, 2 and 3 calls, each of them on a copy.
fn end_in_turns(alloc: Global, program: &Program, block: usize) -> Result<String> {
    let mut kept = Kept::begin(alloc, program, block, 0, Variables::new(alloc))?;
    for n in 0..2 * TURNS {
        if !stands_before_call(&kept) {
            break;
        }
        let mut copy = kept.copy(alloc)?;
        copy.advance(alloc, program, n % 4)?;
        kept = copy;
    }
    match &kept {
        Kept::Values { values, .. } => shown(alloc, values.as_slice()),
        Kept::AtCall(_) => Ok(String::from_str(alloc, "more")?),
        Kept::Broken => Ok(String::from_str(alloc, "broken")?),
    }
}

fn stands_before_call(kept: &Kept) -> bool {
    matches!(kept, Kept::AtCall(_))
}
