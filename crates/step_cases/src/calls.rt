//! Calls at once.
ghost use Rattle.campl_cells.specs.Stands.{Wired};
ghost use Rattle.campl_steps.specs.Configs.{parts};

use crate::seen::print_seen;
use crate::told::print_entry;
use anyhow::Result;
use campl_parts::Kind;
use campl_program::Program;
use campl_steps::{Config, Next};
use std::alloc::Global;
use std::io::Write;

// How many calls are made at once.
const CALLS: u32 = 7;

/// Calls of the first process that stands before one, and what one sees behind them.
pub fn print_calls(
    alloc: Global,
    program: &Program,
    config: &mut Config,
    steps: u32,
    out: &mut impl Write,
) -> Result<()>
    requires { Wired (parts config.old) }
{
    let Some(number) = first_at_call(program, config) else {
        return Ok(());
    };
    if let Some(made) = config.advance(alloc, program, number, 0, CALLS)? {
        print_entry(alloc, &made.entry, out)?;
        print_seen(alloc, program, config, steps, out)?;
    }
    Ok(())
}

fn first_at_call(program: &Program, config: &Config) -> Option<u32> {
    for number in 0..config.len() {
        let Ok(number) = u32::try_from(number) else {
            return None;
        };
        if is_at_call(config.next_of(program, number)) {
            return Some(number);
        }
    }
    None
}

fn is_at_call(next: Next) -> bool {
    match next {
        Next::Step(kind) => kind == Kind::Work,
        _ => false,
    }
}
