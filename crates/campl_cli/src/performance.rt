//! What an order came to and prints, before any of it is written.
ghost use Rattle.std.specs.Prelude.{◌≡◌, ◌++◌, Some, IfOk};
ghost use Rattle.campl_cli.specs.Answer.{stream, HadOrFailed};
ghost use Rattle.campl_cli.specs.Performance.{IsHeaded, IsPrinted, IsTelling, report_of, report_with};
ghost use Rattle.campl_cli.specs.Refusals.{write_fault_line};
ghost use Rattle.campl_cli.specs.Runs.{generated_line};
ghost use Rattle.campl_cli.specs.Told.{accepted_line};

use crate::report::{Report, status_by};
use crate::telling::WRITE_FAULT;
use campl_parts::Journal;
use campl_run::{Ended, Ran};
use campl_text::{Sink, write_all_of};
use std::alloc::{AllocError, Global};

/// The line that tells a failed write; writing it takes no memory.
const WRITE_FAULT_LINE: &str = "campl: write fault\n";

/// What an order came to, and what it prints.
#[derive(Drop)]
pub struct Performance {
    /// What was done, the oldest first; empty where nothing ran.
    pub journal: Journal,
    /// How the run ended, and `None` where nothing ran.
    pub ended: Option<Ended>,
    pub output: Vec<u8>,
}

/// Tells that a source is accepted.
pub fn accept(alloc: Global) -> Result<Performance, AllocError>
    ensures { IfOk result (IsTelling accepted_line) }
{
    tell_text(alloc, "accepted\n")
}

/// What tells this text, where nothing runs.
pub fn tell_text(alloc: Global, text: &str) -> Result<Performance, AllocError>
    ensures { IfOk result (IsTelling text.now) }
{
    let mut output = Vec::new(alloc);
    output.extend_from_slice(text.as_bytes())?;
    Ok(tell_alone(alloc, output))
}

/// What tells these bytes, where nothing runs.
pub fn tell_alone(alloc: Global, output: Vec<u8>) -> Performance
    ensures { IsTelling output.items result }
{
    Performance {
        journal: Journal::new(alloc),
        ended: None,
        output,
    }
}

/// What a run came to.
pub fn performed(ran: Ran) -> Performance
    ensures { result ≡ record { journal = ran.journal; ended = Some ran.ended; output = ran.output } }
{
    let Ran {
        journal,
        ended,
        output,
    } = ran;
    Performance {
        journal,
        ended: Some(ended),
        output,
    }
}

/// Puts before its output the line that tells how many stages were generated.
pub fn headed(
    alloc: Global,
    stages: u32,
    performance: Performance,
) -> Result<Performance, AllocError>
    ensures { IfOk result (IsHeaded (generated_line stages) performance) }
{
    let Performance {
        journal,
        ended,
        output: behind,
    } = performance;
    match line_before(alloc, stages, behind.as_slice()) {
        Ok(output) => Ok(Performance {
            journal,
            ended,
            output,
        }),
        Err(error) => Err(error),
    }
}

// The line of so many stages, and these bytes behind it.
fn line_before(alloc: Global, stages: u32, behind: &[u8]) -> Result<Vec<u8>, AllocError>
    ensures { IfOk result (λ output. output.items ≡ generated_line stages ++ behind.now) }
{
    let line = format!(in alloc; "generated {stages} stages\n")?;
    let mut output = line.into_bytes();
    output.extend_from_slice(behind)?;
    Ok(output)
}

/// Writes the output, and reports what was done: with the status of its end, or 6 where the output couldn't be written.
pub fn print<O: Sink, E: Sink>(performance: Performance, out: &mut O, err: &mut E) -> Report
    ensures { IsPrinted performance
        (stream O.written O.faults out.old out.new)
        (stream E.written E.faults err.old err.new)
        result }
{
    match write_all_of(out, performance.output.as_slice()) {
        Ok(()) => reported(performance),
        Err(_) => {
            tell_write_fault(err);
            report_with(WRITE_FAULT, performance)
        }
    }
}

// Writes the line of a failed write, as far as it can be written.
fn tell_write_fault<E: Sink>(err: &mut E)
    ensures { HadOrFailed (stream E.written E.faults err.old err.new) write_fault_line }
{
    match write_all_of(err, WRITE_FAULT_LINE.as_bytes()) {
        Ok(()) => (),
        Err(_) => (),
    }
}

// The report of what was done where its output is written.
fn reported(performance: Performance) -> Report
    ensures { result ≡ report_of performance }
{
    report_with(status_by(performance.ended), performance)
}

// The report of what was done, with this status.
fn report_with(status: u8, performance: Performance) -> Report
    ensures { result ≡ report_with status performance }
{
    let Performance {
        journal,
        ended,
        output,
    } = performance;
    drop(output);
    let steps = journal.weight();
    Report {
        status,
        ended,
        steps,
        journal,
    }
}
