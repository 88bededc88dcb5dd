//! What a run prints.
ghost use Rattle.std.specs.Prelude.{◌≡◌, ◌++◌, Some, true, codes, IfOk, OnOk, slice_get, string_bytes};
ghost use Rattle.campl_service.specs.Output.{end_of_line, transcript_lines};
ghost use Rattle.campl_meaning.specs.Output.{spelled};
ghost use Rattle.campl_run.specs.Printed.{asked_from, ending_told, is_asked, is_spent, led, led_names, lines_from, printed, seen, serving_of, steps_told, transcript_told};

use crate::ended::Ended;
use campl_parts::{Life, ProcPart};
use campl_service::{Service, Want};
use campl_tree::{Name, ServiceName};
use std::alloc::{AllocError, Global};

/// The lines of each service channel in the order of these names, and the last line. Behind the first process stand the services.
/// An error means that memory is out.
pub(crate) fn output(
    alloc: Global,
    names: &[ServiceName],
    processes: &[ProcPart],
    ended: Ended,
    steps: u64,
) -> Result<Vec<u8>, AllocError>
    ensures { IfOk result (λ output. output.items ≡ printed names.now processes.now ended steps) }
{
    let mut output = Vec::new(alloc);
    push_channels(alloc, &mut output, names, processes)?;
    push_ending(alloc, &mut output, ended, names, processes)?;
    push_steps(alloc, &mut output, steps)?;
    Ok(output)
}

// The lines of all channels.
fn push_channels(
    alloc: Global,
    output: &mut Vec<u8>,
    names: &[ServiceName],
    processes: &[ProcPart],
) -> Result<(), AllocError>
    ensures { OnOk result (output.new.items ≡ output.old.items ++ lines_from 0 names.now processes.now) }
{
    for i in 0..names.len() {
        let name = &names[i];
        push_heading(alloc, output, &name.name)?;
        push_transcript(output, service_at(processes, i + 1))?;
    }
    Ok(())
}

// The line of a channel's name.
fn push_heading(alloc: Global, output: &mut Vec<u8>, name: &Name) -> Result<(), AllocError>
    ensures { OnOk result (output.new.items ≡ output.old.items ++ (codes "channel " ++ (spelled name.now ++ end_of_line))) }
{
    let line = heading(alloc, name)?;
    output.extend_from_slice(line.as_bytes())
}

fn heading(alloc: Global, name: &Name) -> Result<String, AllocError>
    ensures { IfOk result (λ line. string_bytes line ≡ codes "channel " ++ (spelled name.now ++ end_of_line)) }
{
    format!(in alloc; "channel {name}\n")
}

// The lines of what a service has written down.
fn push_transcript(output: &mut Vec<u8>, service: Option<&Service>) -> Result<(), AllocError>
    ensures { OnOk result (output.new.items ≡ output.old.items ++ transcript_lines (transcript_told (seen service.entry))) }
{
    match service {
        None => Ok(()),
        Some(service) => service.transcript().append_to(output),
    }
}

// The service of this number.
fn service_at(processes: &[ProcPart], number: usize) -> Option<&Service>
    ensures { seen result ≡ serving_of (slice_get processes.now number) }
{
    match processes.get(number) {
        None => None,
        Some(process) => service_in(process),
    }
}

fn service_in(process: &ProcPart) -> Option<&Service>
    ensures { seen result ≡ serving_of (Some process.now) }
{
    match &process.life {
        Life::Ended => None,
        Life::Runs(_) => None,
        Life::Serves(_, service) => Some(service.as_ref()),
    }
}

// How the run ended.
fn push_ending(
    alloc: Global,
    output: &mut Vec<u8>,
    ended: Ended,
    names: &[ServiceName],
    processes: &[ProcPart],
) -> Result<(), AllocError>
    ensures { OnOk result (output.new.items ≡ output.old.items ++ ending_told ended (asked_from 0 names.now processes.now)) }
{
    match ended {
        Ended::Finished => output.extend_from_slice(b"finished"),
        Ended::Awaiting => push_awaiting(alloc, output, names, processes),
        Ended::OutOfSteps => output.extend_from_slice(b"out of steps"),
        Ended::Broken => output.extend_from_slice(b"broken"),
    }
}

fn push_awaiting(
    alloc: Global,
    output: &mut Vec<u8>,
    names: &[ServiceName],
    processes: &[ProcPart],
) -> Result<(), AllocError>
    ensures { OnOk result (output.new.items ≡ output.old.items ++ (codes "awaiting " ++ led_names true (asked_from 0 names.now processes.now))) }
{
    output.extend_from_slice(b"awaiting ")?;
    push_asked(alloc, output, names, processes)
}

// The names of the services that were asked with their scripts spent, with commas between them.
fn push_asked(
    alloc: Global,
    output: &mut Vec<u8>,
    names: &[ServiceName],
    processes: &[ProcPart],
) -> Result<(), AllocError>
    ensures { OnOk result (output.new.items ≡ output.old.items ++ led_names true (asked_from 0 names.now processes.now)) }
{
    let mut is_first = true;
    for i in 0..names.len() {
        let name = &names[i];
        if is_asked(service_at(processes, i + 1)) {
            push_name(alloc, output, is_first, &name.name)?;
            is_first = false;
        }
    }
    Ok(())
}

// Whether a service was asked with its script spent.
fn is_asked(service: Option<&Service>) -> bool
    ensures { result ≡ is_asked (seen service.entry) }
{
    match service {
        None => false,
        Some(service) => is_spent(service.wants()),
    }
}

fn is_spent(want: Want) -> bool
    ensures { result ≡ is_spent want }
{
    match want {
        Want::Pick => false,
        Want::Text => false,
        Want::Send => false,
        Want::Spent => true,
        Want::Closed => false,
    }
}

// A name, behind a comma if it isn't the first.
fn push_name(
    alloc: Global,
    output: &mut Vec<u8>,
    is_first: bool,
    name: &Name,
) -> Result<(), AllocError>
    ensures { OnOk result (output.new.items ≡ output.old.items ++ led is_first (spelled name.now)) }
{
    let text = name_led(alloc, is_first, name)?;
    output.extend_from_slice(text.as_bytes())
}

fn name_led(alloc: Global, is_first: bool, name: &Name) -> Result<String, AllocError>
    ensures { IfOk result (λ text. string_bytes text ≡ led is_first (spelled name.now)) }
{
    if is_first {
        return format!(in alloc; "{name}");
    }
    format!(in alloc; ", {name}")
}

// How many steps were made.
fn push_steps(alloc: Global, output: &mut Vec<u8>, steps: u64) -> Result<(), AllocError>
    ensures { OnOk result (output.new.items ≡ output.old.items ++ steps_told steps) }
{
    let text = steps_told(alloc, steps)?;
    output.extend_from_slice(text.as_bytes())
}

fn steps_told(alloc: Global, steps: u64) -> Result<String, AllocError>
    ensures { IfOk result (λ text. string_bytes text ≡ steps_told steps) }
{
    format!(in alloc; " after {steps} steps\n")
}
