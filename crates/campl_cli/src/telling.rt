//! Tells a refusal on the stream of errors.
ghost use Rattle.std.specs.Prelude.{◌≡◌, ◌≢◌, ◌⊎◌, ◌++◌, ◌∷◌, [], codes, IfOk, MatchOption, string_bytes};
ghost use Rattle.std.specs.Fmt.{decimal};
ghost use Rattle.campl_cli.specs.Faults.{message_of_detail};
ghost use Rattle.campl_cli.specs.declared.fault.Detail.TheVariants.{HeldSo};
ghost use Rattle.campl_cli.specs.Refusals.{TakesMemory, line_of, status_of};
ghost use Rattle.campl_cli.specs.Scripts.{ScriptTakesMemory};
ghost use Rattle.campl_cli.specs.Answer.{stream, IsTold, IsRefused, HasNoRun};

use crate::fault::{Detail, SourceFault, side_word};
use crate::refusal::Refusal;
use crate::report::Report;
use crate::script::{ScriptRefusal, line_number, what_is_wrong};
use campl_parts::Journal;
use campl_service::ScriptFault;
use campl_shown::Shown;
use campl_text::{Sink, write_all_of};
use campl_tree::{Name, Side};
use std::alloc::{AllocError, Global};

/// The status where writing failed.
pub const WRITE_FAULT: u8 = 6;

/// Writes the refusal's line, and answers its status, or 6 where the line couldn't be written. A line with numbers or names
/// takes memory; where there is none for it, want of memory is told instead.
pub fn refuse<E: Sink>(alloc: Global, refusal: Refusal, err: &mut E) -> Report
    ensures { IsRefused refusal (stream E.written E.faults err.old err.new) result }
{
    match standing_line(&refusal) {
        Some(line) => tell(alloc, &refusal, line, err),
        None => refuse_at_length(alloc, &refusal, err),
    }
}

/// The line that tells want of memory.
const OUT_OF_MEMORY_LINE: &str = "campl: out of memory\n";

// The line of a refusal, where it takes no memory.
fn standing_line(refusal: &Refusal) -> Option<&'static str>
    ensures { MatchOption result (TakesMemory refusal.now) (λ line. line.now ≡ line_of refusal.now) }
{
    match refusal {
        Refusal::BadCommandLine => Some("campl: bad command line\n"),
        Refusal::TooLong => Some("campl: source is longer than 1048576 bytes\n"),
        Refusal::ReadFault => Some("campl: read fault\n"),
        Refusal::OutOfMemory => Some(OUT_OF_MEMORY_LINE),
        Refusal::Script(ScriptRefusal::TooLong) => Some(
            "campl: script is longer than 16777216 bytes\n",
        ),
        Refusal::Script(ScriptRefusal::MigratedTooLong) => {
            Some("campl: migrated script is longer than 16777216 bytes\n")
        }
        Refusal::NotUtf8 { .. } | Refusal::Source(_) | Refusal::Script(_) => None,
    }
}

// Writes a line that takes memory, or the one of want of memory.
fn refuse_at_length<E: Sink>(alloc: Global, refusal: &Refusal, err: &mut E) -> Report
    requires { TakesMemory refusal.now }
    ensures { IsRefused refusal.now (stream E.written E.faults err.old err.new) result }
{
    match made_line(alloc, refusal) {
        Ok(line) => tell(alloc, refusal, line.as_str(), err),
        Err(_) => tell(alloc, &Refusal::OutOfMemory, OUT_OF_MEMORY_LINE, err),
    }
}

// The line of a refusal that takes memory.
fn made_line(alloc: Global, refusal: &Refusal) -> Result<String, AllocError>
    requires { TakesMemory refusal.now }
    ensures { IfOk result (λ line. string_bytes line ≡ line_of refusal.now) }
{
    match refusal {
        Refusal::NotUtf8 { at } => format!(in alloc; "campl: source isn't UTF-8 at byte {at}\n"),
        Refusal::Source(fault) => line_of_fault(alloc, fault),
        Refusal::Script(why) => line_of_script(alloc, why),
        Refusal::BadCommandLine | Refusal::TooLong | Refusal::ReadFault | Refusal::OutOfMemory =>
            unreachable!(),
    }
}

// The line of a refused script that takes memory.
fn line_of_script(alloc: Global, why: &ScriptRefusal) -> Result<String, AllocError>
    requires { ScriptTakesMemory why.now }
    ensures { IfOk result (λ line. string_bytes line ≡ line_of (Refusal.Script why.now)) }
{
    match why {
        ScriptRefusal::NotUtf8 { at } => format!(in alloc;
            "campl: script isn't UTF-8 at byte {at}\n"
        ),
        ScriptRefusal::Line(fault) => line_of_line(alloc, fault),
        ScriptRefusal::TooLong | ScriptRefusal::MigratedTooLong => unreachable!(),
    }
}

// The line of a fault in a line of a script.
fn line_of_line(alloc: Global, fault: &ScriptFault) -> Result<String, AllocError>
    ensures { IfOk result (λ line. string_bytes line ≡ line_of (Refusal.Script (ScriptRefusal.Line fault.now))) }
{
    numbered(alloc, line_number(fault), what_is_wrong(fault))
}

// What is told of the line of a script with this number.
fn numbered(alloc: Global, line: u32, wrong: &str) -> Result<String, AllocError>
    ensures { IfOk result (λ text. string_bytes text ≡ codes "campl: " ++ (codes "script line " ++ (decimal line ++ (codes ": " ++ (wrong.now ++ (10 ∷ [])))))) }
{
    format!(in alloc; "campl: script line {line}: {wrong}\n")
}

// The line of a fault.
fn line_of_fault(alloc: Global, fault: &SourceFault) -> Result<String, AllocError>
    ensures { IfOk result (λ line. string_bytes line ≡ line_of (Refusal.Source fault.now)) }
{
    let detail = message_of(alloc, &fault.detail)?;
    spelled(
        alloc,
        fault.kind.code(),
        fault.place.line,
        fault.place.column,
        detail.as_str(),
    )
}

// What is told beside the place.
fn message_of(alloc: Global, detail: &Detail) -> Result<String, AllocError>
    ensures { IfOk result (λ message. string_bytes message ≡ message_of_detail detail.now) }
{
    match detail {
        Detail::Nothing => Ok(String::new(alloc)),
        Detail::Named(name) => format!(in alloc; ": name {name}"),
        Detail::Counted { found, wanted } => {
            format!(in alloc; ": found {found}, wanted {wanted}")
        }
        Detail::Differing(found, wanted) => {
            format!(in alloc; ": found {found}, wanted {wanted}")
        }
        Detail::Missing(patterns) => format!(in alloc; ": missing {patterns}"),
        Detail::Channel(name) => format!(in alloc; ": channel {name}"),
        Detail::HeldSo(channel, held, side) => message_of_held(alloc, channel, held, side),
        Detail::Link(name) => format!(in alloc; ": link {name}"),
        Detail::Part(number) => format!(in alloc; ": part {number}"),
        Detail::Constructor(name) => format!(in alloc; ": constructor {name}"),
    }
}

// What is told of a channel, its type and its side.
fn message_of_held(
    alloc: Global,
    channel: &Name,
    held: &Shown,
    side: &Side,
) -> Result<String, AllocError>
    ensures { IfOk result (λ message. string_bytes message ≡ message_of_detail (HeldSo channel.now held.now side.now)) }
{
    let side = side_word(side);
    format!(in alloc; ": channel {channel} has {held} on the {side} side")
}

// The line of a fault with this number and name, at this line and column.
fn spelled(
    alloc: Global,
    code: &str,
    line: u32,
    column: u32,
    detail: &str,
) -> Result<String, AllocError>
    ensures { IfOk result (λ text. string_bytes text ≡ codes "campl: " ++ (code.now ++ (codes " at " ++ (decimal line ++ (codes ":" ++ (decimal column ++ (detail.now ++ (10 ∷ [])))))))) }
{
    format!(in alloc; "campl: {code} at {line}:{column}{detail}\n")
}

// Writes the line, and answers that nothing ran.
fn tell<E: Sink>(alloc: Global, refusal: &Refusal, line: &str, err: &mut E) -> Report
    requires { line.now ≡ line_of refusal.now }
    ensures { IsTold refusal.now (stream E.written E.faults err.old err.new) result }
{
    match write_all_of(err, line.as_bytes()) {
        Ok(()) => nothing_ran(alloc, refusal.status()),
        Err(_) => nothing_ran(alloc, status_unwritten(refusal)),
    }
}

// Want of memory keeps its status where its line can't be written.
fn status_unwritten(refusal: &Refusal) -> u8
    ensures { ((refusal.now ≡ Refusal.OutOfMemory) × (result ≡ status_of refusal.now)) ⊎ ((refusal.now ≢ Refusal.OutOfMemory) × (result ≡ 6)) }
{
    match refusal {
        Refusal::OutOfMemory => refusal.status(),
        _ => WRITE_FAULT,
    }
}

// The answer of this status where nothing ran.
fn nothing_ran(alloc: Global, status: u8) -> Report
    ensures status { result.status ≡ status }
    ensures no_run { HasNoRun result }
{
    Report {
        status,
        ended: None,
        steps: 0,
        journal: Journal::new(alloc),
    }
}
