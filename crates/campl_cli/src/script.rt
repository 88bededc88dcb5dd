//! Why scripts are refused, and scripts that are migrated.
ghost use Rattle.std.specs.Prelude.{◌≡◌, MatchResult};
ghost use Rattle.campl_cli.specs.Refusals.{files, IsRefusedMigration, IsRefusedScript};
ghost use Rattle.campl_cli.specs.Scripts.{IsMigrated, line_number, what_is_wrong};
ghost use Rattle.campl_cli.specs.Told.{MigratesFile};

use crate::reading::read_script;
use crate::refusal::Refusal;
use campl_service::{MigrateFault, ScriptFault, migrate_script};
use campl_text::{Shelf, Text};
use std::alloc::Global;

/// Why a script is refused.
#[derive(Clone, Copy, Debug, PartialEq, Eq)]
pub enum ScriptRefusal {
    /// It is longer than [`SCRIPT_BYTES_MAX`](campl_service::SCRIPT_BYTES_MAX).
    TooLong,
    /// It isn't UTF-8; its longest front that is has `at` bytes.
    NotUtf8 { at: u64 },
    /// It has a fault, of which this is the first.
    Line(ScriptFault),
    /// In version 2 it would be longer than that.
    MigratedTooLong,
}

/// The script of a file in version 2.
///
/// # Errors
///
/// The refusal for the first reason why there is none, or `OutOfMemory` where memory wants.
pub fn migrated_of<F: Shelf>(alloc: Global, file: &str, shelf: &mut F) -> Result<Text, Refusal>
    ensures { MatchResult result
        (MigratesFile (files F.holds F.faults shelf.old shelf.new) file.now)
        (IsRefusedMigration (files F.holds F.faults shelf.old shelf.new) file.now) }
{
    match read_script(alloc, file, shelf) {
        Ok(text) => migrated_text(alloc, &text),
        Err(refusal) => Err(refusal),
    }
}

fn migrated_text(alloc: Global, text: &Text) -> Result<Text, Refusal>
    ensures { MatchResult result (IsMigrated text.now) (IsRefusedScript text.now) }
{
    match migrate_script(alloc, text) {
        Ok(script) => Ok(script),
        Err(MigrateFault::Script(fault)) => Err(Refusal::Script(ScriptRefusal::Line(fault))),
        Err(MigrateFault::TooLong) => Err(Refusal::Script(ScriptRefusal::MigratedTooLong)),
        Err(MigrateFault::OutOfMemory) => Err(Refusal::OutOfMemory),
    }
}

/// The number of the line with a fault.
pub(crate) fn line_number(fault: &ScriptFault) -> u32
    ensures { result ≡ line_number fault.now }
{
    match fault {
        ScriptFault::NoColon { line }
        | ScriptFault::UnknownChannel { line }
        | ScriptFault::LineTooLong { line }
        | ScriptFault::TooManyLines { line }
        | ScriptFault::BadEscape { line } => *line,
        ScriptFault::OutOfMemory => 0,
    }
}

/// What is wrong with it.
pub(crate) fn what_is_wrong(fault: &ScriptFault) -> &'static str
    ensures { result.now ≡ what_is_wrong fault.now }
{
    match fault {
        ScriptFault::NoColon { .. } => "no colon",
        ScriptFault::UnknownChannel { .. } => "unknown channel",
        ScriptFault::LineTooLong { .. } => "too long",
        ScriptFault::TooManyLines { .. } => "too many lines",
        ScriptFault::BadEscape { .. } => "bad escape",
        ScriptFault::OutOfMemory => "out of memory",
    }
}
