//! Reads sources and scripts, each within its limit.
ghost use Rattle.std.specs.Prelude.{◌≡◌, ◌≤◌, ℕ, List, MatchResult};
ghost use Rattle.campl_cli.specs.Refusals.{files, HasScript, HasText, IsUnread, IsUnreadScript};

use crate::refusal::{Refusal, SOURCE_LIMIT};
use crate::script::ScriptRefusal;
use campl_service::SCRIPT_BYTES_MAX;
use campl_text::{Shelf, Text, TextFault, read_text};
use std::alloc::Global;

/// Reads the text of a source. Whatever it answers, the shelf holds what it held.
///
/// # Errors
///
/// The refusal of a source that can't be read or isn't a text within its limit, or `OutOfMemory` where memory wants.
pub fn read_source<F: Shelf>(alloc: Global, file: &str, shelf: &mut F) -> Result<Text, Refusal>
    ensures read { MatchResult result
        (λ text. HasText (files F.holds F.faults shelf.old shelf.new) file.now text)
        (IsUnread (files F.holds F.faults shelf.old shelf.new) file.now) }
    ensures holds_same { (other : List ℕ) → F.holds shelf.new other ≡ F.holds shelf.old other }
    ensures counts { (other : List ℕ) → F.faults shelf.old other ≤ F.faults shelf.new other }
{
    match read_text(alloc, shelf, file, SOURCE_LIMIT) {
        Ok(text) => Ok(text),
        Err(TextFault::ReadFault) => Err(Refusal::ReadFault),
        Err(TextFault::TooLong) => Err(Refusal::TooLong),
        Err(TextFault::NotUtf8 { at }) => Err(Refusal::NotUtf8 { at }),
        Err(TextFault::OutOfMemory) => Err(Refusal::OutOfMemory),
    }
}

/// Reads the text of a script.
///
/// # Errors
///
/// As [`read_source`], with the refusals of a script.
pub fn read_script<F: Shelf>(alloc: Global, file: &str, shelf: &mut F) -> Result<Text, Refusal>
    ensures { MatchResult result
        (λ text. HasScript (files F.holds F.faults shelf.old shelf.new) file.now text)
        (IsUnreadScript (files F.holds F.faults shelf.old shelf.new) file.now) }
{
    match read_text(alloc, shelf, file, SCRIPT_BYTES_MAX) {
        Ok(text) => Ok(text),
        Err(TextFault::ReadFault) => Err(Refusal::ReadFault),
        Err(TextFault::TooLong) => Err(Refusal::Script(ScriptRefusal::TooLong)),
        Err(TextFault::NotUtf8 { at }) => Err(Refusal::Script(ScriptRefusal::NotUtf8 { at })),
        Err(TextFault::OutOfMemory) => Err(Refusal::OutOfMemory),
    }
}
