//! All lines of a script, written anew.
ghost use Rattle.std.specs.Prelude.{◌≡◌, ◌≢◌, ◌≤◌, ◌++◌, ◌∷◌, [], Some, OnOk, IfErr, chars, codes, string_bytes, encode_utf8_all};
ghost use Rattle.campl_service.specs.declared.fault.ScriptFault.TheVariants as fault;
ghost use Rattle.campl_service.specs.Reading.{Leaves, lines_of};
ghost use Rattle.campl_service.specs.declared.fault.MigrateFault.TheVariants.{Script};
ghost use Rattle.campl_service.specs.Migration.{Gives, Migrates, migrated_behind, migrated_line, migrated_lines, rewritten, within};
ghost use Rattle.campl_value.specs.Shown.{shown_bytes, shown_text};
ghost use Rattle.campl_service.specs.Writing.{put_behind_bytes, told};

use crate::characters::{len_before, split_line, strip_return};
use crate::entry::{Entry, Known, Version, read_line};
use crate::fault::{MigrateFault, ScriptFault};
use crate::limits::SCRIPT_BYTES_MAX;
use crate::reading::{characters_of, is_version_line};
use crate::text::{TextValue, collect};
use campl_text::Text;
use std::alloc::{AllocError, Global};

/// What is written before the lines.
const VERSION_LINE: &str = "campl script 2\n";

/// The script in version 2: the version line, and behind it each line of the script but a version line. An empty line stays
/// empty; any other becomes its name, a colon, a space and its text with escapes. Every line ends with LF. The script is judged
/// as its version says, and each name of at most `NAME_MAX` characters is known. Time is linear in the script.
pub fn migrate_script(alloc: Global, script: &Text) -> Result<Text, MigrateFault>
    ensures answer { Migrates (chars script.now) result }
    ensures named { IfErr result (λ f. f ≢ Script fault.OutOfMemory) }
{
    let characters = characters_of(alloc, script.as_str())?;
    let mut output = String::from_str(alloc, VERSION_LINE)?;
    match migrate_behind(alloc, characters.as_slice(), &mut output) {
        Ok(()) => text_within(alloc, output.as_str()),
        Err(fault) => Err(told(fault)),
    }
}

// The text, if it hasn't too many bytes.
fn text_within(alloc: Global, text: &str) -> Result<Text, MigrateFault>
    ensures answer { Gives (within text.now) result }
    ensures named { IfErr result (λ f. f ≢ Script fault.OutOfMemory) }
{
    if text.len() as u64 > SCRIPT_BYTES_MAX {
        return Err(MigrateFault::TooLong);
    }
    let text = Text::of(alloc, text)?;
    Ok(text)
}

fn told(fault: ScriptFault) -> MigrateFault
    ensures { result ≡ told fault }
{
    match fault {
        ScriptFault::OutOfMemory => MigrateFault::OutOfMemory,
        _ => MigrateFault::Script(fault),
    }
}

// Appends all lines but a version line.
fn migrate_behind(
    alloc: Global,
    characters: &[char],
    output: &mut String,
) -> Result<(), ScriptFault>
    ensures { Leaves (put_behind_bytes (string_bytes output.old) (migrated_behind (lines_of characters.now))) result (string_bytes output.new) }
{
    if characters.is_empty() {
        return Ok(());
    }
    let (piece, behind) = split_line(characters);
    if is_version_line(strip_return(piece)) {
        migrate_lines(alloc, Version::Two, 2, behind, output)
    } else {
        migrate_lines(alloc, Version::One, 1, characters, output)
    }
}

// The same of the lines from the one of this number on.
fn migrate_lines(
    alloc: Global,
    version: Version,
    first: u32,
    characters: &[char],
    output: &mut String,
) -> Result<(), ScriptFault>
    requires few { first ≤ 2 }
    ensures { Leaves (put_behind_bytes (string_bytes output.old) (migrated_lines version first (lines_of characters.now))) result (string_bytes output.new) }
{
    let mut number = first;
    let mut rest = characters;
    'lines: while !rest.is_empty() {
        let (piece, behind) = split_line(rest);
        migrate_line(alloc, version, number, strip_return(piece), output)?;
        number += 1;
        rest = behind;
    }
    Ok(())
}

// Appends a line with its end.
fn migrate_line(
    alloc: Global,
    version: Version,
    number: u32,
    line: &[char],
    output: &mut String,
) -> Result<(), ScriptFault>
    ensures written { Leaves (put_behind_bytes (string_bytes output.old) (migrated_line version number line.now)) result (string_bytes output.new) }
    ensures few { OnOk result (number ≤ 100001) }
{
    let said = read_line(alloc, version, Known::AnyName, number, line)?;
    push_said(alloc, &line[..len_before(':', line)], &said, output)?;
    Ok(())
}

// What is said under a name, with the end of its line.
fn push_said(
    alloc: Global,
    name: &[char],
    said: &Option<Entry>,
    output: &mut String,
) -> Result<(), AllocError>
    ensures { OnOk result (string_bytes output.new ≡ string_bytes output.old ++ encode_utf8_all (rewritten name.now said.now ++ 10 ∷ [])) }
{
    match said {
        Some(entry) => push_entry(alloc, name, entry, output),
        None => push_end(output),
    }
}

fn push_entry(
    alloc: Global,
    name: &[char],
    entry: &Entry,
    output: &mut String,
) -> Result<(), AllocError>
    ensures { OnOk result (string_bytes output.new ≡ string_bytes output.old ++ encode_utf8_all (rewritten name.now (Some entry.now) ++ 10 ∷ [])) }
{
    let name = collect(alloc, name)?;
    push_named(alloc, name.as_str(), &entry.text, output)
}

fn push_named(
    alloc: Global,
    name: &str,
    text: &TextValue,
    output: &mut String,
) -> Result<(), AllocError>
    ensures { OnOk result (string_bytes output.new ≡ string_bytes output.old ++ (name.now ++ (codes ": " ++ (shown_bytes text.now ++ encode_utf8_all (10 ∷ []))))) }
{
    let shown = text.shown(alloc)?;
    push_parts(name, shown.as_str(), output)
}

fn push_parts(name: &str, text: &str, output: &mut String) -> Result<(), AllocError>
    ensures { OnOk result (string_bytes output.new ≡ string_bytes output.old ++ (name.now ++ (codes ": " ++ (text.now ++ encode_utf8_all (10 ∷ []))))) }
{
    output.push_str(name)?;
    output.push_str(": ")?;
    output.push_str(text)?;
    push_end(output)
}

fn push_end(output: &mut String) -> Result<(), AllocError>
    ensures { OnOk result (string_bytes output.new ≡ string_bytes output.old ++ encode_utf8_all (10 ∷ [])) }
{
    output.push('\n')?;
    Ok(())
}
