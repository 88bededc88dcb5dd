//! Scripts out of texts.
ghost use Rattle.std.specs.Prelude.{◌≡◌, ◌≤◌, IfOk, OnOk, IfSome, ◌<◌, chars, length};
ghost use Rattle.campl_service.specs.Reading.{Answers, Leaves, place_of, is_version_line, judged, judged_lines, lines_of, scripts_of, with_line, with_lines};

use crate::characters::{split_line, strip_return};
use crate::entry::{Entry, Known, Version, read_line};
use crate::fault::ScriptFault;
use crate::script::Scripts;
use campl_text::Text;
use campl_tree::ServiceName;
use std::alloc::{AllocError, Global};

/// The line with which a script of version 2 begins.
const VERSION_LINE: [char; 14] = [
    'c', 'a', 'm', 'p', 'l', ' ', 's', 'c', 'r', 'i', 'p', 't', ' ', '2',
];

/// The script of each of these channels, in their order, or the first fault of the text. Time is linear in the text, and in the
/// names for each line.
pub fn read_script(
    alloc: Global,
    text: &Text,
    names: &[ServiceName],
) -> Result<Scripts, ScriptFault>
    ensures { Answers (scripts_of names.now (chars text.now)) result }
{
    let characters = characters_of(alloc, text.as_str())?;
    let mut scripts = Scripts::empty(alloc, names.len())?;
    match read_all(alloc, names, characters.as_slice(), &mut scripts) {
        Ok(()) => Ok(scripts),
        Err(fault) => Err(fault),
    }
}

// The characters of a text.
pub fn characters_of(alloc: Global, text: &str) -> Result<Vec<char>, AllocError>
    ensures { IfOk result (λ characters. characters.items ≡ chars text.now) }
{
    text.chars().collect(alloc)
}

// Puts the text of each line behind those of its channel, but for a version line.
fn read_all(
    alloc: Global,
    names: &[ServiceName],
    characters: &[char],
    scripts: &mut Scripts,
) -> Result<(), ScriptFault>
    requires { length scripts.old ≡ length names.now }
    ensures { Leaves (with_lines scripts.old (judged (place_of names.now) (lines_of characters.now))) result scripts.new }
{
    if characters.is_empty() {
        return Ok(());
    }
    let (piece, behind) = split_line(characters);
    if is_version_line(strip_return(piece)) {
        read_lines(alloc, Version::Two, names, 2, behind, scripts)
    } else {
        read_lines(alloc, Version::One, names, 1, characters, scripts)
    }
}

pub fn is_version_line(line: &[char]) -> bool
    ensures { result ≡ is_version_line line.now }
{
    line == VERSION_LINE.as_slice()
}

// The same of the lines from the one of this number on.
fn read_lines(
    alloc: Global,
    version: Version,
    names: &[ServiceName],
    first: u32,
    characters: &[char],
    scripts: &mut Scripts,
) -> Result<(), ScriptFault>
    requires few { first ≤ 2 }
    requires all { length scripts.old ≡ length names.now }
    ensures { Leaves (with_lines scripts.old (judged_lines version (place_of names.now) first (lines_of characters.now))) result scripts.new }
{
    let mut number = first;
    let mut rest = characters;
    'lines: while !rest.is_empty() {
        let (piece, behind) = split_line(rest);
        let said = read_line(
            alloc,
            version,
            Known::Heading(names),
            number,
            strip_return(piece),
        )?;
        put(scripts, said)?;
        number += 1;
        rest = behind;
    }
    Ok(())
}

// Puts what a line says behind what its channel has.
fn put(scripts: &mut Scripts, said: Option<Entry>) -> Result<(), AllocError>
    requires { IfSome said (λ entry. entry.channel < length scripts.old) }
    ensures put { OnOk result (scripts.new ≡ with_line scripts.old said) }
    ensures all { length scripts.new ≡ length scripts.old }
{
    match said {
        Some(entry) => scripts.push_line(entry.channel, entry.text),
        None => Ok(()),
    }
}
