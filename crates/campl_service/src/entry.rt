//! What a line of a script says.
ghost use Rattle.std.specs.Prelude.{◌≡◌, ◌<◌, ◌≤◌, Some, IfOk, IfSome, OnOk, length, option_map};
ghost use Rattle.campl_service.specs.Reading.{Answers, IsKnown, place_of, place_of_any, place_in, known_places, judged_line, judged_content, judged_channel, judged_text, most_lines, most_characters, without_space, text_meant};

use crate::characters::len_before;
use crate::escapes::unescape;
use crate::fault::ScriptFault;
use crate::limits::{
    LINE_MAX, LINES_MAX, NAME_MAX, TEXT_MAX, VERSION_2_LINE_MAX, VERSION_2_LINES_MAX,
};
use crate::text::TextValue;
use campl_tree::ServiceName;
use std::alloc::{AllocError, Global};

// The version of a script.
#[derive(Clone, Copy)]
pub enum Version {
    One,
    Two,
}

impl Version {
    fn most_lines(self) -> u32
        ensures { result ≡ most_lines self }
    {
        match self {
            Version::One => LINES_MAX,
            Version::Two => VERSION_2_LINES_MAX,
        }
    }

    fn most_characters(self) -> usize
        ensures { result ≡ most_characters self }
    {
        match self {
            Version::One => LINE_MAX,
            Version::Two => VERSION_2_LINE_MAX,
        }
    }
}

// Which names are known, each by its place.
#[derive(Clone, Copy)]
pub enum Known<'a> {
    // The names of a heading, counted from 0.
    Heading(&'a [ServiceName]),
    // Every name that a channel can have, at the place 0.
    AnyName,
}

// A text for a channel, by the place of its name.
#[derive(Drop)]
pub struct Entry {
    pub channel: usize,
    pub text: TextValue,
}

// What the line of this number says, which is nothing where it is empty.
pub fn read_line(
    alloc: Global,
    version: Version,
    known: Known<'_>,
    number: u32,
    line: &[char],
) -> Result<Option<Entry>, ScriptFault>
    ensures answer { Answers (judged_line version (place_in known.entry) number line.now) result }
    ensures channel { IsKnown known.entry result }
    ensures few { OnOk result (number ≤ most_lines version) }
{
    if number > version.most_lines() {
        return Err(ScriptFault::TooManyLines { line: number });
    }
    if line.len() > version.most_characters() {
        return Err(ScriptFault::LineTooLong { line: number });
    }
    if line.is_empty() {
        return Ok(None);
    }
    read_content(alloc, version, known, number, line)
}

// A line that isn't empty.
fn read_content(
    alloc: Global,
    version: Version,
    known: Known<'_>,
    number: u32,
    line: &[char],
) -> Result<Option<Entry>, ScriptFault>
    ensures answer { Answers (judged_content version (place_in known.entry) number line.now) result }
    ensures channel { IsKnown known.entry result }
{
    let colon = len_before(':', line);
    if colon == line.len() {
        return Err(ScriptFault::NoColon { line: number });
    }
    match place_in(known, &line[..colon]) {
        Some(channel) => read_text(alloc, version, number, channel, &line[colon + 1..]),
        None => Err(ScriptFault::UnknownChannel { line: number }),
    }
}

// The place of a name, if it is known.
fn place_in(known: Known<'_>, name: &[char]) -> Option<usize>
    ensures value { result ≡ place_in known.entry name.now }
    ensures within { IfSome result (λ place. place < known_places known.entry) }
{
    match known {
        Known::Heading(names) => place_of(names, name),
        Known::AnyName => place_of_any(name),
    }
}

fn place_of_any(name: &[char]) -> Option<usize>
    ensures value { result ≡ place_of_any name.now }
    ensures within { IfSome result (λ place. place < 1) }
{
    if name.len() <= NAME_MAX {
        Some(0)
    } else {
        None
    }
}

// The place of a name in the heading.
fn place_of(names: &[ServiceName], name: &[char]) -> Option<usize>
    ensures value { result ≡ place_of names.now name.now }
    ensures within { IfSome result (λ place. place < length names.now) }
{
    for (place, service) in names.iter().enumerate() {
        if service.name.as_slice() == name {
            return Some(place);
        }
    }
    None
}

// What stands behind the colon, for this channel.
fn read_text(
    alloc: Global,
    version: Version,
    number: u32,
    channel: usize,
    text: &[char],
) -> Result<Option<Entry>, ScriptFault>
    ensures answer { Answers (judged_channel version number (Some channel) text.now) result }
    ensures channel { IfOk result (λ said. IfSome said (λ entry. entry.channel ≡ channel)) }
{
    match text_meant(alloc, version, without_space(text))? {
        Some(text) => kept_text(alloc, number, channel, text),
        None => Err(ScriptFault::BadEscape { line: number }),
    }
}

fn without_space(text: &[char]) -> &[char]
    ensures { result.now ≡ without_space text.now }
{
    match text {
        [' ', rest @ ..] => rest,
        _ => text,
    }
}

// What a text stands for.
fn text_meant(
    alloc: Global,
    version: Version,
    text: &[char],
) -> Result<Option<Vec<char>>, AllocError>
    ensures { IfOk result (λ found. option_map (λ meant. meant.items) found ≡ text_meant version text.now) }
{
    match version {
        Version::One => Ok(Some(Vec::from_slice(alloc, text)?)),
        Version::Two => unescape(alloc, text),
    }
}

// A text after its escapes.
fn kept_text(
    alloc: Global,
    number: u32,
    channel: usize,
    text: Vec<char>,
) -> Result<Option<Entry>, ScriptFault>
    ensures answer { Answers (judged_text number channel (Some text.items)) result }
    ensures channel { IfOk result (λ said. IfSome said (λ entry. entry.channel ≡ channel)) }
{
    if text.len() > TEXT_MAX {
        return Err(ScriptFault::LineTooLong { line: number });
    }
    let text = TextValue::of(alloc, text)?;
    Ok(Some(Entry { channel, text }))
}
