//! Texts in quotes.
use crate::operands::character;
use sqlite_items::Items;
use std::alloc::{AllocError, Global};

// What was read before a character.
#[derive(Clone, Copy)]
enum Before {
    // No escape, or all of it.
    Whole,
    // A backslash.
    Backslash,
    // A character's number so far.
    Number(u32),
}

/// The characters of the text that stands in quotes at the end of a line.
pub fn text_of(alloc: Global, line: &str) -> Result<Items<char>, AllocError> {
    let mut text = Items::new(alloc);
    let mut before = Before::Whole;
    for c in inside(line).chars() {
        let (now, spelled) = spelled(before, c);
        before = now;
        if let Some(c) = spelled {
            text.push(c)?;
        }
    }
    Ok(text)
}

// What stands between the first quote and the last.
fn inside(line: &str) -> &str {
    match line.split_once('"') {
        Some((_, quoted)) => match quoted.strip_suffix('"') {
            Some(inside) => inside,
            None => quoted,
        },
        None => "",
    }
}

// What is read by now, and the character that is spelled with this one.
fn spelled(before: Before, c: char) -> (Before, Option<char>) {
    match before {
        Before::Whole => match c {
            '\\' => (Before::Backslash, None),
            _ => (Before::Whole, Some(c)),
        },
        Before::Backslash => escaped(c),
        Before::Number(number) => numbered(number, c),
    }
}

// The same behind a backslash.
fn escaped(c: char) -> (Before, Option<char>) {
    match c {
        'u' => (Before::Number(0), None),
        'n' => (Before::Whole, Some('\n')),
        'r' => (Before::Whole, Some('\r')),
        't' => (Before::Whole, Some('\t')),
        _ => (Before::Whole, Some(c)),
    }
}

// The same in the braces of a number.
fn numbered(number: u32, c: char) -> (Before, Option<char>) {
    match c.to_digit(16) {
        Some(digit) => (
            Before::Number(number.wrapping_mul(16).wrapping_add(digit)),
            None,
        ),
        None => match c {
            '}' => (Before::Whole, Some(character(number))),
            _ => (Before::Number(number), None),
        },
    }
}
