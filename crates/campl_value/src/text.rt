// Texts, which are the lists of their characters.
ghost use Rattle.std.specs.Prelude.{◌≡◌, IfOk, option_map};
ghost use Rattle.std.specs.Str.{chars};
ghost use Rattle.campl_value.specs.Made.{IsMade};
ghost use Rattle.campl_value.specs.Text.{text_of, chars_of, IsFront, IsRow};

use crate::value::{Look, MAX_DEPTH, Made, Part, Value};
use std::alloc::{AllocError, Global};

impl Value {
    /// The list of the characters of `s`, of depth one more than their number. An error means that
    /// memory is out.
    pub fn text(alloc: Global, s: &str) -> Result<Made, AllocError>
        ensures { IfOk result (λ made. IsMade (text_of (chars s.now)) made) }
    {
        let characters = collect(alloc, s)?;
        Value::letters(alloc, characters, Value::nil())
    }

    /// The list of these characters, of depth one more than their number. An error means that memory is out.
    pub fn text_of(alloc: Global, characters: &[char]) -> Result<Made, AllocError>
        ensures { IfOk result (λ made. IsMade (text_of characters.now) made) }
    {
        if characters.len() >= MAX_DEPTH as usize {
            return Ok(Made::TooDeep);
        }
        let characters = Vec::from_slice(alloc, characters)?;
        Value::letters(alloc, characters, Value::nil())
    }

    /// The characters of a text, or `None` exactly where this is no list of characters. An error means
    /// that memory is out.
    pub fn characters(&self, alloc: Global) -> Result<Option<Vec<char>>, AllocError>
        ensures { IfOk result (λ found. option_map (λ read. read.items) found ≡ chars_of self.now) }
    {
        let mut read = Vec::new(alloc);
        let mut rest = self.part();
        loop {
            match row_of(&rest) {
                Row::End => return Ok(Some(read)),
                Row::Letter(c, behind) => {
                    read.push(c)?;
                    rest = behind;
                }
                Row::Letters(letters, behind) => {
                    read.extend_from_slice(letters)?;
                    rest = behind;
                }
                Row::NoText => return Ok(None),
            }
        }
    }
}

// What a text begins with.
#[derive(Drop)]
pub enum Front<'a> {
    End,
    // A character, and the text behind it.
    Letter(char, Part<'a>),
    NoText,
}

// What `text` begins with.
pub fn front_of<'a>(text: &Part<'a>) -> Front<'a>
    ensures { IsFront text.now result }
{
    match text.look() {
        Look::Nil => Front::End,
        Look::Cell(head, behind) => match head.look() {
            Look::Char(c) => Front::Letter(c, behind),
            _ => Front::NoText,
        },
        _ => Front::NoText,
    }
}

// What a text begins with, as many letters at once as stand in a row.
#[derive(Drop)]
enum Row<'a> {
    End,
    Letter(char, Part<'a>),
    // Letters, and the text behind them.
    Letters(&'a [char], Part<'a>),
    NoText,
}

// What `text` begins with.
fn row_of<'a>(text: &Part<'a>) -> Row<'a>
    ensures { IsRow text.now result }
{
    if let Some((letters, behind)) = text.row() {
        return Row::Letters(letters, behind.part());
    }
    match front_of(text) {
        Front::End => Row::End,
        Front::Letter(c, behind) => Row::Letter(c, behind),
        Front::NoText => Row::NoText,
    }
}

fn collect(alloc: Global, s: &str) -> Result<Vec<char>, AllocError>
    ensures { IfOk result (λ read. read.items ≡ chars s.now) }
{
    s.chars().collect(alloc)
}
