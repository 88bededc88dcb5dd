//! Texts as values.
ghost use Rattle.std.specs.Prelude.{◌≡◌, ◌≤◌, ◌++◌, Some, IfOk, OnOk, IsSome, chars, length, string_bytes};
ghost use Rattle.campl_value.specs.Shown.{shown_bytes};
ghost use Rattle.campl_value.specs.Text.{text_of, chars_of};

use crate::limits::TEXT_MAX;
use campl_value::{Made, Value, push_shown};
use std::alloc::{AllocError, Global};
use std::marker::Model;

/// A value that is a text, which contracts see as the list of its characters.
#[derive(Drop)]
pub struct TextValue {
    value: Value,
}

impl Model for TextValue {
    ghost use Rattle.std.specs.Prelude.{List, ℕ, [], IsSome, unwrap_or};
    ghost use Rattle.std.specs.Coded.{coded_list, coded_ℕ};
    ghost use Rattle.campl_value.specs.Text.{chars_of};

    ghost Value = { List ℕ };

    ghost coded = { coded_list coded_ℕ };

    ghost view = { λ text. unwrap_or (chars_of text.value) [] };

    ghost invariant = { λ text. IsSome (chars_of text.value) };
}

impl TextValue {
    /// The text of these characters. An error means that memory is out.
    pub fn of(alloc: Global, characters: Vec<char>) -> Result<TextValue, AllocError>
        requires { length characters.items ≤ TEXT_MAX }
        ensures { IfOk result (λ text. text ≡ characters.items) }
    {
        match Value::letters(alloc, characters, Value::nil())? {
            Made::Is(value) => Ok(TextValue { value }),
            Made::TooDeep => unreachable!(),
        }
    }

    /// A value that is a text.
    pub fn from_value(value: Value) -> TextValue
        requires { IsSome (chars_of value) }
        ensures { chars_of value ≡ Some result }
    {
        TextValue { value }
    }

    /// An equal text, which shares its memory with this one. An error means that memory is out.
    pub fn copy(&self) -> Result<TextValue, AllocError>
        ensures { IfOk result (λ copy. copy ≡ self.now) }
    {
        let value = self.value.copy()?;
        Ok(TextValue { value })
    }

    /// The value, which shares its memory with this one. An error means that memory is out.
    pub fn value(&self) -> Result<Value, AllocError>
        ensures { IfOk result (λ value. value ≡ text_of self.now) }
    {
        let value = self.value.copy()?;
        Ok(value)
    }

    /// Appends the text as it is printed. An error means that memory is out.
    pub fn push_shown(&self, alloc: Global, bytes: &mut Vec<u8>) -> Result<(), AllocError>
        ensures { OnOk result (bytes.new.items ≡ bytes.old.items ++ shown_bytes self.now) }
    {
        let spelled = self.spelled(alloc)?;
        push_shown(bytes, spelled.as_str())
    }

    /// The text as it is printed. An error means that memory is out.
    pub fn shown(&self, alloc: Global) -> Result<String, AllocError>
        ensures { IfOk result (λ shown. string_bytes shown ≡ shown_bytes self.now) }
    {
        let spelled = self.spelled(alloc)?;
        shown(alloc, spelled.as_str())
    }

    fn spelled(&self, alloc: Global) -> Result<String, AllocError>
        ensures { IfOk result (λ spelled. chars (string_bytes spelled) ≡ self.now) }
    {
        match self.value.characters(alloc)? {
            Some(characters) => collect(alloc, characters.as_slice()),
            None => unreachable!(),
        }
    }
}

#[tactic(auto, using(crate::proofs::Printed::shown_is_utf8))]
fn shown(alloc: Global, text: &str) -> Result<String, AllocError>
    ensures { IfOk result (λ shown. string_bytes shown ≡ shown_bytes (chars text.now)) }
{
    let mut bytes = Vec::new(alloc);
    push_shown(&mut bytes, text)?;
    match String::from_utf8(bytes) {
        Ok(shown) => Ok(shown),
        Err(_) => unreachable!(),
    }
}

// The text of these characters.
pub fn collect(alloc: Global, characters: &[char]) -> Result<String, AllocError>
    ensures { IfOk result (λ spelled. chars (string_bytes spelled) ≡ characters.now) }
{
    let mut spelled = String::with_capacity(alloc, characters.len())?;
    for c in characters {
        spelled.push(*c)?;
    }
    Ok(spelled)
}
