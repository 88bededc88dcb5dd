//! A text that a refusal shows.
ghost use Rattle.std.specs.Prelude.{◌≡◌, ◌++◌, [], ◌∷◌, IfOk, OnOk, Some, chars, encode_utf8_all};

use std::alloc::{AllocError, Global};
use std::fmt;
use std::marker::Model;

/// A text that a refusal shows, which contracts see as the list of its characters.
#[derive(Debug, Drop)]
pub struct Shown {
    chars: Vec<char>,
}

impl Model for Shown {
    ghost use Rattle.std.specs.Prelude.{List, ℕ};
    ghost use Rattle.std.specs.Coded.{coded_list, coded_ℕ};

    ghost Value = { List ℕ };

    ghost coded = { coded_list coded_ℕ };

    ghost view = { λ s. s.chars.items };
}

impl Shown {
    /// What a text shows.
    pub fn of(alloc: Global, text: &str) -> Result<Shown, AllocError>
        ensures { IfOk result (λ s. s ≡ chars text.now) }
    {
        let chars = text.chars().collect(alloc)?;
        Ok(Shown { chars })
    }

    /// A text with no character yet.
    pub fn new(alloc: Global) -> Shown
        ensures { result ≡ [] }
    {
        Shown {
            chars: Vec::new(alloc),
        }
    }

    /// What these characters show.
    pub fn from_chars(chars: Vec<char>) -> Shown
        ensures { result ≡ chars.items }
    {
        Shown { chars }
    }

    /// Puts a character behind the text.
    pub fn push_char(&mut self, c: char) -> Result<(), AllocError>
        ensures { OnOk result (self.new ≡ self.old ++ c ∷ []) }
    {
        self.chars.push(c)?;
        Ok(())
    }

    /// Puts characters behind the text.
    pub fn push_chars(&mut self, chars: &[char]) -> Result<(), AllocError>
        ensures { OnOk result (self.new ≡ self.old ++ chars.now) }
    {
        self.chars.extend_from_slice(chars)
    }

    /// Puts another text behind the text.
    pub fn push_str(&mut self, text: &str) -> Result<(), AllocError>
        ensures { OnOk result (self.new ≡ self.old ++ chars text.now) }
    {
        for c in text.chars() {
            self.push_char(c)?;
        }
        Ok(())
    }
}

impl fmt::Display for Shown {
    ghost output = { λ s. Some (encode_utf8_all s) };

    fn fmt<W: fmt::Write>(&self, f: &mut fmt::Formatter<W>) -> fmt::Result {
        for c in &self.chars {
            f.write_char(*c)?;
        }
        Ok(())
    }
}
