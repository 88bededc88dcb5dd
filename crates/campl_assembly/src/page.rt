//! A text that grows.
ghost use Rattle.std.specs.Prelude.{◌≡◌, ◌++◌, [], ◌∷◌, OnOk, IfOk, ◌<◌, ◌^◌, codes, chars, map, flat_map, false, encode_utf8_all, string_bytes};
ghost use Rattle.std.specs.Fmt.{decimal, digits, signed_decimal};
ghost use Rattle.campl_code.specs.Listing.{with_operands, with_numbers, number_list, in_line};

use std::alloc::{AllocError, Global};
use std::fmt::Write;
use std::marker::Model;

/// A text that grows, which contracts see as the list of its characters.
#[derive(Drop)]
pub(crate) struct Page {
    text: String,
}

impl Model for Page {
    ghost use Rattle.std.specs.Prelude.{List, ℕ, chars, string_bytes};
    ghost use Rattle.std.specs.Coded.{coded_list, coded_ℕ};

    ghost Value = { List ℕ };

    ghost coded = { coded_list coded_ℕ };

    ghost view = { λ p. chars (string_bytes p.text) };
}

impl Page {
    #[tactic(auto, using(crate::proofs::Characters::characters))]
    pub(crate) fn new(alloc: Global) -> Page
        ensures { result ≡ [] }
    {
        Page {
            text: String::new(alloc),
        }
    }

    // The text, in UTF-8.
    #[tactic(auto, using(crate::proofs::Characters::characters))]
    pub(crate) fn into_string(self) -> String
        ensures { string_bytes result ≡ encode_utf8_all self }
    {
        let Page { text } = self;
        text
    }

    #[tactic(auto, using(crate::proofs::Characters::characters))]
    pub(crate) fn push_str(&mut self, text: &str) -> Result<(), AllocError>
        ensures { OnOk result (self.new ≡ self.old ++ chars text.now) }
    {
        self.text.push_str(text)
    }

    #[tactic(auto, using(crate::proofs::Characters::characters))]
    pub(crate) fn push_char(&mut self, c: char) -> Result<(), AllocError>
        ensures { OnOk result (self.new ≡ self.old ++ c ∷ []) }
    {
        self.text.push(c)
    }

    pub(crate) fn push_name(&mut self, name: &[char]) -> Result<(), AllocError>
        ensures { OnOk result (self.new ≡ self.old ++ name.now) }
    {
        for c in name {
            self.push_char(*c)?;
        }
        Ok(())
    }

    // A number, in decimal.
    #[tactic(auto, using(crate::proofs::Characters::characters))]
    pub(crate) fn push_number(&mut self, n: u64) -> Result<(), AllocError>
        ensures { OnOk result (self.new ≡ self.old ++ decimal n) }
    {
        let number = format!(in *self.text.allocator(); "{n}")?;
        self.push_str(number.as_str())
    }

    // A number, with `-` directly before a negative one.
    #[tactic(auto, using(crate::proofs::Characters::characters))]
    pub(crate) fn push_signed(&mut self, n: i64) -> Result<(), AllocError>
        ensures { OnOk result (self.new ≡ self.old ++ signed_decimal n) }
    {
        let number = format!(in *self.text.allocator(); "{n}")?;
        self.push_str(number.as_str())
    }

    // A character as an escape by its number.
    #[tactic(auto, using(crate::proofs::Characters::characters))]
    pub(crate) fn push_code(&mut self, code: u32) -> Result<(), AllocError>
        requires { code < 256 }
        ensures { OnOk result (self.new ≡ self.old ++ (codes "\\u{" ++ (digits 16 false code ++ codes "}"))) }
    {
        let escape = format!(in *self.text.allocator(); "\\u{{{code:x}}}")?;
        self.push_str(escape.as_str())
    }
}
