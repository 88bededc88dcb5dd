//! A text: bytes that are UTF-8, and not too many.
ghost use Rattle.std.specs.Prelude.{◌≡◌, ◌≤◌, IfOk, length};
ghost use Rattle.std.specs.Str.{IsUtf8};
ghost use Rattle.campl_text.specs.declared.utf8.TheConstants.{TEXT_BYTES_MAX};

use std::alloc::{AllocError, Global};
use std::marker::Model;

/// How many bytes a text has at most.
pub const TEXT_BYTES_MAX: u64 = 4_294_967_294;

/// UTF-8 of at most `TEXT_BYTES_MAX` bytes. Contracts see its bytes.
#[derive(Debug, Drop)]
pub struct Text {
    string: String,
}

impl Model for Text {
    ghost use Rattle.std.specs.Prelude.{ℕ, List, ◌≤◌, string_len, string_bytes};
    ghost use Rattle.campl_text.specs.declared.utf8.TheConstants.{TEXT_BYTES_MAX};

    ghost Value = { List ℕ };

    ghost view = { λ t. string_bytes t.string };

    ghost invariant = { λ t. string_len t.string ≤ TEXT_BYTES_MAX };
}

impl Text {
    /// A copy of `s`.
    pub fn of(alloc: Global, s: &str) -> Result<Text, AllocError>
        requires { length s.now ≤ TEXT_BYTES_MAX }
        ensures { IfOk result (λ text. text ≡ s.now) }
    {
        Ok(Text {
            string: String::from_str(alloc, s)?,
        })
    }

    pub fn as_str(&self) -> &str
        ensures bytes { result.now ≡ self.now }
        ensures utf8 { IsUtf8 self.now }
        ensures within { length self.now ≤ TEXT_BYTES_MAX }
    {
        self.string.as_str()
    }
}
