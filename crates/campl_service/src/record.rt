//! What a service notes.
ghost use Rattle.std.specs.Prelude.{◌≡◌, ◌++◌, IfOk, OnOk};
ghost use Rattle.campl_service.specs.Transcripts.{record_of, Took, Sent};
ghost use Rattle.campl_service.specs.Output.{record_line};

use crate::text::TextValue;
use std::alloc::{AllocError, Global};

// A text that was taken, a line that was sent, or the end. A text stays the value that it is, so that noting it takes
// no memory.
pub enum Noted {
    Took(TextValue),
    Sent(TextValue),
    Closed,
}

impl Drop for Noted {
    fn drop(self) {
        match self {
            Noted::Took(text) | Noted::Sent(text) => drop(text),
            Noted::Closed => {}
        }
    }
}

impl Noted {
    pub fn copy(&self) -> Result<Noted, AllocError>
        ensures { IfOk result (λ copy. copy ≡ self.now) }
    {
        Ok(match self {
            Noted::Took(text) => Noted::Took(text.copy()?),
            Noted::Sent(line) => Noted::Sent(line.copy()?),
            Noted::Closed => Noted::Closed,
        })
    }

    // Appends the line that is printed.
    pub fn push_line(&self, alloc: Global, bytes: &mut Vec<u8>) -> Result<(), AllocError>
        ensures { OnOk result (bytes.new.items ≡ bytes.old.items ++ record_line (record_of self.now)) }
    {
        match self {
            Noted::Took(text) => push_taken(alloc, text, bytes),
            Noted::Sent(line) => push_sent(alloc, line, bytes),
            Noted::Closed => {
                bytes.extend_from_slice(b"closed\n")?;
                Ok(())
            }
        }
    }
}

// The line of a text that was taken.
fn push_taken(alloc: Global, text: &TextValue, bytes: &mut Vec<u8>) -> Result<(), AllocError>
    ensures { OnOk result (bytes.new.items ≡ bytes.old.items ++ record_line (Took text.now)) }
{
    bytes.extend_from_slice(b"> ")?;
    text.push_shown(alloc, bytes)?;
    bytes.extend_from_slice(b"\n")?;
    Ok(())
}

// The line of a line that was sent.
fn push_sent(alloc: Global, line: &TextValue, bytes: &mut Vec<u8>) -> Result<(), AllocError>
    ensures { OnOk result (bytes.new.items ≡ bytes.old.items ++ record_line (Sent line.now)) }
{
    bytes.extend_from_slice(b"< ")?;
    line.push_shown(alloc, bytes)?;
    bytes.extend_from_slice(b"\n")?;
    Ok(())
}
