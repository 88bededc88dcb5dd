//! Reading a file by its name, piece by piece or as one text.
ghost use Rattle.std.specs.Prelude.{◌≡◌, ℕ, ◌<◌, ◌≤◌, List, Option, IfOk, OnErr, IsErrOf, MatchResult, IfSome, length, vec_len};
ghost use Rattle.campl_text.specs.Counts.{Rose};
ghost use Rattle.campl_text.specs.Given.{IsGiven};
ghost use Rattle.campl_text.specs.Reading.{IsReading, IsTextOf, IsTextWithin, MayStop};
ghost use Rattle.campl_text.specs.declared.utf8.TheConstants.{TEXT_BYTES_MAX};
ghost use Rattle.campl_text.specs.declared.reading.TheConstants.{PIECE_BYTES};

use crate::utf8::{TEXT_BYTES_MAX, Text};
use std::alloc::{AllocError, Global};

/// A read or a write didn't come about. The shelf's or the sink's count of faults rose.
#[derive(Clone, Copy, Debug, PartialEq, Eq)]
pub struct Failed;

/// Files under names, read by position.
pub trait Shelf {
    // The bytes under a name, which is given by its own bytes, where the shelf tells them.
    ghost holds: { Self → List ℕ → Option (List ℕ) };

    // The faults counted for a name.
    ghost faults: { Self → List ℕ → ℕ };

    /// Reads bytes of the file `name` from position `at` on into the front of `into`, and answers how
    /// many. It answers 0 at the file's end and past it, and only there. A name that isn't there is a fault.
    fn read(&mut self, name: &str, at: u64, into: &mut [u8]) -> Result<usize, Failed>
        requires { 0 < length into.old }
        ensures within { IfOk result (λ n. n ≤ length into.new) }
        ensures given { IfSome (holds self.old name.now) (λ contents. IfOk result (λ n. IsGiven contents at n into.new)) }
        ensures failed { OnErr result (Rose (faults self.old name.now) (faults self.new name.now)) }
        ensures holds_same { (other : List ℕ) → holds self.new other ≡ holds self.old other }
        ensures counts { (other : List ℕ) → faults self.old other ≤ faults self.new other };
}

/// Why a text wasn't read.
#[derive(Clone, Copy, Debug, PartialEq, Eq)]
pub enum TextFault {
    /// A read failed.
    ReadFault,
    /// The file has more bytes than the limit.
    TooLong,
    /// The file isn't UTF-8; its longest front that is has `at` bytes.
    NotUtf8 { at: u64 },
    /// Memory ran out.
    OutOfMemory,
}

impl From<AllocError> for TextFault {
    ghost use Rattle.std.specs.Prelude.{◌≡◌};
    ghost use Rattle.campl_text.specs.declared.reading.TextFault.TheVariants.{OutOfMemory};

    ghost from_gives = { λ _ fault. fault ≡ OutOfMemory };

    fn from(_error: AllocError) -> TextFault {
        TextFault::OutOfMemory
    }
}

/// How many bytes `read_text` asks for at once.
const PIECE_BYTES: usize = 65_536;

/// The byte order mark, which isn't part of a text.
const MARK: &str = "\u{FEFF}";

/// The text of the file `name`, which may have `limit` bytes: the file's bytes as UTF-8, without one leading
/// U+FEFF. The limit and the place `at` of `NotUtf8` count the bytes of that mark, and the limit holds also where the shelf
/// doesn't tell what the file has. Whatever the answer, the shelf holds what it held.
pub fn read_text<F: Shelf>(
    alloc: Global,
    shelf: &mut F,
    name: &str,
    limit: u64,
) -> Result<Text, TextFault>
    requires { limit ≤ TEXT_BYTES_MAX }
    ensures answer { IfSome (F.holds shelf.old name.now) (λ contents. IsReading contents limit result) }
    ensures within { IfOk result (IsTextWithin limit) }

    // A failed read is answered only where the name's count rose.
    ensures failed { IsErrOf result TextFault.ReadFault → Rose (F.faults shelf.old name.now) (F.faults shelf.new name.now) }
    ensures holds_same { (other : List ℕ) → F.holds shelf.new other ≡ F.holds shelf.old other }
    ensures counts { (other : List ℕ) → F.faults shelf.old other ≤ F.faults shelf.new other }
{
    let mut piece = zeroes(alloc, PIECE_BYTES)?;
    let contents = read_contents(alloc, shelf, name, limit, &mut piece)?;
    decoded(alloc, &contents)
}

// All bytes of the file `name`, if they are at most `limit`. Each turn reads into `piece` at least one byte, so it ends
// over every shelf.
fn read_contents<F: Shelf>(
    alloc: Global,
    shelf: &mut F,
    name: &str,
    limit: u64,
    piece: &mut [u8],
) -> Result<Vec<u8>, TextFault>
    requires few { limit ≤ TEXT_BYTES_MAX }
    requires room { length piece.old ≡ PIECE_BYTES }
    ensures short { IfOk result (λ bytes. vec_len bytes ≤ limit) }
    ensures answer { IfSome (F.holds shelf.old name.now) (λ contents. MatchResult result (λ bytes. (bytes.items ≡ contents) × (length contents ≤ limit)) (MayStop contents limit)) }
    ensures failed { IsErrOf result TextFault.ReadFault → Rose (F.faults shelf.old name.now) (F.faults shelf.new name.now) }
    ensures holds_same { (other : List ℕ) → F.holds shelf.new other ≡ F.holds shelf.old other }
    ensures counts { (other : List ℕ) → F.faults shelf.old other ≤ F.faults shelf.new other }
{
    let mut contents = Vec::new(alloc);
    while contents.len() as u64 <= limit {
        match shelf.read(name, contents.len() as u64, piece) {
            Ok(0) => return Ok(contents),
            Ok(count) => contents.extend_from_slice(&piece[..count])?,
            Err(Failed) => return Err(TextFault::ReadFault),
        }
    }
    Err(TextFault::TooLong)
}

// `count` bytes to read into.
fn zeroes(alloc: Global, count: usize) -> Result<Vec<u8>, AllocError>
    ensures { IfOk result (λ bytes. vec_len bytes ≡ count) }
{
    vec![in alloc; 0; count]
}

// The text that the whole contents of a file are.
fn decoded(alloc: Global, contents: &[u8]) -> Result<Text, TextFault>
    requires { length contents.now ≤ TEXT_BYTES_MAX }
    ensures { IsTextOf contents.now result }
{
    match str::from_utf8(contents) {
        Ok(text) => Ok(Text::of(alloc, text.strip_prefix(MARK).unwrap_or(text))?),
        Err(error) => Err(TextFault::NotUtf8 {
            at: error.valid_up_to() as u64,
        }),
    }
}
