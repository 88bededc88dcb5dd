//! What a service wrote down.
ghost use Rattle.std.specs.Prelude.{◌≡◌, [], ◌∷◌, ◌++◌, ◌<◌, ◌^◌, ◌+◌, IfOk, OnOk, OnErr, length, map};
ghost use Rattle.campl_service.specs.Transcripts.{record_of};
ghost use Rattle.campl_service.specs.Output.{transcript_lines};

use crate::record::Noted;
use std::alloc::{AllocError, Global};
use std::collections::LinkedList;
use std::marker::Model;

/// What a service took and sent, the oldest first. Contracts see the list of the records.
//
// A list with links takes over a place that was made before, so that a record can be noted without memory.
#[derive(Drop)]
pub struct Transcript {
    records: LinkedList<Noted>,
}

impl Model for Transcript {
    ghost use Rattle.std.specs.Prelude.{map};
    ghost use Rattle.campl_service.specs.Transcripts.{Records, record_of};

    ghost Value = { Records };

    ghost view = { λ t. map record_of t.records };
}

impl Transcript {
    // A transcript with no record, which takes no memory yet.
    pub(crate) fn new(alloc: Global) -> Transcript
        ensures { result ≡ [] }
    {
        Transcript {
            records: LinkedList::new(alloc),
        }
    }

    // How many records there are.
    pub(crate) fn len(&self) -> usize
        ensures value { result ≡ length self.now }
        ensures fits { result < 2 ^ 63 }
    {
        self.records.len()
    }

    // Puts a record behind the others, in the place that was made for it. It takes no memory.
    pub(crate) fn note(&mut self, places: &mut LinkedList<Noted>, noted: Noted)
        requires one { length places.old ≡ 1 }
        requires few { length self.old + 1 < 2 ^ 63 }
        ensures noted { self.new ≡ self.old ++ record_of noted ∷ [] }
        ensures used { places.new ≡ [] }
    {
        fill(places, noted);
        let Ok(()) = self.records.append(places) else {
            unreachable!();
        };
    }

    /// Appends the lines of the records to `bytes`, with escapes, each ended by LF. An error means that memory is out, and
    /// leaves `bytes` as it was.
    pub fn append_to(&self, bytes: &mut Vec<u8>) -> Result<(), AllocError>
        ensures ok { OnOk result (bytes.new.items ≡ bytes.old.items ++ transcript_lines self.now) }
        ensures err { OnErr result (bytes.new.items ≡ bytes.old.items) }
    {
        let lines = lines_of(*bytes.allocator(), &self.records)?;
        bytes.extend_from_slice(lines.as_slice())
    }

    /// An equal transcript. An error means that memory is out.
    pub fn copy(&self) -> Result<Transcript, AllocError>
        ensures { IfOk result (λ copy. copy ≡ self.now) }
    {
        let records = copies(*self.records.allocator(), &self.records)?;
        Ok(Transcript { records })
    }
}

// Puts a record into the place.
fn fill(places: &mut LinkedList<Noted>, noted: Noted)
    requires { length places.old ≡ 1 }
    ensures { places.new ≡ noted ∷ [] }
{
    if let Some(place) = places.front_mut() {
        *place = noted;
    }
}

// The lines that are printed.
fn lines_of(alloc: Global, records: &LinkedList<Noted>) -> Result<Vec<u8>, AllocError>
    ensures { IfOk result (λ lines. lines.items ≡ transcript_lines (map record_of records.now)) }
{
    let mut lines = Vec::new(alloc);
    for noted in records {
        noted.push_line(alloc, &mut lines)?;
    }
    Ok(lines)
}

fn copies(alloc: Global, records: &LinkedList<Noted>) -> Result<LinkedList<Noted>, AllocError>
    ensures { IfOk result (λ copies. copies ≡ records.now) }
{
    let mut copies = LinkedList::new(alloc);
    for noted in records {
        if copies.push_back(noted.copy()?).is_err() {
            return Err(AllocError);
        }
    }
    Ok(copies)
}
