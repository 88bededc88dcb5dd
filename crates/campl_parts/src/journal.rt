//! The journal of a run.
ghost use Rattle.std.specs.Prelude.{◌≡◌, ◌+◌, ◌^◌, ◌<◌, ◌≤◌, [], ◌∷◌, ◌++◌, Some, OnOk, IfOk, length, slice_get};
ghost use Rattle.campl_value.specs.declared.message.Message.TheVariants.{Word};
ghost use Rattle.campl_parts.specs.Entries.{simple};
ghost use Rattle.campl_parts.specs.Journal.{brief_entry, weight_of};

use crate::entry::{Entry, Kind};
use campl_value::{Message, Value};
use std::alloc::{AllocError, Global};
use std::marker::Model;

/// A step of one of the kinds that most steps have. In a journal it takes less than half of an [`Entry`]'s memory.
pub enum Brief {
    /// The end on which a value was sent.
    Put(u32, Value),
    /// The end at which a value was taken.
    Get(u32, Value),
    /// The end on which a constructor was sent.
    Pick(u32, u32),
    /// The end at which a constructor was taken.
    Offer(u32, u32),
    Case,
    Call,
}

impl Drop for Brief {
    fn drop(self) {
        match self {
            Brief::Put(_, value) | Brief::Get(_, value) => drop(value),
            Brief::Pick(_, _) | Brief::Offer(_, _) | Brief::Case | Brief::Call => {}
        }
    }
}

// An entry as it is kept.
enum Stored {
    // Of this process.
    Brief(u32, Brief),
    // The full one at this place.
    Full(usize),
}

impl Drop for Stored {
    fn drop(self) {
        match self {
            Stored::Brief(_, brief) => drop(brief),
            Stored::Full(_) => {}
        }
    }
}

/// The entries of a run, the oldest first.
#[derive(Drop)]
pub struct Journal {
    stored: Vec<Stored>,
    full: Vec<Entry>,
    weight: u64,
}

impl Model for Journal {
    ghost use Rattle.std.specs.Prelude.{◌≡◌, ◌-◌, vec_len, vec_capacity};
    ghost use Rattle.campl_parts.specs.Journal.{AreKept, Recorded, entries_of, weight_of};

    ghost Value = { Recorded };

    ghost use Rattle.std.specs.Coded.{codes};
    ghost use Rattle.campl_value.specs.Tree.{tree_code};

    ghost coded = { Prim.hlevel (codes, tree_code) };

    ghost view = { λ j. record {
      entries = entries_of j.full.items j.stored.items;
      spare = vec_capacity j.stored - vec_len j.stored;
      spare_full = vec_capacity j.full - vec_len j.full;
    } };

    ghost invariant = { λ j. AreKept j.full.items j.stored.items × (j.weight ≡ weight_of (entries_of j.full.items j.stored.items)) };
}

impl Journal {
    /// A journal with no entry, which takes no memory yet.
    pub fn new(alloc: Global) -> Journal
        ensures { result.entries ≡ [] }
    {
        Journal {
            stored: Vec::new(alloc),
            full: Vec::new(alloc),
            weight: 0,
        }
    }

    /// Appends an entry, where there is room for it.
    pub fn record(&mut self, entry: Entry)
        requires room { (1 ≤ self.old.spare) × (1 ≤ self.old.spare_full) }
        requires within { weight_of self.old.entries + entry.weight < 2 ^ 64 }
        ensures { self.new.entries ≡ self.old.entries ++ entry ∷ [] }
    {
        self.weight += u64::from(entry.weight);
        let place = self.full.len();
        self.full.push_reserved(entry);
        self.stored.push_reserved(Stored::Full(place));
    }

    /// The same of a step of this process that is told briefly.
    #[inline]
    pub fn note(&mut self, process: u32, brief: Brief)
        requires room { 1 ≤ self.old.spare }
        requires within { weight_of self.old.entries + 1 < 2 ^ 64 }
        ensures { self.new.entries ≡ self.old.entries ++ brief_entry process brief ∷ [] }
    {
        self.weight += 1;
        self.stored.push_reserved(Stored::Brief(process, brief));
    }

    /// Takes the memory of so many entries, for which there is room then. Whatever it answers, the entries stay.
    #[inline]
    pub fn make_room(&mut self, entries: usize) -> Result<(), AllocError>
        ensures ok { OnOk result ((entries ≤ self.new.spare) × (entries ≤ self.new.spare_full)) }
        ensures same { self.new.entries ≡ self.old.entries }
    {
        match self.stored.reserve(entries) {
            Ok(()) => self.full.reserve(entries),
            Err(error) => Err(error),
        }
    }

    /// How many entries there are.
    pub fn len(&self) -> usize
        ensures { result ≡ length self.now.entries }
    {
        self.stored.len()
    }

    /// The entry at this place, which shares its message's parts with the journal. An error means that memory is out.
    pub fn entry(&self, at: usize) -> Result<Option<Entry>, AllocError>
        ensures { IfOk result (λ entry. entry ≡ slice_get self.now.entries at) }
    {
        match self.stored.get(at) {
            None => Ok(None),
            Some(Stored::Brief(process, brief)) => match brief.entry(*process) {
                Ok(entry) => Ok(Some(entry)),
                Err(error) => Err(error),
            },
            Some(Stored::Full(place)) => match self.full.get(*place) {
                None => Ok(None),
                Some(entry) => match entry.copy() {
                    Ok(entry) => Ok(Some(entry)),
                    Err(error) => Err(error),
                },
            },
        }
    }

    /// The steps that the entries stand for.
    pub fn weight(&self) -> u64
        ensures { result ≡ weight_of self.now.entries }
    {
        self.weight
    }
}

impl Brief {
    // The whole entry.
    fn entry(&self, process: u32) -> Result<Entry, AllocError>
        ensures { IfOk result (λ entry. entry ≡ brief_entry process self.now) }
    {
        match self {
            Brief::Put(end, value) => word(process, Kind::Put, *end, value),
            Brief::Get(end, value) => word(process, Kind::Get, *end, value),
            Brief::Pick(end, constructor) => Ok(Entry::simple(
                process,
                Kind::Pick,
                Some(*end),
                Some(Message::Pick(*constructor)),
            )),
            Brief::Offer(end, constructor) => Ok(Entry::simple(
                process,
                Kind::Offer,
                Some(*end),
                Some(Message::Pick(*constructor)),
            )),
            Brief::Case => Ok(Entry::simple(process, Kind::Case, None, None)),
            Brief::Call => Ok(Entry::simple(process, Kind::Call, None, None)),
        }
    }
}

// The entry of a value that was sent or taken.
fn word(process: u32, kind: Kind, end: u32, value: &Value) -> Result<Entry, AllocError>
    ensures { IfOk result (λ entry. entry ≡ simple process kind (Some end) (Some (Word value.now))) }
{
    match value.copy() {
        Ok(value) => Ok(Entry::simple(process, kind, Some(end), Some(Message::Word(value)))),
        Err(error) => Err(error),
    }
}
