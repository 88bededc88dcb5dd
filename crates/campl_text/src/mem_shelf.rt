//! A shelf over memory: it tells its files, and fails where it is told to.
ghost use Rattle.std.specs.Prelude.{◌≡◌, ◌<◌, ◌≤◌, ◌-◌, ◌↔◌, ◌⊎◌, ℕ, [], ◌∷◌, ◌++◌, List, IfOk, OnOk, OnErr, IsErr, IsNone, IfSome, find, position, length, min};
ghost use Rattle.std.specs.Option.{option_copied, option_map};
ghost use Rattle.campl_text.specs.Counts.{Rose, one_more};
ghost use Rattle.campl_text.specs.Given.{IsGiven};
ghost use Rattle.campl_text.specs.Shelved.{FailsNext, Puts, bytes_of, faults_of, is_named};

use crate::reading::{Failed, Shelf};
use std::alloc::{AllocError, Global};
use std::marker::Model;

// A file under its name.
#[derive(Debug, Drop)]
struct MemFile {
    name: String,
    bytes: Vec<u8>,
    missed: u64,
}

impl Model for MemFile {
    ghost use Rattle.std.specs.Prelude.{string_bytes};
    ghost use Rattle.campl_text.specs.Shelved.{Held};

    ghost Value = { Held };

    ghost view = { λ f. record { name = string_bytes f.name; bytes = f.bytes.items; missed = f.missed } };
}

impl MemFile {
    fn is_named(&self, name: &str) -> bool
        ensures { result ≡ is_named name.now self.now }
    {
        self.name.as_str() == name
    }
}

/// Files in memory. Contracts see a record: `files`, `failing`, `reads`, `numbered` and `missing`.
/// A failure by its number counts for every name; any other one counts for the names that aren't there.
#[derive(Debug, Drop)]
pub struct MemShelf {
    alloc: Global,
    files: Vec<MemFile>,
    failing: Vec<u64>,
    reads: u64,
    numbered: u64,
    missing: u64,
}

impl Model for MemShelf {
    ghost use Rattle.campl_text.specs.Shelved.{Shelved};

    ghost Value = { Shelved };

    ghost view = { λ s. record {
      files = s.files.items;
      failing = s.failing.items;
      reads = s.reads;
      numbered = s.numbered;
      missing = s.missing;
    } };
}

impl MemShelf {
    /// A shelf with no file.
    pub fn new(alloc: Global) -> MemShelf
        ensures { result ≡ record { files = []; failing = []; reads = 0; numbered = 0; missing = 0 } }
    {
        MemShelf {
            alloc,
            files: Vec::new(alloc),
            failing: Vec::new(alloc),
            reads: 0,
            numbered: 0,
            missing: 0,
        }
    }

    /// Puts a file of these bytes under `name`, in the place of the one that was there. No count changes.
    pub fn put(&mut self, name: &str, bytes: &[u8]) -> Result<(), AllocError>
        ensures ok { OnOk result (Puts self.old self.new name.now bytes.now) }
        ensures err { OnErr result (self.new ≡ self.old) }
    {
        let bytes = Vec::from_slice(self.alloc, bytes)?;
        match place_of(&self.files, name) {
            Some(place) => {
                let file = &mut self.files[place];
                file.bytes = bytes;
            }
            None => self.files.push(MemFile {
                name: String::from_str(self.alloc, name)?,
                bytes,
                missed: self.missing,
            })?,
        }
        Ok(())
    }

    /// Has the read with the number `call` fail. Reads are counted from 1.
    pub fn fail_at(&mut self, call: u32) -> Result<(), AllocError>
        ensures ok { OnOk result (self.new ≡ record self.old { failing = self.old.failing ++ call ∷ [] }) }
        ensures err { OnErr result (self.new ≡ self.old) }
    {
        self.failing.push(u64::from(call))?;
        Ok(())
    }
}

// What the file of this name holds.
fn contents_of<'a>(files: &'a [MemFile], name: &str) -> Option<&'a [u8]>
    ensures { option_copied result ≡ option_map (λ file. file.bytes) (find (is_named name.now) files.now) }
{
    let file = files.iter().find(|file| file.is_named(name))?;
    Some(&file.bytes)
}

// Where the file of this name stands.
fn place_of(files: &[MemFile], name: &str) -> Option<usize>
    ensures { result ≡ position (is_named name.now) files.now }
{
    files.iter().position(|file| file.is_named(name))
}

// Copies as many bytes from position `at` on as there are and as `into` has room for.
fn copy_from(bytes: &[u8], at: u64, into: &mut [u8]) -> usize
    requires { 0 < length into.old }
    ensures given { IsGiven bytes.now at result into.new }
    ensures full { result ≡ min (length into.old) (length bytes.now - at) }
{
    let start = bytes.len().min(at as usize);
    let count = into.len().min(bytes.len() - start);
    into[..count].copy_from_slice(&bytes[start..start + count]);
    count
}

impl Shelf for MemShelf {
    ghost holds = { bytes_of };

    ghost faults = { faults_of };

    fn read(&mut self, name: &str, at: u64, into: &mut [u8]) -> Result<usize, Failed>
        requires { 0 < length into.old }
        ensures within { IfOk result (λ n. n ≤ length into.new) }
        ensures failed { OnErr result (Rose (faults_of self.old name.now) (faults_of self.new name.now)) }
        ensures holds_same { (other : List ℕ) → bytes_of self.new other ≡ bytes_of self.old other }
        ensures counts { (other : List ℕ) → faults_of self.old other ≤ faults_of self.new other }

        // The exact answer, and the exact shelf after it.
        ensures fails { IsErr result ↔ (FailsNext self.old ⊎ IsNone (bytes_of self.old name.now)) }
        ensures given { IfSome (bytes_of self.old name.now) (λ contents. IfOk result (λ n. IsGiven contents at n into.new)) }
        ensures full { IfSome (bytes_of self.old name.now) (λ contents. IfOk result (λ n. n ≡ min (length into.old) (length contents - at))) }
        ensures ok { OnOk result (self.new ≡ record self.old { reads = one_more self.old.reads }) }
        ensures numbered { FailsNext self.old → self.new ≡ record self.old {
          reads = one_more self.old.reads;
          numbered = one_more self.old.numbered;
        } }
        ensures missing { ¬ (FailsNext self.old) → OnErr result (self.new ≡ record self.old {
          reads = one_more self.old.reads;
          missing = one_more self.old.missing;
        }) }
    {
        self.reads = self.reads.saturating_add(1);
        if self.failing.contains(&self.reads) {
            self.numbered = self.numbered.saturating_add(1);
            return Err(Failed);
        }
        match contents_of(&self.files, name) {
            Some(contents) => Ok(copy_from(contents, at, into)),
            None => {
                self.missing = self.missing.saturating_add(1);
                Err(Failed)
            }
        }
    }
}
