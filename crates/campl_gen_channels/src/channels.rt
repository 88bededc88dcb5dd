//! The channels that a process holds.
ghost use Rattle.std.specs.Prelude.{◌≡◌, ◌∷◌, ◌++◌, ◌+◌, [], ℕ, List, None, Some, IfOk, OnOk, cond, length, slice_get, suc};
ghost use Rattle.std.specs.Map.{lookup};
ghost use Rattle.campl_types.specs.Names.{same_name};
ghost use Rattle.campl_peel.specs.Terms.{those};
ghost use Rattle.campl_code_bodies.specs.Bodies.{without, channel_numbers};
ghost use Rattle.campl_code_bodies.specs.BodyCode.{number, all_numbers};
ghost use Rattle.campl_gen_channels.specs.Numbers.{NumbersAlike};
ghost use Rattle.campl_gen_channels.specs.View.{view_channels, is_kept, one_entry};

use campl_names::NameSet;
use campl_tree::{Ident, Name};
use indexmap::IndexMap;
use sqlite_items::Items;
use std::alloc::{AllocError, Global};

/// The channels that a process holds, by name, with their numbers.
///
/// A number is given to one channel alone, also after that is gone. Look-ups take constant time.
pub struct Channels {
    pub numbers: IndexMap<Name, u32>,
    /// The number of the next channel.
    pub next: u32,
}

impl Drop for Channels {
    fn drop(self) {
        let Channels { numbers, next: _ } = self;
        drop(numbers);
    }
}

impl Channels {
    /// No channels.
    pub fn new(alloc: Global) -> Channels
        ensures none { view_channels result ≡ [] }
        ensures next { result.next ≡ 0 }
    {
        Channels {
            numbers: IndexMap::new(alloc),
            next: 0,
        }
    }

    /// The number of a channel, or 0 where none has the name.
    #[tactic(auto, using(crate::proofs::Maps::maps))]
    pub fn number(&self, name: &Name) -> u32
        ensures { result ≡ number name.now (view_channels self.now) }
    {
        match self.numbers.get(name).copied() {
            Some(number) => number,
            None => 0,
        }
    }

    /// Puts the numbers of channels behind others.
    ///
    /// # Errors
    ///
    /// `AllocError` where memory wants.
    pub fn put_numbers(&self, names: &[Ident], out: &mut Items<u32>) -> Result<(), AllocError>
        ensures { OnOk result (out.new ≡ out.old ++ all_numbers names.now (view_channels self.now)) }
    {
        for i in 0..names.len() {
            out.push(self.number(&names[i].name))?;
        }
        Ok(())
    }

    /// Gives up a channel, if it is held.
    #[tactic(auto, using(crate::proofs::Maps::maps))]
    pub fn remove(&mut self, name: &Name)
        ensures removed { NumbersAlike (view_channels self.new) (without name.now (view_channels self.old)) }
        ensures next { self.new.next ≡ self.old.next }
    {
        forget(&mut self.numbers, name);
    }

    /// Holds a channel with the next number, which is given back. It hides another one of its name.
    ///
    /// # Errors
    ///
    /// `AllocError` where memory wants, or where the next number would be 2^32.
    #[tactic(auto, using(crate::proofs::Maps::maps))]
    pub fn come(&mut self, alloc: Global, name: &Name) -> Result<u32, AllocError>
        ensures came { OnOk result (NumbersAlike (view_channels self.new) ((name.now, self.old.next) ∷ view_channels self.old)) }
        ensures number { IfOk result (λ n. n ≡ self.old.next) }
        ensures next { OnOk result (self.new.next ≡ suc self.old.next) }
    {
        let number = self.next;
        let next = number_behind(number)?;
        let name = name.copy(alloc)?;
        put(&mut self.numbers, name, number)?;
        self.next = next;
        Ok(number)
    }

    /// Takes the next number for a channel that another process holds.
    ///
    /// # Errors
    ///
    /// `AllocError` where the next number would be 2^32.
    pub fn skip(&mut self) -> Result<(), AllocError>
        ensures same { view_channels self.new ≡ view_channels self.old }
        ensures next { OnOk result (self.new.next ≡ suc self.old.next) }
    {
        match number_behind(self.next) {
            Ok(next) => {
                self.next = next;
                Ok(())
            }
            Err(error) => Err(error),
        }
    }

    /// Holds channels with the next numbers, in order. Where one has a name that is there already, that stays.
    ///
    /// # Errors
    ///
    /// `AllocError` where memory wants, or where a number would be 2^32.
    pub fn come_behind(&mut self, alloc: Global, names: &[Ident]) -> Result<(), AllocError>
        ensures came { OnOk result (NumbersAlike (view_channels self.new) (view_channels self.old ++ channel_numbers self.old.next names.now)) }
        ensures next { OnOk result (self.new.next ≡ self.old.next + length names.now) }
    {
        for i in 0..names.len() {
            let next = number_behind(self.next)?;
            let x = &names[i];
            put_behind(alloc, &mut self.numbers, &x.name, self.next)?;
            self.next = next;
        }
        Ok(())
    }

    /// A copy of the channels whose names are in the set, or, where those aren't kept, of all others.
    ///
    /// # Errors
    ///
    /// `AllocError` where memory wants.
    pub fn those(&self, alloc: Global, names: &NameSet, keep: bool) -> Result<Channels, AllocError>
        ensures kept { IfOk result (λ c. NumbersAlike (view_channels c) (those (is_kept keep names.now) (view_channels self.now))) }
        ensures next { IfOk result (λ c. c.next ≡ self.now.next) }
    {
        let mut numbers = IndexMap::new(alloc);
        for i in 0..self.numbers.len() {
            keep_entry(alloc, &self.numbers, i, names, keep, &mut numbers)?;
        }
        Ok(Channels {
            numbers,
            next: self.next,
        })
    }

    /// A second copy.
    ///
    /// # Errors
    ///
    /// `AllocError` where memory wants.
    #[tactic(auto, using(crate::proofs::Maps::copies))]
    pub fn copy(&self, alloc: Global) -> Result<Channels, AllocError>
        ensures same { IfOk result (λ c. NumbersAlike (view_channels c) (view_channels self.now)) }
        ensures next { IfOk result (λ c. c.next ≡ self.now.next) }
    {
        let nothing = NameSet::new(alloc);
        self.those(alloc, &nothing, false)
    }
}

// The number behind this one.
fn number_behind(number: u32) -> Result<u32, AllocError>
    ensures { IfOk result (λ n. n ≡ suc number) }
{
    match number.checked_add(1) {
        Some(next) => Ok(next),
        None => Err(AllocError),
    }
}

// Takes a name out.
fn forget(numbers: &mut IndexMap<Name, u32>, name: &Name)
    ensures { (x : List ℕ) → lookup (same_name x) numbers.new.entries ≡ cond (same_name name.now x) None (lookup (same_name x) numbers.old.entries) }
{
    let _ = numbers.swap_remove(name);
}

// Gives a name a number.
fn put(numbers: &mut IndexMap<Name, u32>, name: Name, number: u32) -> Result<(), AllocError>
    ensures { OnOk result ((x : List ℕ) → lookup (same_name x) numbers.new.entries ≡ cond (same_name name x) (Some number) (lookup (same_name x) numbers.old.entries)) }
{
    match numbers.insert(name, number) {
        Ok(_) => Ok(()),
        Err(_) => Err(AllocError),
    }
}

// Gives a name a number, unless it has one.
#[tactic(auto, using(crate::proofs::Maps::behind))]
fn put_behind(
    alloc: Global,
    numbers: &mut IndexMap<Name, u32>,
    name: &Name,
    number: u32,
) -> Result<(), AllocError>
    ensures { OnOk result (NumbersAlike numbers.new.entries (numbers.old.entries ++ (name.now, number) ∷ [])) }
{
    if numbers.contains_key(name) {
        return Ok(());
    }
    let name = name.copy(alloc)?;
    match numbers.insert(name, number) {
        Ok(_) => {}
        Err(_) => return Err(AllocError),
    }
    Ok(())
}

// Whether a name is kept.
fn kept(names: &NameSet, keep: bool, name: &Name) -> bool
    ensures { result ≡ is_kept keep names.now name.now }
{
    if keep {
        names.has(name)
    } else {
        !names.has(name)
    }
}

// Puts the channel at a place behind others, if its name is kept.
#[tactic(auto, using(crate::proofs::Maps::behind))]
fn keep_entry(
    alloc: Global,
    all: &IndexMap<Name, u32>,
    n: usize,
    names: &NameSet,
    keep: bool,
    out: &mut IndexMap<Name, u32>,
) -> Result<(), AllocError>
    ensures { OnOk result (NumbersAlike out.new.entries (out.old.entries ++ those (is_kept keep names.now) (one_entry (slice_get all.now.entries n)))) }
{
    match all.get_index(n) {
        Some(entry) => {
            let name = entry.0;
            let number = *entry.1;
            if kept(names, keep, name) {
                put_behind(alloc, out, name, number)
            } else {
                Ok(())
            }
        }
        None => Ok(()),
    }
}
