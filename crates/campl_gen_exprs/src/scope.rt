//! The variables in scope.
ghost use Rattle.std.specs.Prelude.{◌≡◌, ℕ, ◌-◌, List, ◌++◌, [], ◌∷◌, OnErr, OnOk, IsSome, cond, drop, length, option_map, reverse};
ghost use Rattle.std.specs.Map.{lookup};
ghost use Rattle.campl_types.specs.Names.{found, same_name};
ghost use Rattle.campl_gen_exprs.specs.Scopes.{bound, seen_at};

use campl_tree::Name;
use indexmap::IndexMap;
use sqlite_items::Items;
use std::alloc::{AllocError, Global};
use std::marker::Model;

/// A variable with its number.
#[derive(Drop)]
struct Binding {
    name: Name,
    number: u32,
    /// The place of the binding of the same name that it hides.
    hidden: Option<usize>,
}

/// The variables in scope with their numbers. A later one hides an earlier one of its name.
///
/// Contracts see the list of the names with their numbers, the newest first. No look-up scans it.
#[derive(Drop)]
pub struct Scope {
    /// The oldest first.
    bindings: Items<Binding>,
    /// The place of the newest binding of each name.
    newest: IndexMap<Name, usize>,
}

impl Model for Scope {
    ghost use Rattle.std.specs.Prelude.{◌≡◌, List, ℕ, reverse, map};
    ghost use Rattle.std.specs.Coded.{coded_list, coded×, coded_ℕ};
    ghost use Rattle.std.specs.Map.{lookup};
    ghost use Rattle.campl_types.specs.Names.{same_name};
    ghost use Rattle.campl_gen_exprs.specs.Scopes.{bound, newest as newest_of, AreLinked};

    ghost Value = { List (List ℕ × ℕ) };

    ghost coded = { coded_list (coded× (coded_list coded_ℕ) coded_ℕ) };

    ghost view = { λ v. bound (reverse v.bindings) };

    ghost invariant = { λ v. ((x : List ℕ) → lookup (same_name x) v.newest.entries ≡ newest_of x (reverse v.bindings)) × AreLinked (reverse v.bindings) };
}

impl Scope {
    /// No variables.
    pub fn new(alloc: Global) -> Scope
        ensures { result ≡ [] }
    {
        Scope {
            bindings: Items::new(alloc),
            newest: IndexMap::new(alloc),
        }
    }

    /// How many variables there are, hidden ones too.
    pub fn len(&self) -> usize
        ensures { result ≡ length self.now }
    {
        self.bindings.len()
    }

    /// The number of the newest variable of the name.
    pub fn find(&self, name: &Name) -> Option<u32>
        ensures { result ≡ found name.now self.now }
    {
        number_of(self.bindings.as_slice(), self.newest.get(name).copied())
    }

    /// Gives a name a number, which hides earlier ones.
    ///
    /// # Errors
    ///
    /// `AllocError` where memory wants: the variables are what they were.
    pub fn bind(&mut self, alloc: Global, name: &Name, number: u32) -> Result<(), AllocError>
        ensures ok { OnOk result (self.new ≡ (name.now, number) ∷ self.old) }
        ensures err { OnErr result (self.new ≡ self.old) }
    {
        let key = name.copy(alloc)?;
        let name = name.copy(alloc)?;
        let place = self.bindings.len();
        let hidden = self.newest.get(&name).copied();
        self.bindings.push(Binding {
            name,
            number,
            hidden,
        })?;
        if self.newest.insert(key, place).is_err() {
            let _ = self.bindings.pop();
            return Err(AllocError);
        }
        Ok(())
    }

    /// Drops the newest variables down to so many.
    #[tactic(auto, using(crate::proofs::Scopes::truncating))]
    pub fn truncate(&mut self, len: usize)
        ensures { self.new ≡ drop (length self.old - len) self.old }
    {
        while self.len() > len {
            self.pop();
        }
    }

    /// Drops the newest variable.
    fn pop(&mut self)
        ensures { self.new ≡ drop 1 self.old }
    {
        let Some(last) = self.bindings.pop() else {
            return;
        };
        let Binding { name, hidden, .. } = last;
        set_newest(&mut self.newest, name, hidden);
    }
}

/// The number of the binding at a place.
fn number_of(bindings: &[Binding], place: Option<usize>) -> Option<u32>
    ensures { result ≡ seen_at bindings.now place }
{
    match bindings.get(place?) {
        Some(binding) => Some(binding.number),
        None => None,
    }
}

/// Lets another binding of a name be its newest, or none.
fn set_newest(newest: &mut IndexMap<Name, usize>, name: Name, place: Option<usize>)
    requires { IsSome (lookup (same_name name) newest.old.entries) }
    ensures { (x : List ℕ) → lookup (same_name x) newest.new.entries ≡ cond (same_name name x) place (lookup (same_name x) newest.old.entries) }
{
    match place {
        Some(place) => {
            let _ = newest.insert(name, place);
        }
        None => {
            let _ = newest.swap_remove(&name);
        }
    }
}
