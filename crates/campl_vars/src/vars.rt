//! The variables in scope.
ghost use Rattle.std.specs.Prelude.{◌≡◌, ℕ, ◌-◌, List, ◌++◌, [], ◌∷◌, OnErr, OnOk, IsSome, cond, drop, length, option_map, reverse};
ghost use Rattle.std.specs.Map.{lookup};
ghost use Rattle.std.specs.Option.{option_copied};
ghost use Rattle.campl_tree.specs.View.{view_seq};
ghost use Rattle.campl_types.specs.Names.{found, is_among, same_name};
ghost use Rattle.campl_vars.specs.Variables.{variable_names};
ghost use Rattle.campl_vars.specs.Variables.{view_vars, bound, seen_at};

use campl_tree::{Name, SeqType};
use indexmap::IndexMap;
use sqlite_items::Items;
use std::alloc::{AllocError, Global};
use std::marker::Model;

/// A variable with its type.
#[derive(Drop)]
struct Binding {
    name: Name,
    seq_type: SeqType,
    /// The number of the binding of the same name that it hides.
    hidden: Option<usize>,
}

/// The variables in scope with their types. A later one hides an earlier one of its name.
///
/// Contracts see the list of the names with their types, the newest first. No look-up scans it.
#[derive(Drop)]
pub struct Vars {
    /// The oldest first.
    bindings: Items<Binding>,
    /// The number of the newest binding of each name.
    newest: IndexMap<Name, usize>,
}

impl Model for Vars {
    ghost use Rattle.std.specs.Prelude.{◌≡◌, List, ℕ, reverse, map};
    ghost use Rattle.std.specs.Coded.{codes};
    ghost use Rattle.std.specs.Map.{lookup};
    ghost use Rattle.campl_tree.specs.declared.types.SeqType.{SeqType};
    ghost use Rattle.campl_tree.specs.contracts.types.SeqType as seq;
    ghost use Rattle.campl_types.specs.Names.{same_name};
    ghost use Rattle.campl_vars.specs.Variables.{bound, newest as newest_of, AreLinked};

    ghost Value = { List (List ℕ × SeqType) };

    ghost coded = { Prim.hlevel (codes, seq.the_row.coded) };

    ghost view = { λ v. bound (reverse v.bindings) };

    ghost invariant = { λ v. ((x : List ℕ) → lookup (same_name x) v.newest.entries ≡ newest_of x (reverse v.bindings)) × AreLinked (reverse v.bindings) };
}

impl Vars {
    /// No variables.
    pub fn new(alloc: Global) -> Vars
        ensures { result ≡ [] }
    {
        Vars {
            bindings: Items::new(alloc),
            newest: IndexMap::new(alloc),
        }
    }

    /// The number of variables, hidden ones too.
    pub fn len(&self) -> usize
        ensures { result ≡ length self.now }
    {
        self.bindings.len()
    }

    /// The type of the newest variable of the name.
    pub fn find(&self, name: &Name) -> Option<&SeqType>
        ensures { option_map view_seq (option_copied result) ≡ found name.now (view_vars self.now) }
    {
        type_of(self.bindings.as_slice(), self.newest.get(name).copied())
    }

    /// Whether there is a variable of the name.
    pub fn has(&self, name: &Name) -> bool
        ensures { result ≡ is_among name.now (variable_names (view_vars self.now)) }
    {
        self.newest.contains_key(name)
    }

    /// Binds a name, which hides earlier ones.
    ///
    /// # Errors
    ///
    /// `AllocError` where memory wants: the variables are what they were.
    pub fn bind(&mut self, alloc: Global, name: &Name, seq_type: SeqType) -> Result<(), AllocError>
        ensures ok { OnOk result (self.new ≡ (name.now, seq_type) ∷ self.old) }
        ensures err { OnErr result (self.new ≡ self.old) }
    {
        let key = name.copy(alloc)?;
        let name = name.copy(alloc)?;
        let number = self.bindings.len();
        let hidden = self.newest.get(&name).copied();
        self.bindings.push(Binding {
            name,
            seq_type,
            hidden,
        })?;
        if self.newest.insert(key, number).is_err() {
            let _ = self.bindings.pop();
            return Err(AllocError);
        }
        Ok(())
    }

    /// Binds the variables of others, which hide those of the same names.
    ///
    /// # Errors
    ///
    /// `AllocError` where memory wants: the variables are what they were.
    pub fn append(&mut self, alloc: Global, newer: &Vars) -> Result<(), AllocError>
        ensures ok { OnOk result (self.new ≡ newer.now ++ self.old) }
        ensures err { OnErr result (self.new ≡ self.old) }
    {
        let len = self.len();
        let appended = self.bind_all(alloc, newer.bindings.as_slice());
        if appended.is_err() {
            self.truncate(len);
        }
        appended
    }

    /// Binds variables, the oldest first. Where memory wants, some of them are bound.
    #[tactic(auto, using(crate::proofs::Variables::appending))]
    fn bind_all(&mut self, alloc: Global, bindings: &[Binding]) -> Result<(), AllocError>
        ensures ok { OnOk result (self.new ≡ bound (reverse bindings.now) ++ self.old) }
        ensures err { OnErr result (drop (length self.new - length self.old) self.new ≡ self.old) }
    {
        for i in 0..bindings.len() {
            let seq_type = bindings[i].seq_type.copy(alloc)?;
            self.bind(alloc, &bindings[i].name, seq_type)?;
        }
        Ok(())
    }

    /// Drops the newest variables down to so many.
    #[tactic(auto, using(crate::proofs::Variables::truncating))]
    pub fn truncate(&mut self, len: usize)
        ensures { self.new ≡ drop (length self.old - len) self.old }
    {
        while self.len() > len {
            self.pop();
        }
    }

    /// Drops the newest variable.
    fn pop(&mut self)
        ensures { self.new ≡ drop 1 self.old }
    {
        let Some(last) = self.bindings.pop() else {
            return;
        };
        let Binding { name, hidden, .. } = last;
        set_newest(&mut self.newest, name, hidden);
    }
}

/// The type of the binding of a number.
fn type_of(bindings: &[Binding], number: Option<usize>) -> Option<&SeqType>
    ensures { option_map view_seq (option_copied result) ≡ seen_at bindings.now number }
{
    match bindings.get(number?) {
        Some(binding) => Some(&binding.seq_type),
        None => None,
    }
}

/// Lets another binding of a name be its newest, or none.
fn set_newest(newest: &mut IndexMap<Name, usize>, name: Name, number: Option<usize>)
    requires { IsSome (lookup (same_name name) newest.old.entries) }
    ensures { (x : List ℕ) → lookup (same_name x) newest.new.entries ≡ cond (same_name name x) number (lookup (same_name x) newest.old.entries) }
{
    match number {
        Some(number) => {
            let _ = newest.insert(name, number);
        }
        None => {
            let _ = newest.swap_remove(&name);
        }
    }
}
