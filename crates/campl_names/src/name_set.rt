//! A set of names.
ghost use Rattle.std.specs.Prelude.{◌≡◌, [], length, take, IfOk, OnOk};
ghost use Rattle.campl_types.specs.Names.{is_among};
ghost use Rattle.campl_names.specs.NameSet.{with_name};

use campl_tree::Name;
use indexmap::IndexSet;
use std::alloc::{AllocError, Global};
use std::marker::Model;

/// Names, each once, in the order in which they came.
pub struct NameSet {
    names: IndexSet<Name>,
}

impl Drop for NameSet {
    fn drop(self) {
        let NameSet { names } = self;
        drop(names);
    }
}

impl Model for NameSet {
    ghost use Rattle.std.specs.Prelude.{List, ℕ};
    ghost use Rattle.std.specs.Coded.{coded_list, coded_ℕ};

    ghost Value = { List (List ℕ) };

    ghost coded = { coded_list (coded_list coded_ℕ) };

    ghost view = { λ s. s.names.keys };
}

impl NameSet {
    /// No names.
    pub fn new(alloc: Global) -> NameSet
        ensures { result ≡ [] }
    {
        NameSet {
            names: IndexSet::new(alloc),
        }
    }

    /// Whether a name is in the set.
    #[tactic(auto, using(crate::proofs::Sets::sets))]
    pub fn has(&self, name: &Name) -> bool
        ensures { result ≡ is_among name.now self.now }
    {
        self.names.contains(name)
    }

    /// The number of names.
    pub fn len(&self) -> usize
        ensures { result ≡ length self.now }
    {
        self.names.len()
    }

    /// Puts a name behind the others, if it isn't there.
    ///
    /// # Errors
    ///
    /// `AllocError` for want of memory.
    #[tactic(auto, using(crate::proofs::Sets::sets))]
    pub fn add(&mut self, alloc: Global, name: &Name) -> Result<(), AllocError>
        ensures { OnOk result (self.new ≡ with_name name.now self.old) }
    {
        let name = name.copy(alloc)?;
        match self.names.insert(name) {
            Ok(_) => Ok(()),
            Err(_) => Err(AllocError),
        }
    }

    /// Keeps the first names, as many as `len` says.
    pub fn truncate(&mut self, len: usize)
        ensures { self.new ≡ take len self.old }
    {
        self.names.truncate(len);
    }
}
