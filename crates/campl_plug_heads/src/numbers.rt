//! Names with the numbers of parts.
ghost use Rattle.std.specs.Prelude.{◌≡◌, [], ◌∷◌, ◌++◌, false, OnOk};
ghost use Rattle.campl_types.specs.Names.{found, is_among};
ghost use Rattle.campl_plug_heads.specs.Heads.{names_in, number_in};

use campl_tree::Name;
use indexmap::IndexMap;
use std::alloc::{AllocError, Global};
use std::marker::Model;

/// Names, each once, with the numbers of the parts in whose headers they stand.
#[derive(Drop)]
pub(crate) struct Numbers {
    numbers: IndexMap<Name, u32>,
}

impl Model for Numbers {
    ghost use Rattle.std.specs.Prelude.{List, ℕ};
    ghost use Rattle.std.specs.Coded.{coded_list, coded×, coded_ℕ};

    ghost Value = { List (List ℕ × ℕ) };

    ghost coded = { coded_list (coded× (coded_list coded_ℕ) coded_ℕ) };

    ghost view = { λ n. n.numbers.entries };
}

impl Numbers {
    /// No names.
    pub(crate) fn new(alloc: Global) -> Numbers
        ensures { result ≡ [] }
    {
        Numbers {
            numbers: IndexMap::new(alloc),
        }
    }

    /// The number of a name.
    #[tactic(auto, using(crate::proofs::Names::maps))]
    pub(crate) fn find(&self, name: &Name) -> Option<u32>
        ensures { result ≡ found name.now self.now }
    {
        self.numbers.get(name).copied()
    }

    /// Whether a name has a number.
    #[tactic(auto, using(crate::proofs::Names::maps))]
    pub(crate) fn has(&self, name: &Name) -> bool
        ensures { result ≡ is_among name.now (names_in self.now) }
    {
        self.numbers.contains_key(name)
    }

    /// The number of a name, or 0.
    pub(crate) fn number(&self, name: &Name) -> u32
        ensures { result ≡ number_in name.now self.now }
    {
        match self.find(name) {
            Some(number) => number,
            None => 0,
        }
    }

    /// Puts a new name behind the others.
    ///
    /// # Errors
    ///
    /// `AllocError` for want of memory.
    #[tactic(auto, using(crate::proofs::Names::maps))]
    pub(crate) fn add(&mut self, alloc: Global, name: &Name, number: u32) -> Result<(), AllocError>
        requires { is_among name.now (names_in self.old) ≡ false }
        ensures { OnOk result (self.new ≡ self.old ++ (name.now, number) ∷ []) }
    {
        let name = name.copy(alloc)?;
        match self.numbers.insert(name, number) {
            Ok(_) => {}
            Err(_) => return Err(AllocError),
        }
        Ok(())
    }
}
