//! Where the names of one space stand.
ghost use Rattle.std.specs.Prelude.{◌≡◌, [], ◌∷◌, ◌++◌, OnOk};
ghost use Rattle.campl_names.specs.Judges.{Judges};
ghost use Rattle.campl_types.specs.Names.{found};
ghost use Rattle.campl_names.specs.Tables.{again, names_in};

use crate::refusing::twice;
use campl_tree::{Ident, Name};
use campl_types::NameFault;
use indexmap::IndexMap;
use std::alloc::Global;
use std::marker::Model;

/// The number of a declaration, and of a line in it; that of a heading is 0.
pub(crate) type Spot = (usize, usize);

/// The spots of names, in source order.
#[derive(Drop)]
pub(crate) struct Table {
    spots: IndexMap<Name, Spot>,
}

impl Model for Table {
    ghost use Rattle.std.specs.Prelude.{List, ℕ};
    ghost use Rattle.std.specs.Coded.{coded_list, coded×, coded_ℕ};

    ghost Value = { List (List ℕ × (ℕ × ℕ)) };

    ghost coded = { coded_list (coded× (coded_list coded_ℕ) (coded× coded_ℕ coded_ℕ)) };

    ghost view = { λ t. t.spots.entries };
}

impl Table {
    pub(crate) fn new(alloc: Global) -> Table
        ensures { result ≡ [] }
    {
        Table {
            spots: IndexMap::new(alloc),
        }
    }

    /// Where a name stands.
    #[tactic(auto, using(crate::proofs::Sets::sets))]
    pub(crate) fn find(&self, name: &Name) -> Option<Spot>
        ensures { result ≡ found name.now self.now }
    {
        self.spots.get(name).copied()
    }

    /// Puts a name behind the others, or refuses it as `Twice` where it is there already.
    #[tactic(auto, using(crate::proofs::Sets::adding))]
    pub(crate) fn add(&mut self, alloc: Global, ident: &Ident, spot: Spot) -> Result<(), NameFault>
        ensures judged { Judges (again (names_in self.old) ident.now) result }
        ensures added { OnOk result (self.new ≡ self.old ++ (ident.now.name, spot) ∷ []) }
    {
        if self.spots.contains_key(&ident.name) {
            return twice(alloc, ident.place, &ident.name);
        }
        let name = ident.name.copy(alloc)?;
        self.spots.insert(name, spot)?;
        Ok(())
    }
}
