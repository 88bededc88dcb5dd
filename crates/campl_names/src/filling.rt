//! Types in which parameters stand for arguments.
ghost use Rattle.std.specs.Prelude.{◌≡◌, ◌++◌, [], ◌∷◌, IfOk, OnErr, OnOk, None, length, map, take, unwrap_or};
ghost use Rattle.std.specs.Option.{option_copied};
ghost use Rattle.campl_tree.specs.View.{view_seq, view_data, view_data_constructor};
ghost use Rattle.campl_tree.specs.Plain.SeqType as s;
ghost use Rattle.campl_names.specs.Filling.{view_filling, with_type};
ghost use Rattle.campl_types.specs.Names.{Name as Spelled, found};
ghost use Rattle.campl_types.specs.Substitution.{filling as fills, filled};
ghost use Rattle.campl_types.specs.Values as values;
ghost use Rattle.campl_types.specs.World.{names_of};

use campl_tree::{DataConstructor, DataDecl, Ident, Name, Place, SeqType};
use indexmap::IndexMap;
use sqlite_items::{Boxed, Items};
use std::alloc::{AllocError, Global};
use std::marker::Model;

/// What type parameters stand for: names with types, each name once.
///
/// Contracts see the list of the names with their types, in the order in which they were bound.
pub struct Filling {
    types: IndexMap<Name, SeqType>,
}

impl Drop for Filling {
    fn drop(self) {
        let Filling { types } = self;
        drop(types);
    }
}

impl Model for Filling {
    ghost use Rattle.std.specs.Prelude.{List, ℕ};
    ghost use Rattle.std.specs.Coded.{codes};
    ghost use Rattle.campl_tree.specs.declared.types.SeqType.{SeqType};
    ghost use Rattle.campl_tree.specs.contracts.types.SeqType as seq;

    ghost Value = { List (List ℕ × SeqType) };

    ghost coded = { Prim.hlevel (codes, seq.the_row.coded) };

    ghost view = { λ f. f.types.entries };
}

impl Filling {
    /// A filling in which no name stands for a type.
    pub fn new(alloc: Global) -> Filling
        ensures { result ≡ [] }
    {
        Filling {
            types: IndexMap::new(alloc),
        }
    }

    /// A filling in which the first parameter stands for the first argument, and so on. Where there are
    /// more parameters than arguments, or the other way round, those behind are left out; of two parameters
    /// of one name the first counts.
    pub fn of(
        alloc: Global,
        parameters: &[Ident],
        arguments: &[SeqType],
    ) -> Result<Filling, AllocError>
        ensures { IfOk result (λ f. (x : Spelled) → found x (view_filling f) ≡ found x (fills (names_of parameters.now) (map view_seq arguments.now))) }
    {
        let mut filling = Filling::new(alloc);
        for i in 0..parameters.len().min(arguments.len()) {
            filling.bind_once(alloc, &parameters[i].name, &arguments[i])?;
        }
        Ok(filling)
    }

    /// What a name stands for.
    #[tactic(auto, using(crate::proofs::Sets::sets))]
    pub fn find(&self, name: &Name) -> Option<&SeqType>
        ensures { option_copied result ≡ found name.now self.now }
    {
        self.types.get(name)
    }

    /// Lets a name that stands for nothing yet stand for a type, behind the others.
    #[tactic(auto, using(crate::proofs::Fillings::binding))]
    pub fn bind(&mut self, alloc: Global, name: &Name, t: SeqType) -> Result<(), AllocError>
        requires { found name.now self.old ≡ None }
        ensures ok { OnOk result (self.new ≡ self.old ++ (name.now, t) ∷ []) }
        ensures err { OnErr result (self.new ≡ self.old) }
    {
        let name = name.copy(alloc)?;
        match self.types.insert(name, t) {
            Ok(_) => Ok(()),
            Err(_) => Err(AllocError),
        }
    }

    /// How many names stand for a type.
    pub fn len(&self) -> usize
        ensures { result ≡ length self.now }
    {
        self.types.len()
    }

    /// Lets all but the first so many names stand for nothing again.
    pub fn truncate(&mut self, len: usize)
        ensures { self.new ≡ take len self.old }
    {
        self.types.truncate(len);
    }

    /// Lets a name stand for a type, unless it stands for one already.
    fn bind_once(&mut self, alloc: Global, name: &Name, t: &SeqType) -> Result<(), AllocError>
        ensures { OnOk result (self.new ≡ with_type name.now t.now self.old) }
    {
        if self.find(name).is_some() {
            return Ok(());
        }
        self.bind(alloc, name, t.copy(alloc)?)
    }

    /// A type with each parameter replaced by what it stands for; one that stands for nothing stays.
    #[cycle(fill)]
    #[tactic(auto, using(crate::proofs::Fillings::filled_types))]
    pub fn filled(&self, alloc: Global, t: &SeqType) -> Result<SeqType, AllocError>
        ensures { IfOk result (λ u. view_seq u ≡ filled (view_filling self.now) (view_seq t.now)) }
    {
        match t {
            SeqType::Int => Ok(SeqType::Int),
            SeqType::Char => Ok(SeqType::Char),
            SeqType::Bool => Ok(SeqType::Bool),
            SeqType::List(t) => {
                let item = self.filled(alloc, t.get())?;
                Ok(SeqType::List(Boxed::new(alloc, item)?))
            }
            SeqType::Pair(t, u) => {
                let first = Boxed::new(alloc, self.filled(alloc, t.get())?)?;
                let second = self.filled(alloc, u.get())?;
                Ok(SeqType::Pair(first, Boxed::new(alloc, second)?))
            }
            SeqType::Named(at, x, ts) => {
                let ts = self.filled_all(alloc, ts.as_slice())?;
                Ok(SeqType::Named(*at, x.copy(alloc)?, ts))
            }
            SeqType::Variable(at, x) => self.filled_variable(alloc, *at, x),
        }
    }

    /// Types with each parameter replaced by what it stands for, in order.
    #[cycle(fill)]
    pub fn filled_all(&self, alloc: Global, ts: &[SeqType]) -> Result<Items<SeqType>, AllocError>
        ensures { IfOk result (λ us. map view_seq us ≡ map (filled (view_filling self.now)) (map view_seq ts.now)) }
    {
        let mut filled = Items::new(alloc);
        for t in ts {
            filled.push(self.filled(alloc, t)?)?;
        }
        Ok(filled)
    }

    /// What a type variable stands for, or itself.
    #[tactic(auto, using(crate::proofs::Fillings::variables))]
    fn filled_variable(&self, alloc: Global, at: Place, name: &Name) -> Result<SeqType, AllocError>
        ensures { IfOk result (λ u. view_seq u ≡ unwrap_or (found name.now (view_filling self.now)) (s.Variable at name.now)) }
    {
        match self.find(name) {
            Some(t) => t.copy(alloc),
            None => Ok(SeqType::Variable(at, name.copy(alloc)?)),
        }
    }
}

/// The types of a constructor's parts, where its data type stands at these arguments.
pub fn parts_at(
    alloc: Global,
    d: &DataDecl,
    arguments: &[SeqType],
    k: &DataConstructor,
) -> Result<Items<SeqType>, AllocError>
    ensures { IfOk result (λ parts. map view_seq parts ≡ values.parts_at (view_data d.now) (map view_seq arguments.now) (view_data_constructor k.now)) }
{
    let filling = Filling::of(alloc, d.parameters.as_slice(), arguments)?;
    filling.filled_all(alloc, k.parts.as_slice())
}
