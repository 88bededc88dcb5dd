//! The declared world: a program's declarations behind those of the prelude, with tables of their names.
ghost use Rattle.std.specs.Prelude.{◌≡◌, [], IfOk, map, option_map, codes};
ghost use Rattle.std.specs.Option.{option_copied};
ghost use Rattle.campl_tree.specs.View.{view_decl, view_process};
ghost use Rattle.campl_names.specs.Judges.{Judges};
ghost use Rattle.campl_types.specs.Twice.{twice_among, declared_from};
ghost use Rattle.campl_types.specs.World.{type_named, constructor_named, lower_named, process_named};
ghost use Rattle.campl_names.specs.Entries.{type_seen, constructor_seen, lower_seen};

use crate::tables::Tables;
use campl_tree::{
    CoprotocolConstructor, CoprotocolDecl, DataConstructor, DataDecl, Decl, FunctionDecl, Name,
    ProcessDecl, ProtocolConstructor, ProtocolDecl,
};
use campl_types::NameFault;
use sqlite_items::Items;
use std::alloc::{AllocError, Global};
use std::marker::Model;

/// All declarations that a program may name, in order: those of the prelude and then its own.
///
/// Contracts see the list of the declarations. What is found by a name is what the first declaration of
/// it in its space says, and no look-up scans a list.
#[derive(Drop)]
pub struct World {
    declarations: Items<Decl>,
    tables: Tables,
    run: Name,
}

impl Model for World {
    ghost use Rattle.std.specs.Prelude.{◌≡◌, List, map, codes as spelled};
    ghost use Rattle.campl_tree.specs.declared.decl.Decl.{Decl};
    ghost use Rattle.campl_tree.specs.View.{view_decl};
    ghost use Rattle.campl_names.specs.Tables.{type_spots, constructor_spots, lower_spots, spots};
    ghost use Rattle.std.specs.Coded.{codes};
    ghost use Rattle.campl_tree.specs.contracts.decl.Decl as decl;

    ghost Value = { List Decl };

    ghost coded = { Prim.hlevel (codes, decl.the_row.coded) };

    ghost view = { λ w. w.declarations };

    ghost invariant = { λ w. (w.tables.types ≡ spots type_spots 0 (map view_decl w.declarations))
        × (w.tables.constructors ≡ spots constructor_spots 0 (map view_decl w.declarations))
        × (w.tables.lowers ≡ spots lower_spots 0 (map view_decl w.declarations))
        × (w.run ≡ spelled "run") };
}

/// What a type's name is declared to be.
#[derive(Clone, Copy)]
pub enum TypeRef<'a> {
    Data(&'a DataDecl),
    Protocol(&'a ProtocolDecl),
    Coprotocol(&'a CoprotocolDecl),
}

/// What a constructor is declared to be: its declaration, its number there from 0, and its line.
#[derive(Clone, Copy)]
pub enum ConstructorRef<'a> {
    Data(&'a DataDecl, usize, &'a DataConstructor),
    Protocol(&'a ProtocolDecl, usize, &'a ProtocolConstructor),
    Coprotocol(&'a CoprotocolDecl, usize, &'a CoprotocolConstructor),
}

/// What a small name is declared to be.
#[derive(Clone, Copy)]
pub enum LowerRef<'a> {
    Function(&'a FunctionDecl),
    Process(&'a ProcessDecl),
}

impl World {
    /// The world of these declarations, or the first name that is declared twice in its space.
    #[tactic(auto, using(crate::proofs::Declared::world))]
    pub(crate) fn of(alloc: Global, declarations: Items<Decl>) -> Result<World, NameFault>
        ensures judged { Judges (twice_among [] (declared_from 0 (map view_decl declarations))) result }
        ensures world { IfOk result (λ w. w ≡ declarations) }
    {
        let run = run_name(alloc)?;
        let mut tables = Tables::new(alloc);
        match tables.add_all(alloc, declarations.as_slice()) {
            Ok(()) => Ok(World {
                declarations,
                tables,
                run,
            }),
            Err(fault) => Err(fault),
        }
    }

    /// All declarations, in order.
    pub fn declarations(&self) -> &[Decl]
        ensures { result.now ≡ self.now }
    {
        self.declarations.as_slice()
    }

    /// What a type's name is declared to be.
    #[tactic(auto, using(crate::proofs::Entries::types))]
    pub fn type_named(&self, name: &Name) -> Option<TypeRef<'_>>
        ensures { type_seen result ≡ type_named (map view_decl self.now) name.now }
    {
        let (number, _) = self.tables.types.find(name)?;
        match self.declarations.get(number)? {
            Decl::Data(d) => Some(TypeRef::Data(d)),
            Decl::Protocol(d) => Some(TypeRef::Protocol(d)),
            Decl::Coprotocol(d) => Some(TypeRef::Coprotocol(d)),
            Decl::Function(_) => None,
            Decl::Process(_) => None,
        }
    }

    /// What a constructor is declared to be.
    #[tactic(auto, using(crate::proofs::Entries::constructors))]
    pub fn constructor_named(&self, name: &Name) -> Option<ConstructorRef<'_>>
        ensures { constructor_seen result ≡ constructor_named (map view_decl self.now) name.now }
    {
        let (number, line) = self.tables.constructors.find(name)?;
        match self.declarations.get(number)? {
            Decl::Data(d) => {
                let constructor = d.constructors.get(line)?;
                Some(ConstructorRef::Data(d, line, constructor))
            }
            Decl::Protocol(d) => {
                let constructor = d.constructors.get(line)?;
                Some(ConstructorRef::Protocol(d, line, constructor))
            }
            Decl::Coprotocol(d) => {
                let constructor = d.constructors.get(line)?;
                Some(ConstructorRef::Coprotocol(d, line, constructor))
            }
            Decl::Function(_) => None,
            Decl::Process(_) => None,
        }
    }

    /// What a small name is declared to be: a function or a process.
    #[tactic(auto, using(crate::proofs::Entries::lowers))]
    pub fn lower_named(&self, name: &Name) -> Option<LowerRef<'_>>
        ensures { lower_seen result ≡ lower_named (map view_decl self.now) name.now }
    {
        let (number, _) = self.tables.lowers.find(name)?;
        match self.declarations.get(number)? {
            Decl::Data(_) => None,
            Decl::Protocol(_) => None,
            Decl::Coprotocol(_) => None,
            Decl::Function(d) => Some(LowerRef::Function(d)),
            Decl::Process(d) => Some(LowerRef::Process(d)),
        }
    }

    /// The process of a name.
    pub fn process_named(&self, name: &Name) -> Option<&ProcessDecl>
        ensures { option_map view_process (option_copied result) ≡ process_named (map view_decl self.now) name.now }
    {
        match self.lower_named(name) {
            Some(LowerRef::Function(_)) => None,
            Some(LowerRef::Process(p)) => Some(p),
            None => None,
        }
    }

    /// The process `run`.
    pub fn run(&self) -> Option<&ProcessDecl>
        ensures { option_map view_process (option_copied result) ≡ process_named (map view_decl self.now) (codes "run") }
    {
        self.process_named(&self.run)
    }
}

#[tactic(auto, using(crate::proofs::Letters::spelled))]
fn run_name(alloc: Global) -> Result<Name, AllocError>
    ensures { IfOk result (λ x. x ≡ codes "run") }
{
    let name = Name::of(alloc, "run")?;
    Ok(name)
}
