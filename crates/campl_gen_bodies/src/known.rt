//! What the names of a source stand for.
ghost use Rattle.std.specs.Prelude.{◌≡◌, ◌∷◌, ℕ, List, Some, None, IfOk, OnOk, map, cond};
ghost use Rattle.std.specs.Map.{lookup};
ghost use Rattle.campl_tree.specs.View.{view_decl};
ghost use Rattle.campl_types.specs.Names.{same_name};
ghost use Rattle.campl_types.specs.Matching.{number_of};
ghost use Rattle.campl_types.specs.World.{World as Declared};
ghost use Rattle.campl_code.specs.Generated.{or_zero};
ghost use Rattle.campl_code_bodies.specs.BodyCode.{process_number};
ghost use Rattle.campl_gen_exprs.specs.Sources.{known_or};
ghost use Rattle.campl_gen_bodies.specs.Known.{AreNumbered, numbered_on};

use campl_gen_exprs::Source;
use campl_names::{ConstructorRef, World};
use campl_tree::{Decl, Name};
use indexmap::IndexMap;
use std::alloc::{AllocError, Global};
use std::marker::Model;

/// A world with the numbers of its functions and processes. Contracts see the list of its declarations.
#[derive(Drop)]
pub struct Known<'a> {
    world: &'a World,
    source: Source<'a>,
    processes: IndexMap<Name, u32>,
}

impl<'a> Model for Known<'a> {
    ghost use Rattle.std.specs.Prelude.{◌≡◌, List, map};
    ghost use Rattle.campl_tree.specs.declared.decl.Decl.{Decl};
    ghost use Rattle.campl_tree.specs.View.{view_decl};
    ghost use Rattle.campl_gen_bodies.specs.Known.{AreNumbered};
    ghost use Rattle.std.specs.Coded.{codes};
    ghost use Rattle.campl_tree.specs.contracts.decl.Decl as decl;

    ghost Value = { List Decl };

    ghost coded = { Prim.hlevel (codes, decl.the_row.coded) };

    ghost view = { λ k. k.world.now };

    ghost invariant = { λ k. (k.source ≡ k.world.now) × AreNumbered k.processes.entries (map view_decl k.world.now) };
}

impl<'a> Known<'a> {
    /// Numbers the functions and the processes of a world, each kind in the order of the declarations.
    ///
    /// # Errors
    ///
    /// `AllocError` where memory wants.
    pub fn new(alloc: Global, world: &'a World) -> Result<Known<'a>, AllocError>
        ensures { IfOk result (λ k. k ≡ world.now) }
    {
        let processes = number_processes(alloc, world.declarations())?;
        let source = Source::new(alloc, world)?;
        Ok(Known {
            world,
            source,
            processes,
        })
    }

    /// The world.
    pub fn world(&self) -> &World
        ensures { result.now ≡ self.now }
    {
        self.world
    }

    /// The world with the numbers of its functions.
    pub fn source(&self) -> &Source<'a>
        ensures { result.now ≡ self.now }
    {
        &self.source
    }

    /// The number of the process of a name, or 0 where there is none.
    #[tactic(auto, using(crate::proofs::Numbers::finding))]
    pub fn process_number(&self, name: &Name) -> u32
        ensures { result ≡ or_zero (process_number (map view_decl self.now) name.now) }
    {
        match self.processes.get(name).copied() {
            Some(number) => number,
            None => 0,
        }
    }

    /// The number of a constructor in its declaration, where there is one.
    ///
    /// # Errors
    ///
    /// `AllocError` where it is too large for an instruction, which no declaration in memory reaches.
    pub fn constructor_number(&self, name: &Name) -> Result<Option<u32>, AllocError>
        ensures { IfOk result (λ n. n ≡ number_of (map view_decl self.now) name.now) }
    {
        match self.world.constructor_named(name) {
            Some(ConstructorRef::Data(_, n, _)) => some_small(n),
            Some(ConstructorRef::Protocol(_, n, _)) => some_small(n),
            Some(ConstructorRef::Coprotocol(_, n, _)) => some_small(n),
            None => Ok(None),
        }
    }
}

// A number as an operand. An error means that it is 2^32 or more.
fn some_small(n: usize) -> Result<Option<u32>, AllocError>
    ensures { IfOk result (λ m. m ≡ Some n) }
{
    if n > u32::MAX as usize {
        return Err(AllocError);
    }
    Ok(Some(n as u32))
}

// The processes' numbers by their names. Of two of one name the first counts.
fn number_processes(alloc: Global, declarations: &[Decl]) -> Result<IndexMap<Name, u32>, AllocError>
    ensures { IfOk result (λ m. AreNumbered m.entries (map view_decl declarations.now)) }
{
    let mut numbers = IndexMap::new(alloc);
    let mut next: u32 = 0;
    for i in 0..declarations.len() {
        let declaration = &declarations[i];
        next = note_process(alloc, &mut numbers, next, declaration)?;
    }
    Ok(numbers)
}

// Notes the number of a declaration where it is a process, and gives the next one.
#[tactic(auto, using(crate::proofs::Numbers::noting))]
fn note_process(
    alloc: Global,
    numbers: &mut IndexMap<Name, u32>,
    next: u32,
    declaration: &Decl,
) -> Result<u32, AllocError>
    ensures { IfOk result (λ n. (ds : Declared) (x : List ℕ) → numbered_on numbers.new.entries n ds x ≡ numbered_on numbers.old.entries next (view_decl declaration.now ∷ ds) x) }
{
    match declaration {
        Decl::Process(p) => {
            note(alloc, numbers, &p.name.name, next)?;
            match next.checked_add(1) {
                Some(n) => Ok(n),
                None => Err(AllocError),
            }
        }
        Decl::Function(_) => Ok(next),
        Decl::Data(_) => Ok(next),
        Decl::Protocol(_) => Ok(next),
        Decl::Coprotocol(_) => Ok(next),
    }
}

// Notes a name's number where it has none.
#[tactic(auto, using(crate::proofs::Numbers::noting))]
fn note(
    alloc: Global,
    numbers: &mut IndexMap<Name, u32>,
    name: &Name,
    number: u32,
) -> Result<(), AllocError>
    ensures { OnOk result ((x : List ℕ) → lookup (same_name x) numbers.new.entries ≡ known_or (lookup (same_name x) numbers.old.entries) (cond (same_name name.now x) (Some number) None)) }
{
    if numbers.contains_key(name) {
        return Ok(());
    }
    let key = name.copy(alloc)?;
    put(numbers, key, number)
}

fn put(numbers: &mut IndexMap<Name, u32>, name: Name, number: u32) -> Result<(), AllocError>
    ensures { OnOk result ((x : List ℕ) → lookup (same_name x) numbers.new.entries ≡ cond (same_name name x) (Some number) (lookup (same_name x) numbers.old.entries)) }
{
    match numbers.insert(name, number) {
        Ok(_) => Ok(()),
        Err(_) => Err(AllocError),
    }
}
