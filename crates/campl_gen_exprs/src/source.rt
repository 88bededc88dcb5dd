//! What the names of a source stand for.
ghost use Rattle.std.specs.Prelude.{◌≡◌, ◌∷◌, ℕ, List, Some, None, IfOk, OnOk, map, cond};
ghost use Rattle.std.specs.Map.{lookup};
ghost use Rattle.campl_tree.specs.View.{view_decl};
ghost use Rattle.campl_types.specs.Names.{same_name};
ghost use Rattle.campl_types.specs.Matching.{number_of};
ghost use Rattle.campl_types.specs.World.{World as Declared};
ghost use Rattle.campl_code.specs.Generated.{function_number, or_zero};
ghost use Rattle.campl_gen_exprs.specs.Sources.{AreNumbered, known_or, numbered_on};

use campl_names::{ConstructorRef, World};
use campl_tree::{Decl, Name};
use indexmap::IndexMap;
use std::alloc::{AllocError, Global};
use std::marker::Model;

/// A world with the numbers of its functions. Contracts see the list of its declarations.
#[derive(Drop)]
pub struct Source<'a> {
    world: &'a World,
    functions: IndexMap<Name, u32>,
}

impl<'a> Model for Source<'a> {
    ghost use Rattle.std.specs.Prelude.{List, map};
    ghost use Rattle.campl_tree.specs.declared.decl.Decl.{Decl};
    ghost use Rattle.campl_tree.specs.View.{view_decl};
    ghost use Rattle.campl_gen_exprs.specs.Sources.{AreNumbered};
    ghost use Rattle.std.specs.Coded.{codes};
    ghost use Rattle.campl_tree.specs.contracts.decl.Decl as decl;

    ghost Value = { List Decl };

    ghost coded = { Prim.hlevel (codes, decl.the_row.coded) };

    ghost view = { λ s. s.world.now };

    ghost invariant = { λ s. AreNumbered s.functions.entries (map view_decl s.world.now) };
}

impl<'a> Source<'a> {
    /// Numbers the functions of a world, in the order of their declarations.
    ///
    /// # Errors
    ///
    /// `AllocError` where memory wants.
    pub fn new(alloc: Global, world: &'a World) -> Result<Source<'a>, AllocError>
        ensures { IfOk result (λ s. s ≡ world.now) }
    {
        let functions = number_functions(alloc, world.declarations())?;
        Ok(Source { world, functions })
    }

    /// All declarations, in order.
    pub fn declarations(&self) -> &[Decl]
        ensures { result.now ≡ self.now }
    {
        self.world.declarations()
    }

    /// The number of the function of a name, or 0 where there is none.
    #[tactic(auto, using(crate::proofs::Sources::finding))]
    pub fn function_number(&self, name: &Name) -> u32
        ensures { result ≡ or_zero (function_number (map view_decl self.now) name.now) }
    {
        match self.functions.get(name).copied() {
            Some(number) => number,
            None => 0,
        }
    }

    /// The number of a constructor in its declaration, or 0 where there is none.
    ///
    /// # Errors
    ///
    /// `AllocError` where it is too large for an instruction, which no declaration in memory reaches.
    pub fn constructor_number(&self, name: &Name) -> Result<u32, AllocError>
        ensures { IfOk result (λ n. n ≡ or_zero (number_of (map view_decl self.now) name.now)) }
    {
        match self.world.constructor_named(name) {
            Some(ConstructorRef::Data(_, n, _)) => small(n),
            Some(ConstructorRef::Protocol(_, n, _)) => small(n),
            Some(ConstructorRef::Coprotocol(_, n, _)) => small(n),
            None => Ok(0),
        }
    }
}

/// A number as an operand. An error means that it is 2^32 or more.
pub(crate) fn small(n: usize) -> Result<u32, AllocError>
    ensures { IfOk result (λ m. m ≡ n) }
{
    if n > u32::MAX as usize {
        return Err(AllocError);
    }
    Ok(n as u32)
}

// The functions' numbers by their names. Of two of one name the first counts.
fn number_functions(alloc: Global, declarations: &[Decl]) -> Result<IndexMap<Name, u32>, AllocError>
    ensures { IfOk result (λ m. AreNumbered m.entries (map view_decl declarations.now)) }
{
    let mut numbers = IndexMap::new(alloc);
    let mut next: u32 = 0;
    for i in 0..declarations.len() {
        let declaration = &declarations[i];
        next = note_function(alloc, &mut numbers, next, declaration)?;
    }
    Ok(numbers)
}

// Notes the number of a declaration where it is a function, and gives the next one.
fn note_function(
    alloc: Global,
    numbers: &mut IndexMap<Name, u32>,
    next: u32,
    declaration: &Decl,
) -> Result<u32, AllocError>
    ensures { IfOk result (λ n. (ds : Declared) (x : List ℕ) → numbered_on numbers.new.entries n ds x ≡ numbered_on numbers.old.entries next (view_decl declaration.now ∷ ds) x) }
{
    match declaration {
        Decl::Function(f) => {
            note(alloc, numbers, &f.name.name, next)?;
            match next.checked_add(1) {
                Some(n) => Ok(n),
                None => Err(AllocError),
            }
        }
        Decl::Data(_) => Ok(next),
        Decl::Protocol(_) => Ok(next),
        Decl::Coprotocol(_) => Ok(next),
        Decl::Process(_) => Ok(next),
    }
}

// Notes a name's number where it has none.
fn note(
    alloc: Global,
    numbers: &mut IndexMap<Name, u32>,
    name: &Name,
    number: u32,
) -> Result<(), AllocError>
    ensures { OnOk result ((x : List ℕ) → lookup (same_name x) numbers.new.entries ≡ known_or (lookup (same_name x) numbers.old.entries) (cond (same_name name.now x) (Some number) None)) }
{
    if numbers.contains_key(name) {
        return Ok(());
    }
    let key = name.copy(alloc)?;
    put(numbers, key, number)
}

fn put(numbers: &mut IndexMap<Name, u32>, name: Name, number: u32) -> Result<(), AllocError>
    ensures { OnOk result ((x : List ℕ) → lookup (same_name x) numbers.new.entries ≡ cond (same_name name x) (Some number) (lookup (same_name x) numbers.old.entries)) }
{
    match numbers.insert(name, number) {
        Ok(_) => Ok(()),
        Err(_) => Err(AllocError),
    }
}
