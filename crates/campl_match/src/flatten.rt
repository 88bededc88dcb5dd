//! The tests of patterns.
ghost use Rattle.std.specs.Prelude.{◌≡◌, ◌++◌, ◌∷◌, [], IfOk, OnOk, length, map, neg_ℤ};
ghost use Rattle.campl_tree.specs.View.{view_decl, view_pattern, patterns as seen};
ghost use Rattle.campl_types.specs.Forms.{list_of, part_forms};
ghost use Rattle.campl_types.specs.Matching.{number_of};
ghost use Rattle.campl_code.specs.Decisions as d;
ghost use Rattle.campl_code.specs.Compiled.{built_test, never};
ghost use Rattle.campl_instructions.specs.View.{view_head};
ghost use Rattle.campl_match.specs.Flattened.{flat_row, with_pattern, with_elements, with_text, with_parts, with_test};
ghost use Rattle.campl_match.specs.View.{view_flat};

use crate::asked::Asked;
use crate::flat::{Flat, below, narrow};
use campl_instructions::Head;
use campl_names::{ConstructorRef, World};
use campl_tree::{Name, Pattern};
use sqlite_items::Items;
use std::alloc::{AllocError, Global};

/// The row of these patterns, which matches no values where there aren't `width` of them.
pub(crate) fn flat_row(
    alloc: Global,
    world: &World,
    width: u32,
    number: usize,
    patterns: &[Pattern],
) -> Result<Flat, AllocError>
    ensures { IfOk result (λ r. view_flat r ≡ flat_row (map view_decl world.now) width number (list_of (part_forms (seen (map view_pattern patterns.now))))) }
{
    let row = any_width(alloc, world, number, patterns)?;
    if patterns.len() == width as usize {
        Ok(row)
    } else {
        never_held(alloc, row)
    }
}

fn any_width(
    alloc: Global,
    world: &World,
    number: usize,
    patterns: &[Pattern],
) -> Result<Flat, AllocError>
    ensures { IfOk result (λ r. view_flat r ≡ with_parts (map view_decl world.now) [] 0 (seen (map view_pattern patterns.now)) (record { number = number; tests = []; spots = [] })) }
{
    let number = narrow(number)?;
    let mut row = Flat {
        number,
        tests: Items::new(alloc),
        spots: Items::new(alloc),
    };
    flatten_parts(alloc, world, &[], patterns, &mut row)?;
    Ok(row)
}

/// The row with the test that never holds in place of its own: there is nothing at its place.
fn never_held(alloc: Global, row: Flat) -> Result<Flat, AllocError>
    ensures { IfOk result (λ r. view_flat r ≡ record (view_flat row) { tests = never ∷ [] }) }
{
    let mut tests = Items::new(alloc);
    let spot = Items::new(alloc);
    tests.push(Asked {
        spot,
        head: Head::Nil,
    })?;
    Ok(Flat {
        number: row.number,
        tests,
        spots: row.spots,
    })
}

/// Puts what a pattern asks of the value at a place, and where its variables stand, behind what the row has.
#[cycle(flatten)]
#[tactic(auto, using(crate::proofs::Flattening::nodes))]
fn flatten(
    alloc: Global,
    world: &World,
    spot: &[u32],
    p: &Pattern,
    row: &mut Flat,
) -> Result<(), AllocError>
    ensures { OnOk result (view_flat row.new ≡ with_pattern (map view_decl world.now) spot.now (view_pattern p.now) (view_flat row.old)) }
{
    match p {
        Pattern::Wildcard(_) => Ok(()),
        Pattern::Variable(_, _) => row.bind(alloc, spot),
        Pattern::Number(_, n) => row.ask(alloc, spot, Head::Int(*n)),
        Pattern::Negative(_, n) => flatten_negative(alloc, spot, *n, row),
        Pattern::Character(_, c) => row.ask(alloc, spot, Head::Char(*c)),
        Pattern::Text(_, text) => flatten_text(alloc, spot, text.as_slice(), row),
        Pattern::True(_) => row.ask(alloc, spot, Head::Truth(true)),
        Pattern::False(_) => row.ask(alloc, spot, Head::Truth(false)),
        Pattern::Constructor(_, name, ps) => {
            flatten_built(alloc, world, spot, name, ps.as_slice(), row)
        }
        Pattern::List(_, ps) => flatten_list(alloc, world, spot, ps.as_slice(), row),
        Pattern::Pair(_, p, q) => {
            match flatten_first(alloc, world, spot, Head::Pair, p.get(), row) {
                Ok(()) => flatten_part(alloc, world, spot, 1, q.get(), row),
                Err(error) => Err(error),
            }
        }
        Pattern::Cons(_, p, q) => {
            match flatten_first(alloc, world, spot, Head::Cell, p.get(), row) {
                Ok(()) => flatten_part(alloc, world, spot, 1, q.get(), row),
                Err(error) => Err(error),
            }
        }
    }
}

/// The same of a part, from 0, of the value at a place.
#[cycle(flatten)]
fn flatten_part(
    alloc: Global,
    world: &World,
    spot: &[u32],
    n: usize,
    p: &Pattern,
    row: &mut Flat,
) -> Result<(), AllocError>
    ensures { OnOk result (view_flat row.new ≡ with_pattern (map view_decl world.now) (spot.now ++ n ∷ []) (view_pattern p.now) (view_flat row.old)) }
{
    match below(alloc, spot, n) {
        Ok(below) => flatten(alloc, world, below.as_slice(), p, row),
        Err(error) => Err(error),
    }
}

/// A head, and the first of its parts.
#[cycle(flatten)]
fn flatten_first(
    alloc: Global,
    world: &World,
    spot: &[u32],
    head: Head,
    p: &Pattern,
    row: &mut Flat,
) -> Result<(), AllocError>
    ensures { OnOk result (view_flat row.new ≡ with_pattern (map view_decl world.now) (spot.now ++ 0 ∷ []) (view_pattern p.now) (with_test (spot.now, view_head head) (view_flat row.old))) }
{
    match row.ask(alloc, spot, head) {
        Ok(()) => flatten_part(alloc, world, spot, 0, p, row),
        Err(error) => Err(error),
    }
}

/// A constructor and its parts.
#[cycle(flatten)]
fn flatten_built(
    alloc: Global,
    world: &World,
    spot: &[u32],
    name: &Name,
    ps: &[Pattern],
    row: &mut Flat,
) -> Result<(), AllocError>
    ensures { OnOk result (view_flat row.new ≡ with_parts (map view_decl world.now) spot.now 0 (seen (map view_pattern ps.now))
        (with_test (built_test (number_of (map view_decl world.now) name.now) spot.now (length ps.now)) (view_flat row.old))) }
{
    ask_built(alloc, world, spot, name, ps.len(), row)?;
    flatten_parts(alloc, world, spot, ps, row)
}

/// The parts of the value at a place.
#[cycle(flatten)]
fn flatten_parts(
    alloc: Global,
    world: &World,
    spot: &[u32],
    ps: &[Pattern],
    row: &mut Flat,
) -> Result<(), AllocError>
    ensures { OnOk result (view_flat row.new ≡ with_parts (map view_decl world.now) spot.now 0 (seen (map view_pattern ps.now)) (view_flat row.old)) }
{
    for i in 0..ps.len() {
        flatten_part(alloc, world, spot, i, &ps[i], row)?;
    }
    Ok(())
}

/// The elements of a list.
#[cycle(flatten)]
fn flatten_list(
    alloc: Global,
    world: &World,
    spot: &[u32],
    ps: &[Pattern],
    row: &mut Flat,
) -> Result<(), AllocError>
    ensures { OnOk result (view_flat row.new ≡ with_elements (map view_decl world.now) spot.now (seen (map view_pattern ps.now)) (view_flat row.old)) }
{
    let mut rest = Items::from_slice(alloc, spot)?;
    for i in 0..ps.len() {
        flatten_first(alloc, world, rest.as_slice(), Head::Cell, &ps[i], row)?;
        rest.push(1)?;
    }
    row.ask(alloc, rest.as_slice(), Head::Nil)
}

/// The letters of a text.
fn flatten_text(
    alloc: Global,
    spot: &[u32],
    text: &[char],
    row: &mut Flat,
) -> Result<(), AllocError>
    ensures { OnOk result (view_flat row.new ≡ with_text spot.now text.now (view_flat row.old)) }
{
    let mut rest = Items::from_slice(alloc, spot)?;
    for c in text {
        flatten_letter(alloc, rest.as_slice(), *c, row)?;
        rest.push(1)?;
    }
    row.ask(alloc, rest.as_slice(), Head::Nil)
}

/// The first letter of the text at a place.
fn flatten_letter(alloc: Global, spot: &[u32], c: char, row: &mut Flat) -> Result<(), AllocError>
    ensures { OnOk result (view_flat row.new ≡ with_test (spot.now ++ 0 ∷ [], d.Head.Char c) (with_test (spot.now, d.Head.Cell) (view_flat row.old))) }
{
    row.ask(alloc, spot, Head::Cell)?;
    let letter = below(alloc, spot, 0)?;
    row.ask(alloc, letter.as_slice(), Head::Char(c))
}

/// The opposite of a number, where an `i64` holds it.
fn flatten_negative(alloc: Global, spot: &[u32], n: i64, row: &mut Flat) -> Result<(), AllocError>
    ensures { OnOk result (view_flat row.new ≡ with_test (spot.now, d.Head.Int (neg_ℤ n)) (view_flat row.old)) }
{
    match n.checked_neg() {
        Some(n) => row.ask(alloc, spot, Head::Int(n)),
        None => Err(AllocError),
    }
}

/// The test for a constructor with so many parts. One that isn't declared has none.
fn ask_built(
    alloc: Global,
    world: &World,
    spot: &[u32],
    name: &Name,
    count: usize,
    row: &mut Flat,
) -> Result<(), AllocError>
    ensures { OnOk result (view_flat row.new ≡ with_test (built_test (number_of (map view_decl world.now) name.now) spot.now count) (view_flat row.old)) }
{
    match constructor_number(world, name) {
        None => row.ask(alloc, &[], Head::Nil),
        Some(number) => {
            let number = narrow(number)?;
            let count = narrow(count)?;
            row.ask(alloc, spot, Head::Built(number, count))
        }
    }
}

/// A constructor's number, by the lines of its declaration from 0.
fn constructor_number(world: &World, name: &Name) -> Option<usize>
    ensures { result ≡ number_of (map view_decl world.now) name.now }
{
    match world.constructor_named(name) {
        None => None,
        Some(ConstructorRef::Data(_, number, _)) => Some(number),
        Some(ConstructorRef::Protocol(_, number, _)) => Some(number),
        Some(ConstructorRef::Coprotocol(_, number, _)) => Some(number),
    }
}
