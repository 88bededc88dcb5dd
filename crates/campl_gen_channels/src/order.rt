//! The order in which a plug's parts are peeled.
ghost use Rattle.std.specs.Prelude.{◌≡◌, ◌<◌, ◌++◌, [], IfOk, OnOk, length, map, reverse, slice_get};
ghost use Rattle.std.specs.Option.{option_copied};
ghost use Rattle.campl_tree.specs.View.{view_link, view_part, parts as part_list};
ghost use Rattle.campl_types.specs.Names.{is_among};
ghost use Rattle.campl_types.specs.World.{names_of};
ghost use Rattle.campl_plug.specs.TreeOrder.{joins, is_linked, new_neighbours, tree_order_of};
ghost use Rattle.campl_peel.specs.Numbered.{number_of, joined_parts, last_first};
ghost use Rattle.campl_gen_channels.specs.Orders.{names_on, view_part_at, items_at, item_at, put_before};

use campl_plug::Link as Join;
use campl_tree::{Ident, Link, Name, Part, Side};
use sqlite_items::{Items, at};
use std::alloc::{AllocError, Global};

/// The parts of a plug as they are peeled: the last of the breadth-first order first. The part that is left in the end is the
/// last of them.
///
/// The time grows as the square of the number of parts, and with the number of links, which is less than that of the parts.
///
/// # Errors
///
/// `AllocError` where memory wants, or where there are 2^32 parts or more.
#[tactic(auto, using(crate::proofs::Orders::lists))]
pub fn last_first<'a>(
    alloc: Global,
    links: &[Link],
    parts: &'a [Part],
) -> Result<Items<&'a Part>, AllocError>
    ensures { IfOk result (λ order. part_list (map view_part_at order) ≡ last_first (map view_link links.now) (part_list (map view_part parts.now))) }
{
    if parts.len() >= u32::MAX as usize {
        return Err(AllocError);
    }
    let joins = join_parts(alloc, links, parts)?;
    let order = part_order(alloc, parts.len() as u32, &joins)?;
    pick_last_first(alloc, parts, &order)
}

// Whether a name is among these.
pub(crate) fn is_named(names: &[Ident], name: &Name) -> bool
    ensures { result ≡ is_among name.now (names_of names.now) }
{
    for i in 0..names.len() {
        if name == &names[i].name {
            return true;
        }
    }
    false
}

// Whether a part has a name on one side of its header.
#[tactic(auto, using(crate::proofs::Orders::headers))]
fn has_on(side: Side, part: &Part, name: &Name) -> bool
    ensures { result ≡ is_among name.now (names_of (names_on side (view_part part.now).0)) }
{
    match side {
        Side::Input => is_named(part.inputs.as_slice(), name),
        Side::Output => is_named(part.outputs.as_slice(), name),
    }
}

// The number of the first part that has a name on one side, or 0.
fn part_with(side: Side, name: &Name, parts: &[Part]) -> u32
    requires { length parts.now < 4294967295 }
    ensures { result ≡ number_of (names_on side) name.now (part_list (map view_part parts.now)) }
{
    for i in 0..parts.len() {
        if has_on(side, &parts[i], name) {
            return i as u32 + 1;
        }
    }
    0
}

// The parts that each link joins.
fn join_parts(alloc: Global, links: &[Link], parts: &[Part]) -> Result<Vec<Join>, AllocError>
    requires { length parts.now < 4294967295 }
    ensures { IfOk result (λ joins. joins.items ≡ joined_parts (map view_link links.now) (part_list (map view_part parts.now))) }
{
    let mut joins = Vec::new(alloc);
    for i in 0..links.len() {
        let name = &links[i].name.name;
        let a = part_with(Side::Output, name, parts);
        let b = part_with(Side::Input, name, parts);
        joins.push(Join { a, b })?;
    }
    Ok(joins)
}

// The breadth-first order of so many parts from part 1. It grows by the new neighbours of its next part.
fn part_order(alloc: Global, count: u32, joins: &[Join]) -> Result<Vec<u32>, AllocError>
    ensures { IfOk result (λ order. order.items ≡ tree_order_of count joins.now) }
{
    let mut order = Vec::new(alloc);
    order.push(1)?;
    let mut next: u32 = 0;
    'steps: while next < count {
        match number_at(order.as_slice(), next) {
            Some(part) => grow(alloc, count, joins, &mut order, part)?,
            None => return Ok(order),
        }
        next += 1;
    }
    Ok(order)
}

fn number_at(order: &[u32], n: u32) -> Option<u32>
    ensures { result ≡ slice_get order.now n }
{
    at(order, n as usize).copied()
}

// Puts the new neighbours of a part behind the others.
fn grow(
    alloc: Global,
    count: u32,
    joins: &[Join],
    order: &mut Vec<u32>,
    part: u32,
) -> Result<(), AllocError>
    ensures { OnOk result (order.new.items ≡ order.old.items ++ new_neighbours count joins.now order.old.items part) }
{
    let found = new_neighbours(alloc, count, joins, order, part)?;
    order.extend_from_slice(&found)?;
    Ok(())
}

// The parts up to this number that are joined to a part and aren't in the order, by their numbers.
fn new_neighbours(
    alloc: Global,
    count: u32,
    joins: &[Join],
    order: &[u32],
    part: u32,
) -> Result<Vec<u32>, AllocError>
    ensures { IfOk result (λ found. found.items ≡ new_neighbours count joins.now order.now part) }
{
    let mut found = Vec::new(alloc);
    let mut number: u32 = 0;
    'parts: while number < count {
        number += 1;
        if is_joined(joins, part, number) && !order.contains(&number) {
            found.push(number)?;
        }
    }
    Ok(found)
}

// Whether one of these joins the two parts.
fn is_joined(joins: &[Join], part: u32, other: u32) -> bool
    ensures { result ≡ is_linked joins.now part other }
{
    for i in 0..joins.len() {
        if joins_both(&joins[i], part, other) {
            return true;
        }
    }
    false
}

fn joins_both(join: &Join, part: u32, other: u32) -> bool
    ensures { result ≡ joins join.now part other }
{
    (join.a == part && join.b == other) || (join.a == other && join.b == part)
}

// The parts of these numbers, the last number first.
fn pick_last_first<'a>(
    alloc: Global,
    parts: &'a [Part],
    order: &[u32],
) -> Result<Items<&'a Part>, AllocError>
    ensures { IfOk result (λ picked. map view_part_at picked ≡ map view_part (items_at parts.now (reverse order.now))) }
{
    let mut picked = Items::new(alloc);
    let mut more = order.len();
    'parts: while more > 0 {
        more -= 1;
        pick(parts, order[more], &mut picked)?;
    }
    Ok(picked)
}

// Puts the part of a number behind the others, where there is one.
fn pick<'a>(parts: &'a [Part], number: u32, picked: &mut Items<&'a Part>) -> Result<(), AllocError>
    ensures { OnOk result (map view_part_at picked.new ≡ map view_part_at picked.old ++ map view_part (put_before (item_at parts.now number) [])) }
{
    match part_at(parts, number) {
        Some(part) => picked.push(part),
        None => Ok(()),
    }
}

// The part of a number, from 1.
fn part_at(parts: &[Part], number: u32) -> Option<&Part>
    ensures { option_copied result ≡ item_at parts.now number }
{
    if number == 0 {
        return None;
    }
    at(parts, number as usize - 1)
}
