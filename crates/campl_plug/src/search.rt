//! The breadth-first search from part 1.
ghost use Rattle.std.specs.Prelude.{◌≡◌, ◌+◌, ◌<◌, ◌≤◌, ◌↔◌, ℕ, All, IfOk, IsTrue, length, slice_index_or, Some, false, not, ◌&&◌, ◌==◌};
ghost use Rattle.std.specs.List.{list_any};
ghost use Rattle.campl_plug.specs.Links.{IsWithin, Joins, Linked};
ghost use Rattle.campl_plug.specs.Tree.{AreReached};
ghost use Rattle.campl_plug.specs.Order.{IsBreadthFirst};
ghost use Rattle.campl_plug.specs.Search.{AreNewNeighbours};

use crate::plug::Link;
use std::alloc::{AllocError, Global};

/// The parts in breadth-first order, where each of them is reached from part 1. The order grows by the
/// neighbours of its next part.
pub fn breadth_first(alloc: Global, parts: u32, links: &[Link]) -> Result<Vec<u32>, AllocError>
    requires some { 1 ≤ parts }
    requires within { All (IsWithin parts) links.now }
    requires reached { AreReached parts links.now }
    ensures { IfOk result (λ order. IsBreadthFirst parts links.now order.items) }
{
    let mut order = Vec::new(alloc);
    order.push(1)?;
    let mut next = 0;
    while next < order.len() {
        let found = new_neighbours(alloc, parts, links, &order, order[next])?;
        order.extend_from_slice(&found)?;
        next += 1;
    }
    Ok(order)
}

// The parts with a link to `part` that aren't in the order yet, in order of their number.
fn new_neighbours(
    alloc: Global,
    parts: u32,
    links: &[Link],
    order: &[u32],
    part: u32,
) -> Result<Vec<u32>, AllocError>
    requires { All (IsWithin parts) links.now }
    ensures { IfOk result (λ found. AreNewNeighbours parts links.now order.now part found.items) }
{
    let is_linked = mark_linked(alloc, parts, links, part)?;
    let mut found = Vec::new(alloc);
    for candidate in 1..=parts {
        if is_new_neighbour(&is_linked, order, candidate) {
            found.push(candidate)?;
        }
    }
    Ok(found)
}

fn is_new_neighbour(is_linked: &[bool], order: &[u32], candidate: u32) -> bool
    requires { candidate < length is_linked.now }
    ensures { result ≡ (slice_index_or is_linked.now candidate false
        && not (list_any (λ x. x == candidate) order.now)) }
{
    is_linked[candidate as usize] && !order.contains(&candidate)
}

// Which parts have a link to `part`, at their numbers.
fn mark_linked(
    alloc: Global,
    parts: u32,
    links: &[Link],
    part: u32,
) -> Result<Vec<bool>, AllocError>
    requires { All (IsWithin parts) links.now }
    ensures size { IfOk result (λ marks. length marks.items ≡ parts + 1) }
    ensures marked { IfOk result (λ marks. (q : ℕ)
        → IsTrue (slice_index_or marks.items q false) ↔ Linked links.now part q) }
{
    let mut marks = vec![in alloc; false; parts as usize + 1]?;
    for link in links {
        if let Some(end) = other_end(*link, part) {
            marks[end as usize] = true;
        }
    }
    Ok(marks)
}

// The part that the link joins to `part`.
fn other_end(link: Link, part: u32) -> Option<u32>
    ensures { (q : ℕ) → (result ≡ Some q) ↔ Joins link part q }
{
    if link.a == part {
        Some(link.b)
    } else if link.b == part {
        Some(link.a)
    } else {
        None
    }
}
