//! What a decision finds.
ghost use Rattle.std.specs.Prelude.{◌≡◌, None, IfOk, MatchOption, slice_get, option_map, drop};
ghost use Rattle.campl_code.specs.Decisions.{parts_of, value_at, head_of, same_head, fits_head, chosen, values_at};
ghost use Rattle.campl_instructions.specs.View.{view_head, view_decision, view_chosen};

use crate::{Decision, Head, Node, Spot};
use campl_value::{Look, Part, Value};
use sqlite_items::{Items, at};
use std::alloc::{AllocError, Global};

/// The row that a decision found.
#[derive(Drop)]
pub struct Chosen {
    /// The row's number.
    pub row: u32,
    /// What its variables stand for, in order.
    pub bound: Items<Value>,
}

impl Decision {
    /// The row that the decision finds for these values, with what its variables stand for; None where it finds none, or where
    /// one of the places isn't there. An error means that memory is out.
    pub fn choose(&self, alloc: Global, values: &[Value]) -> Result<Option<Chosen>, AllocError>
        ensures { IfOk result (λ c. option_map view_chosen c ≡ chosen (view_decision self.now).tree values.now) }
    {
        let Some((row, spots)) = self.find(values) else {
            return Ok(None);
        };
        match copies(alloc, values, spots) {
            Err(error) => Err(error),
            Ok(None) => Ok(None),
            Ok(Some(bound)) => Ok(Some(Chosen { row, bound })),
        }
    }

    /// The row that the decision finds for these values, and the places of its variables; None where it finds none. It takes no
    /// memory.
    pub fn find<'d>(&'d self, values: &[Value]) -> Option<(u32, &'d [Spot])>
        ensures { MatchOption result (chosen (view_decision self.now).tree values.now ≡ None)
            (λ row. chosen (view_decision self.now).tree values.now ≡ option_map (λ ts. (row.0, ts)) (values_at values.now row.1.now)) }
    {
        let mut rest = self.nodes.as_slice();
        'nodes: while let Some((node, behind)) = rest.split_first() {
            match node {
                Node::Row(row, spots) => return Some((*row, spots.as_slice())),
                Node::Test(spot, head, fit, other) => {
                    if fits(head, values, spot.as_slice()) {
                        rest = from(behind, *fit);
                    } else {
                        rest = from(behind, *other);
                    }
                }
                Node::Fail => return None,
            }
        }
        None
    }
}

// The nodes from this one on.
fn from(nodes: &[Node], n: u32) -> &[Node]
    ensures { result.now ≡ drop n nodes.now }
{
    let n = (n as usize).min(nodes.len());
    &nodes[n..]
}

// The values at these places, in order; None where one isn't there.
#[tactic(auto, using(crate::proofs::Copies::copying))]
fn copies(
    alloc: Global,
    values: &[Value],
    spots: &[Spot],
) -> Result<Option<Items<Value>>, AllocError>
    ensures { IfOk result (λ copies. copies ≡ values_at values.now spots.now) }
{
    let mut copies = Items::new(alloc);
    for spot in spots {
        let Some(part) = value_at(values, spot.as_slice()) else {
            return Ok(None);
        };
        match part.copy() {
            Err(error) => return Err(error),
            Ok(value) => copies.push(value)?,
        }
    }
    Ok(Some(copies))
}

/// The value at a place, where there is one. It takes no memory.
pub fn value_at<'v>(values: &'v [Value], spot: &[u32]) -> Option<Part<'v>>
    ensures { result ≡ value_at values.now spot.now }
{
    let Some((first, path)) = spot.split_first() else {
        return None;
    };
    let Some(value) = values.get(*first as usize) else {
        return None;
    };
    let mut part = value.part();
    for n in path {
        match part_of(&part, *n) {
            None => return None,
            Some(inner) => part = inner,
        }
    }
    Some(part)
}

// The part with this number of a value, from 0, where it has one.
fn part_of<'v>(value: &Part<'v>, n: u32) -> Option<Part<'v>>
    ensures { result ≡ slice_get (parts_of value.now) n }
{
    match value.look() {
        Look::Cell(head, tail) => match n {
            0 => Some(head),
            1 => Some(tail),
            _ => None,
        },
        Look::Pair(first, second) => match n {
            0 => Some(first.part()),
            1 => Some(second.part()),
            _ => None,
        },
        Look::Built(_, parts) => match at(parts, n as usize) {
            None => None,
            Some(part) => Some(part.part()),
        },
        _ => None,
    }
}

// Whether the value at a place has a head. A place that isn't there fits none.
fn fits(head: &Head, values: &[Value], spot: &[u32]) -> bool
    ensures { result ≡ fits_head (view_head head.now) (value_at values.now spot.now) }
{
    match value_at(values, spot) {
        None => false,
        Some(value) => has_head(head, &value),
    }
}

fn has_head(head: &Head, value: &Part<'_>) -> bool
    ensures { result ≡ same_head (view_head head.now) (head_of value.now) }
{
    match (head, value.look()) {
        (Head::Int(n), Look::Int(m)) => *n == m,
        (Head::Char(c), Look::Char(d)) => *c == d,
        (Head::Truth(b), Look::Truth(c)) => *b == c,
        (Head::Nil, Look::Nil) => true,
        (Head::Cell, Look::Cell(_, _)) => true,
        (Head::Pair, Look::Pair(_, _)) => true,
        (Head::Built(c, n), Look::Built(d, parts)) => *c == d && *n as usize == parts.len(),
        _ => false,
    }
}
