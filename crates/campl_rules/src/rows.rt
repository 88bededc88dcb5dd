//! Which decisions name only rows that are there.
ghost use Rattle.std.specs.Prelude.{◌≡◌, ◌≤◌, IfOk, map, length, drop};
ghost use Rattle.campl_code.specs.Operands.{is_bound, names_rows};
ghost use Rattle.campl_instructions.specs.View.{view_decision, node_trees, root};
ghost use Rattle.campl_rules.specs.Rows.{names_at, named_at};

use campl_instructions::{Decision, Node};
use sqlite_items::at;
use std::alloc::{AllocError, Global};

/// For each decision whether the rows that it names are there, with as many places as they have variables.
pub(crate) fn named_rows(alloc: Global, decisions: &[Decision]) -> Result<Vec<bool>, AllocError>
    ensures { IfOk result (λ named. named.items ≡ map (λ d. names_rows d.bound d.tree) (map view_decision decisions.now)) }
{
    let mut named = Vec::new(alloc);
    for decision in decisions {
        let fine = names_its_rows(alloc, decision)?;
        named.push(fine)?;
    }
    Ok(named)
}

fn names_its_rows(alloc: Global, decision: &Decision) -> Result<bool, AllocError>
    ensures { IfOk result (λ fine. fine ≡ names_rows decision.now.bound (root decision.now.nodes)) }
{
    let named = names_from(alloc, decision.bound.as_slice(), decision.nodes.as_slice())?;
    Ok(named_at(named.as_slice(), 0))
}

// For each node whether the tree from it on names only rows that are there, found from the last one on.
fn names_from(alloc: Global, bound: &[u32], nodes: &[Node]) -> Result<Vec<bool>, AllocError>
    ensures { IfOk result (λ named. named.items ≡ map (names_rows bound.now) (node_trees nodes.now)) }
{
    let mut named = vec![in alloc; true; nodes.len()]?;
    let mut at = nodes.len();
    while at > 0 {
        at -= 1;
        named[at] = names_at(bound, &nodes[at], from(named.as_slice(), at + 1));
    }
    Ok(named)
}

fn from(named: &[bool], at: usize) -> &[bool]
    requires { at ≤ length named.now }
    ensures { result.now ≡ drop at named.now }
{
    &named[at..]
}

// Whether a node names only rows that are there, by the nodes behind it.
fn names_at(bound: &[u32], node: &Node, behind: &[bool]) -> bool
    ensures { result ≡ names_at bound.now behind.now node.now }
{
    match node {
        Node::Row(row, spots) => match at(bound, *row as usize) {
            None => false,
            Some(n) => *n as usize == spots.len(),
        },
        Node::Test(_, _, fit, other) => named_at(behind, *fit) && named_at(behind, *other),
        Node::Fail => true,
    }
}

fn named_at(named: &[bool], n: u32) -> bool
    ensures { result ≡ named_at named.now n }
{
    match at(named, n as usize) {
        None => true,
        Some(fine) => *fine,
    }
}
