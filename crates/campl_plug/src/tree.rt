//! The order of the parts of a tree.
ghost use Rattle.std.specs.Prelude.{◌≤◌, All, IfOk, IfErr, IsOkUnless};
ghost use Rattle.campl_plug.specs.Links.{IsWithin};
ghost use Rattle.campl_plug.specs.Tree.{IsTree};
ghost use Rattle.campl_plug.specs.Order.{IsBreadthFirst};
ghost use Rattle.campl_plug.specs.Faults.{IsFaultOf};
ghost use Rattle.campl_plug.specs.declared.plug.PlugFault.TheVariants.{OutOfMemory};

use crate::labels::{label_parts, least_apart};
use crate::plug::{Link, PlugFault};
use crate::search::breadth_first;
use std::alloc::Global;

/// The parts 1 to `parts` in breadth-first order from part 1, where the links join them to a tree.
///
/// `Cycle` names the first link, from 0, whose two parts are joined by links before it or are the same
/// part. `Apart` comes where no link closes a cycle, and names the least part that isn't reached from
/// part 1. `OutOfMemory` comes where memory is short. The time grows as the square of `parts`, as one of the
/// first `parts` links closes a cycle where there are so many, and the memory as `parts`.
pub fn tree_order(alloc: Global, parts: u32, links: &[Link]) -> Result<Vec<u32>, PlugFault>
    requires some { 1 ≤ parts }
    requires within { All (IsWithin parts) links.now }
    ensures tree { IfOk result (λ _. IsTree parts links.now) }
    ensures order { IfOk result (λ order. IsBreadthFirst parts links.now order.items) }
    ensures whole { IsTree parts links.now → IsOkUnless result OutOfMemory }
    ensures fault { IfErr result (IsFaultOf parts links.now) }
{
    let labels = label_parts(alloc, parts, links)?;
    match least_apart(parts, &labels) {
        Some(part) => Err(PlugFault::Apart { part }),
        None => Ok(breadth_first(alloc, parts, links)?),
    }
}
