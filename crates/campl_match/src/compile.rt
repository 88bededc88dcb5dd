//! Rows compiled.
ghost use Rattle.std.specs.Prelude.{◌≡◌, IfOk, map, length};
ghost use Rattle.campl_tree.specs.View.{view_decl, view_pattern, patterns as seen};
ghost use Rattle.campl_types.specs.Forms.{list_of, part_forms};
ghost use Rattle.campl_code.specs.Compiled.{decision_for, flat_rows};
ghost use Rattle.campl_code.specs.Decisions.{StandsForRows};
ghost use Rattle.campl_instructions.specs.View.{root, view_decision};
ghost use Rattle.campl_match.specs.Growing.{tree};
ghost use Rattle.campl_match.specs.View.{view_flat};

use crate::flat::{Flat, narrow};
use crate::flatten::flat_row;
use crate::grown::Grown;
use crate::open::all_open;
use crate::task::Task;
use campl_instructions::{Decision, Node};
use campl_names::World;
use campl_seqcheck::Row;
use sqlite_items::Items;
use std::alloc::{AllocError, Global};

/// The decision of rows for `width` values. Of values of whatever types it finds the first row that matches, and the places of
/// its variables in order; a row that hasn't `width` patterns never matches. Nothing is left out because a type has no other
/// constructor.
///
/// # Errors
///
/// `AllocError` where memory wants, where the decision has 2^32 nodes or more or a number of 2^32 or more in it, and for the
/// pattern of the opposite of -2^63, which is no `i64` and which no source has.
pub fn compile_match<R: Row>(
    alloc: Global,
    world: &World,
    width: u32,
    rows: &[R],
) -> Result<Decision, AllocError>
    ensures exact { IfOk result (λ d. view_decision d ≡ decision_for (map view_decl world.now) width (map (λ r. list_of (part_forms (R.patterns r))) rows.now)) }
    ensures stands { IfOk result (λ d. StandsForRows (map view_decl world.now) (view_decision d) (map (λ r. list_of (part_forms (R.patterns r))) rows.now) width) }
{
    let flat = flat_rows(alloc, world, width, rows)?;
    let bound = bound(alloc, flat.as_slice())?;
    let nodes = nodes(alloc, flat.as_slice())?;
    Ok(Decision {
        width,
        bound,
        nodes,
    })
}

/// Rows as their tests, numbered from 0.
fn flat_rows<R: Row>(
    alloc: Global,
    world: &World,
    width: u32,
    rows: &[R],
) -> Result<Items<Flat>, AllocError>
    ensures { IfOk result (λ flat. map view_flat flat ≡ flat_rows (map view_decl world.now) width 0 (map (λ r. list_of (part_forms (R.patterns r))) rows.now)) }
{
    let mut flat = Items::new(alloc);
    for i in 0..rows.len() {
        let row = &rows[i];
        let patterns = row.patterns();
        let row = flat_row(alloc, world, width, i, patterns)?;
        flat.push(row)?;
    }
    Ok(flat)
}

/// How many variables each row has.
fn bound(alloc: Global, rows: &[Flat]) -> Result<Items<u32>, AllocError>
    ensures { IfOk result (λ bound. bound ≡ map (λ r. length r.spots) (map view_flat rows.now)) }
{
    let mut bound = Items::new(alloc);
    for row in rows {
        let count = narrow(row.spots.len())?;
        bound.push(count)?;
    }
    Ok(bound)
}

/// The nodes of the tree that finds the first of these rows.
fn nodes(alloc: Global, rows: &[Flat]) -> Result<Items<Node>, AllocError>
    ensures { IfOk result (λ nodes. root nodes ≡ tree (map view_flat rows.now)) }
{
    let open = all_open(alloc, rows)?;
    let mut grown = Grown::new(alloc);
    let mut tasks = Items::new(alloc);
    tasks.push(Task::Rows(open))?;
    'tasks: while let Some(task) = tasks.pop() {
        task.perform(alloc, &mut tasks, &mut grown)?;
    }
    Ok(grown.into_nodes())
}
