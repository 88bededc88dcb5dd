//! What is still to be made of a tree.
ghost use Rattle.std.specs.Prelude.{◌≡◌, ◌+◌, ◌*◌, ◌<◌, ◌∷◌, [], OnOk};
ghost use Rattle.campl_code.specs.Decisions.{Choice};
ghost use Rattle.campl_match.specs.Growing.{asks, finish, nodes_in, row_asks, seen, tree, trees, view_next, view_task, work};
ghost use Rattle.campl_code.specs.Compiled.{where_fails, where_holds};
ghost use Rattle.campl_match.specs.Growing as plain;
ghost use Rattle.campl_match.specs.View.{view_asked, view_open, view_rows};

use crate::asked::Asked;
use crate::flat::Flat;
use crate::grown::Grown;
use crate::open::{Open, where_fails, where_holds};
use sqlite_items::Items;
use std::alloc::{AllocError, Global};

/// What is to be made.
pub(crate) enum Task<'a> {
    /// The tree of these rows.
    Rows(Vec<Open<'a>>),
    /// A test of the newest two trees.
    Join(&'a Asked),
}

impl Drop for Task<'_> {
    fn drop(self) {
        match self {
            Task::Rows(rows) => drop(rows),
            Task::Join(_) => {}
        }
    }
}

/// What the first of some rows wants.
#[derive(Clone, Copy)]
enum Next<'a> {
    /// There is no row.
    Fail,
    /// The row itself: none of its tests is open.
    Row(&'a Flat),
    /// Its first open test.
    Test(&'a Asked),
}

impl<'a> Task<'a> {
    /// Makes what is to be made, or puts the tasks for it before the others; the last is done first. No error changes what
    /// an `Ok` would be: it is want of memory, or of numbers for the nodes.
    pub(crate) fn perform(
        self,
        alloc: Global,
        tasks: &mut Items<Task<'a>>,
        grown: &mut Grown,
    ) -> Result<(), AllocError>
        ensures done { OnOk result ((c : Choice) → finish (view_task self.entry ∷ seen tasks.old) (trees grown.old) ≡ c ∷ [] → finish (seen tasks.new) (trees grown.new) ≡ c ∷ []) }
        ensures less { OnOk result (work (seen tasks.new) < work (view_task self.entry ∷ seen tasks.old)) }
    {
        match self {
            Task::Rows(rows) => {
                grow(alloc, rows, tasks, grown)?;
                Ok(())
            }
            Task::Join(asked) => {
                grown.join(alloc, asked)?;
                Ok(())
            }
        }
    }
}

fn grow<'a>(
    alloc: Global,
    rows: Vec<Open<'a>>,
    tasks: &mut Items<Task<'a>>,
    grown: &mut Grown,
) -> Result<(), AllocError>
    ensures done { OnOk result (finish (seen tasks.new) (trees grown.new) ≡ finish (seen tasks.old) (tree (view_rows rows.entry.items) ∷ trees grown.old)) }
    ensures less { OnOk result (work (seen tasks.new) < nodes_in (tree (view_rows rows.entry.items)) * 2 + work (seen tasks.old)) }
{
    match first_wants(rows.as_slice()) {
        Next::Fail => {
            grown.fail()?;
            Ok(())
        }
        Next::Row(row) => {
            grown.row(alloc, row)?;
            Ok(())
        }
        Next::Test(asked) => {
            divide(alloc, asked, rows, tasks)?;
            Ok(())
        }
    }
}

fn first_wants<'a>(rows: &[Open<'a>]) -> Next<'a>
    ensures { view_next result ≡ asks (view_rows rows.now) }
{
    match rows.first() {
        None => Next::Fail,
        Some(row) => row_wants(row),
    }
}

fn row_wants<'a>(row: &Open<'a>) -> Next<'a>
    ensures { view_next result ≡ row_asks (view_open row.now) (view_open row.now).tests }
{
    let flat = row.row;
    match row.tests.get(0) {
        None => Next::Row(flat),
        Some(asked) => Next::Test(*asked),
    }
}

/// Puts the trees of a test before the other tasks: first that for no, then that for yes, then the test.
fn divide<'a>(
    alloc: Global,
    asked: &'a Asked,
    rows: Vec<Open<'a>>,
    tasks: &mut Items<Task<'a>>,
) -> Result<(), AllocError>
    ensures { OnOk result (seen tasks.new ≡ plain.Rows (where_fails (view_asked asked.now) (view_rows rows.entry.items)) ∷ plain.Rows (where_holds (view_asked asked.now) (view_rows rows.entry.items)) ∷ plain.Join (view_asked asked.now) ∷ seen tasks.old) }
{
    let holds = match where_holds(alloc, asked, rows.as_slice()) {
        Ok(holds) => holds,
        Err(error) => return Err(error),
    };
    let fails = where_fails(asked, rows);
    put(tasks, asked, holds, fails)
}

#[tactic(auto, using(crate::proofs::Trees::pushing))]
fn put<'a>(
    tasks: &mut Items<Task<'a>>,
    asked: &'a Asked,
    holds: Vec<Open<'a>>,
    fails: Vec<Open<'a>>,
) -> Result<(), AllocError>
    ensures { OnOk result (seen tasks.new ≡ plain.Rows (view_rows fails.entry.items) ∷ plain.Rows (view_rows holds.entry.items) ∷ plain.Join (view_asked asked.now) ∷ seen tasks.old) }
{
    tasks.push(Task::Join(asked))?;
    tasks.push(Task::Rows(holds))?;
    tasks.push(Task::Rows(fails))
}
