//! Rows as far as their tests are open.
ghost use Rattle.std.specs.Prelude.{◌≡◌, IfOk, map};
ghost use Rattle.campl_code.specs.Compiled.{where_holds, where_fails, settled, is_refuted, is_asked};
ghost use Rattle.campl_match.specs.View.{view_asked, view_asked_at, view_open, view_rows, view_flat};

use crate::asked::Asked;
use crate::flat::Flat;
use sqlite_items::Items;
use std::alloc::{AllocError, Global};

/// A row, with those of its tests that are still open.
#[derive(Drop)]
pub(crate) struct Open<'a> {
    pub row: &'a Flat,
    pub tests: Items<&'a Asked>,
}

/// Rows with all of their tests open.
pub(crate) fn all_open<'a>(alloc: Global, rows: &'a [Flat]) -> Result<Vec<Open<'a>>, AllocError>
    ensures { IfOk result (λ all. view_rows all.items ≡ map view_flat rows.now) }
{
    let mut all = Vec::new(alloc);
    for row in rows {
        let tests = references(alloc, row.tests.as_slice())?;
        all.push(Open { row, tests })?;
    }
    Ok(all)
}

fn references<'a>(alloc: Global, tests: &'a [Asked]) -> Result<Items<&'a Asked>, AllocError>
    ensures { IfOk result (λ references. map view_asked_at references ≡ map view_asked tests.now) }
{
    let mut references = Items::new(alloc);
    for test in tests {
        references.push(test)?;
    }
    Ok(references)
}

/// The rows that may match where the test holds, without it.
pub(crate) fn where_holds<'a>(
    alloc: Global,
    asked: &Asked,
    rows: &[Open<'a>],
) -> Result<Vec<Open<'a>>, AllocError>
    ensures { IfOk result (λ held. view_rows held.items ≡ where_holds (view_asked asked.now) (view_rows rows.now)) }
{
    let mut held = Vec::new(alloc);
    for row in rows {
        if !is_refuted(asked, row.tests.as_slice()) {
            let row = settled(alloc, asked, row)?;
            held.push(row)?;
        }
    }
    Ok(held)
}

/// The row without this test.
fn settled<'a>(alloc: Global, asked: &Asked, row: &Open<'a>) -> Result<Open<'a>, AllocError>
    ensures { IfOk result (λ r. view_open r ≡ record (view_open row.now) { tests = settled (view_asked asked.now) (view_open row.now).tests }) }
{
    let tests = unsettled(alloc, asked, row.tests.as_slice())?;
    Ok(Open {
        row: row.row,
        tests,
    })
}

/// All tests but this one.
fn unsettled<'a>(
    alloc: Global,
    asked: &Asked,
    tests: &[&'a Asked],
) -> Result<Items<&'a Asked>, AllocError>
    ensures { IfOk result (λ left. map view_asked_at left ≡ settled (view_asked asked.now) (map view_asked_at tests.now)) }
{
    let mut left = Items::new(alloc);
    for test in tests {
        if !asked.same(test) {
            left.push(*test)?;
        }
    }
    Ok(left)
}

/// Whether one of these can't hold where the test does.
fn is_refuted(asked: &Asked, tests: &[&Asked]) -> bool
    ensures { result ≡ is_refuted (view_asked asked.now) (map view_asked_at tests.now) }
{
    for test in tests {
        if asked.is_against(test) {
            return true;
        }
    }
    false
}

/// The rows that may match where the test doesn't hold.
pub(crate) fn where_fails<'a>(asked: &Asked, mut rows: Vec<Open<'a>>) -> Vec<Open<'a>>
    ensures { view_rows result.items ≡ where_fails (view_asked asked.now) (view_rows rows.entry.items) }
{
    rows.retain(|row| !is_asked(asked, row.tests.as_slice()));
    rows
}

/// Whether the test is one of these.
fn is_asked(asked: &Asked, tests: &[&Asked]) -> bool
    ensures { result ≡ is_asked (view_asked asked.now) (map view_asked_at tests.now) }
{
    for test in tests {
        if asked.same(test) {
            return true;
        }
    }
    false
}
