//! The places of `hcase`: one for each constructor, by its number.
ghost use Rattle.std.specs.Prelude.{◌≡◌, ℕ, suc, [], IfOk, OnOk, map, max, slice_get};
ghost use Rattle.campl_tree.specs.View.{view_hcase_row, view_decl};
ghost use Rattle.campl_types.specs.Matching.{number_of};
ghost use Rattle.campl_code.specs.Generated.{or_zero};
ghost use Rattle.campl_code_bodies.specs.BodyCode.{listed};
ghost use Rattle.campl_gen_bodies.specs.Commands.{row_numbers, count_numbers, offer_places, placed, placed_row, no_places};

use crate::known::Known;
use campl_tree::HcaseRow;
use sqlite_items::{Items, at};
use std::alloc::{AllocError, Global};

/// The numbers of the constructors of rows, each where it is declared.
///
/// # Errors
///
/// `AllocError` where memory wants.
pub(crate) fn row_numbers(
    alloc: Global,
    known: &Known<'_>,
    rows: &[HcaseRow],
) -> Result<Items<Option<u32>>, AllocError>
    ensures { IfOk result (λ numbers. numbers ≡ row_numbers (map view_decl known.now) (map view_hcase_row rows.now)) }
{
    let mut numbers = Items::new(alloc);
    for i in 0..rows.len() {
        numbers.push(row_number(known, &rows[i])?)?;
    }
    Ok(numbers)
}

#[tactic(auto, using(crate::proofs::Offering::rows))]
fn row_number(known: &Known<'_>, row: &HcaseRow) -> Result<Option<u32>, AllocError>
    ensures { IfOk result (λ n. n ≡ number_of (map view_decl known.now) (view_hcase_row row.now).0.name) }
{
    known.constructor_number(&row.constructor.name)
}

/// A place for each constructor up to the greatest number: that of the first row with its number, or 0.
///
/// # Errors
///
/// `AllocError` where memory wants.
pub(crate) fn offer_places(
    alloc: Global,
    numbers: &[Option<u32>],
    starts: &[u32],
) -> Result<Items<u32>, AllocError>
    ensures { IfOk result (λ places. places ≡ offer_places numbers.now starts.now) }
{
    let mut places = zeros(alloc, count(numbers))?;
    let mut more = numbers.len();
    'rows: while more > 0 {
        more -= 1;
        place_row(&mut places, numbers, starts, more);
    }
    Ok(places)
}

// One more than the greatest number.
fn count(numbers: &[Option<u32>]) -> usize
    ensures { result ≡ count_numbers numbers.now }
{
    let mut count: usize = 0;
    let mut more = numbers.len();
    'rows: while more > 0 {
        more -= 1;
        count = larger(count, &numbers[more]);
    }
    count
}

// The count, or one more than a number where that is larger.
fn larger(count: usize, number: &Option<u32>) -> usize
    ensures { result ≡ max (suc (or_zero number.now)) count }
{
    let behind = match number {
        Some(n) => *n as usize + 1,
        None => 1,
    };
    if behind < count { count } else { behind }
}

// So many places, all 0.
fn zeros(alloc: Global, count: usize) -> Result<Items<u32>, AllocError>
    ensures { IfOk result (λ places. places ≡ listed no_places 0 count) }
{
    let mut places = Items::new(alloc);
    let mut more: usize = 0;
    'places: while more < count {
        places.push(0)?;
        more += 1;
    }
    Ok(places)
}

// Writes the place of a row for its number.
fn place_row(places: &mut Items<u32>, numbers: &[Option<u32>], starts: &[u32], row: usize)
    ensures { places.new ≡ placed_row (slice_get numbers.now row) (slice_get starts.now row) places.old }
{
    match at(numbers, row) {
        Some(number) => match at(starts, row) {
            Some(start) => place(places, number, *start),
            None => {}
        },
        None => {}
    }
}

// Writes a place for a number, where there is one.
#[tactic(auto, using(crate::proofs::Offering::setting))]
fn place(places: &mut Items<u32>, number: &Option<u32>, start: u32)
    ensures { places.new ≡ placed number.now start places.old }
{
    match number {
        Some(n) => {
            if (*n as usize) < places.len() {
                places.set(*n as usize, start);
            }
        }
        None => {}
    }
}
