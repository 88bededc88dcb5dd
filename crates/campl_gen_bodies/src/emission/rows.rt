//! The rows of `hcase`, `race` and `case`.
ghost use Rattle.std.specs.Prelude.{◌≡◌, ◌++◌, ◌∷◌, [], OnOk, length, map};
ghost use Rattle.campl_tree.specs.View.{view_expr, view_hcase_row, view_branch, view_case_row, case_rows, view_decl};
ghost use Rattle.campl_gen_channels.specs.View.{view_channels};
ghost use Rattle.campl_gen_bodies.specs.Making.{built};
ghost use Rattle.campl_gen_bodies.specs.Commands.{rows_built, row_starts, hcase_built, race_built, case_row_built, cases_built, case_starts, case_closed, case_built};
ghost use Rattle.campl_gen_bodies.specs.View.{view_making};

use crate::emission::emit_body;
use crate::known::Known;
use crate::making::Making;
use crate::offers::{offer_places, row_numbers};
use campl_gen_channels::Channels;
use campl_instructions::Instr;
use campl_tree::{Branch, CaseRow, Expr, HcaseRow, Ident};
use sqlite_items::Items;
use std::alloc::{AllocError, Global};

// `hcase x of` and its rows
#[cycle(emit)]
pub(super) fn emit_hcase(
    alloc: Global,
    known: &Known<'_>,
    making: &mut Making,
    held: &Channels,
    rows: &[HcaseRow],
    x: &Ident,
) -> Result<(), AllocError>
    ensures { OnOk result (view_making making.new ≡ hcase_built (map view_decl known.now) x.now (map view_hcase_row rows.now) held.now.next (view_channels held.now) (view_making making.old)) }
{
    let at = making.len();
    let n = held.number(&x.name);
    making.push(Instr::Nil)?;
    let mut starts = Items::new(alloc);
    emit_hcase_rows(alloc, known, making, held, rows, &mut starts)?;
    let numbers = row_numbers(alloc, known, rows)?;
    let places = offer_places(alloc, numbers.as_slice(), starts.as_slice())?;
    making.set(at, Instr::Offer(n, places));
    Ok(())
}

// The bodies of the rows of `hcase`, with where they begin.
#[cycle(emit)]
fn emit_hcase_rows(
    alloc: Global,
    known: &Known<'_>,
    making: &mut Making,
    held: &Channels,
    rows: &[HcaseRow],
    starts: &mut Items<u32>,
) -> Result<(), AllocError>
    ensures made { OnOk result (view_making making.new ≡ rows_built (map view_decl known.now) (map view_hcase_row rows.now) held.now.next (view_channels held.now) (view_making making.old)) }
    ensures starts { OnOk result (starts.new ≡ starts.old ++ row_starts (map view_decl known.now) (map view_hcase_row rows.now) held.now.next (view_channels held.now) (view_making making.old)) }
{
    for i in 0..rows.len() {
        emit_hcase_row(alloc, known, making, held, &rows[i], starts)?;
    }
    Ok(())
}

#[cycle(emit)]
#[tactic(auto, using(crate::proofs::RowTurns::rows))]
fn emit_hcase_row(
    alloc: Global,
    known: &Known<'_>,
    making: &mut Making,
    held: &Channels,
    row: &HcaseRow,
    starts: &mut Items<u32>,
) -> Result<(), AllocError>
    ensures made { OnOk result (view_making making.new ≡ built (map view_decl known.now) (view_hcase_row row.now).1 held.now.next (view_channels held.now) (view_making making.old)) }
    ensures starts { OnOk result (starts.new ≡ starts.old ++ length (view_making making.old).emission.code ∷ []) }
{
    let start = making.here()?;
    starts.push(start)?;
    emit_body(alloc, known, making, held, &row.body)
}

// `race` and its rows
#[cycle(emit)]
pub(super) fn emit_race(
    alloc: Global,
    known: &Known<'_>,
    making: &mut Making,
    held: &Channels,
    rows: &[Branch],
) -> Result<(), AllocError>
    ensures { OnOk result (view_making making.new ≡ race_built (map view_decl known.now) (map view_branch rows.now) held.now.next (view_channels held.now) (view_making making.old)) }
{
    let at = making.len();
    making.push(Instr::Nil)?;
    let mut starts = Items::new(alloc);
    emit_branches(alloc, known, making, held, rows, &mut starts)?;
    making.set(at, Instr::Race(starts));
    Ok(())
}

// The bodies of the rows of `race`, with where they begin.
#[cycle(emit)]
fn emit_branches(
    alloc: Global,
    known: &Known<'_>,
    making: &mut Making,
    held: &Channels,
    rows: &[Branch],
    starts: &mut Items<u32>,
) -> Result<(), AllocError>
    ensures made { OnOk result (view_making making.new ≡ rows_built (map view_decl known.now) (map view_branch rows.now) held.now.next (view_channels held.now) (view_making making.old)) }
    ensures starts { OnOk result (starts.new ≡ starts.old ++ row_starts (map view_decl known.now) (map view_branch rows.now) held.now.next (view_channels held.now) (view_making making.old)) }
{
    for i in 0..rows.len() {
        emit_branch(alloc, known, making, held, &rows[i], starts)?;
    }
    Ok(())
}

#[cycle(emit)]
#[tactic(auto, using(crate::proofs::RowTurns::rows))]
fn emit_branch(
    alloc: Global,
    known: &Known<'_>,
    making: &mut Making,
    held: &Channels,
    row: &Branch,
    starts: &mut Items<u32>,
) -> Result<(), AllocError>
    ensures made { OnOk result (view_making making.new ≡ built (map view_decl known.now) (view_branch row.now).1 held.now.next (view_channels held.now) (view_making making.old)) }
    ensures starts { OnOk result (starts.new ≡ starts.old ++ length (view_making making.old).emission.code ∷ []) }
{
    let start = making.here()?;
    starts.push(start)?;
    emit_body(alloc, known, making, held, &row.body)
}

// `case e of` and its rows
#[cycle(emit)]
pub(super) fn emit_case(
    alloc: Global,
    known: &Known<'_>,
    making: &mut Making,
    held: &Channels,
    rows: &[CaseRow],
    e: &Expr,
) -> Result<(), AllocError>
    ensures { OnOk result (view_making making.new ≡ case_built (map view_decl known.now) (view_expr e.now) (case_rows (map view_case_row rows.now)) (map view_case_row rows.now) held.now.next (view_channels held.now) (view_making making.old)) }
{
    making.value(alloc, known, e)?;
    let at = making.len();
    let decision = making.code.decisions;
    making.put_decision(alloc, known, rows)?;
    emit_decided(alloc, known, making, held, rows, at, decision)
}

// The rows of `case`, and the instruction before them at its place.
#[cycle(emit)]
fn emit_decided(
    alloc: Global,
    known: &Known<'_>,
    making: &mut Making,
    held: &Channels,
    rows: &[CaseRow],
    at: usize,
    decision: u32,
) -> Result<(), AllocError>
    ensures { OnOk result (view_making making.new ≡ case_closed (map view_decl known.now) (map view_case_row rows.now) at decision held.now.next (view_channels held.now) (view_making making.old)) }
{
    let first = making.code.free;
    let mut starts = Items::new(alloc);
    emit_cases(alloc, known, making, held, rows, &mut starts)?;
    making.set(at, Instr::Case(decision, first, starts));
    Ok(())
}

// The bodies of the rows of `case`, with where they begin.
#[cycle(emit)]
fn emit_cases(
    alloc: Global,
    known: &Known<'_>,
    making: &mut Making,
    held: &Channels,
    rows: &[CaseRow],
    starts: &mut Items<u32>,
) -> Result<(), AllocError>
    ensures made { OnOk result (view_making making.new ≡ cases_built (map view_decl known.now) (map view_case_row rows.now) held.now.next (view_channels held.now) (view_making making.old)) }
    ensures starts { OnOk result (starts.new ≡ starts.old ++ case_starts (map view_decl known.now) (map view_case_row rows.now) held.now.next (view_channels held.now) (view_making making.old)) }
{
    for i in 0..rows.len() {
        let row = &rows[i];
        let start = making.here()?;
        starts.push(start)?;
        emit_case_row(alloc, known, making, held, row)?;
    }
    Ok(())
}

// A row's body, under the variables of its pattern too.
#[cycle(emit)]
#[tactic(auto, using(crate::proofs::RowTurns::cases))]
fn emit_case_row(
    alloc: Global,
    known: &Known<'_>,
    making: &mut Making,
    held: &Channels,
    row: &CaseRow,
) -> Result<(), AllocError>
    ensures { OnOk result (view_making making.new ≡ case_row_built (map view_decl known.now) (view_case_row row.now) held.now.next (view_channels held.now) (view_making making.old)) }
{
    let variables = making.code.scope.len();
    let free = making.code.free;
    making.enter(alloc, &row.pattern)?;
    emit_body(alloc, known, making, held, &row.body)?;
    making.leave(variables, free);
    Ok(())
}
