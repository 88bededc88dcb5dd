//! Whether a program has a `race`.
ghost use Rattle.std.specs.Prelude.{◌≡◌, map};
ghost use Rattle.campl_tree.specs.View.{view_last, view_body, view_branch, view_case_row, case_rows, view_hcase_row, hcase_rows, view_part, parts, view_decl};
ghost use Rattle.campl_free.specs.Racing.{races, row_races, case_races, part_races, decl_races, has_race};

use campl_tree::{Body, Branch, CaseRow, Decl, HcaseRow, Last, Part};

/// Whether a `race` stands in a process of these declarations.
pub fn has_race(declarations: &[Decl]) -> bool
    ensures { result ≡ has_race (map view_decl declarations.now) }
{
    for declaration in declarations {
        if decl_races(declaration) {
            return true;
        }
    }
    false
}

/// Whether one stands in a process that is declared.
fn decl_races(declaration: &Decl) -> bool
    ensures { result ≡ decl_races (view_decl declaration.now) }
{
    match declaration {
        Decl::Process(p) => races(&p.row.body),
        Decl::Data(_) => false,
        Decl::Protocol(_) => false,
        Decl::Coprotocol(_) => false,
        Decl::Function(_) => false,
    }
}

/// Whether one stands in a body.
#[cycle(race)]
#[tactic(auto, using(crate::proofs::Raced::bodies))]
fn races(body: &Body) -> bool
    ensures { result ≡ races (view_body body.now) }
{
    last_races(&body.last)
}

/// Whether a last command is one, or one stands in it.
#[cycle(race)]
#[tactic(auto, using(crate::proofs::Raced::bodies))]
fn last_races(last: &Last) -> bool
    ensures { result ≡ races (view_last last.now) }
{
    match last {
        Last::Halt(_, _) => false,
        Last::Hcase(_, _, rows) => hcase_races(rows.as_slice()),
        Last::Fork(_, _, a, b) => branch_races(a.get()) || branch_races(b.get()),
        Last::Plug(_, _, all) => plug_races(all.as_slice()),
        Last::Race(_, _) => true,
        Last::Case(_, _, rows) => case_races(rows.as_slice()),
        Last::Identity(_, _, _, _) => false,
        Last::Call(_, _, _, _, _) => false,
    }
}

/// Whether one stands in a row of `hcase`.
#[cycle(race)]
#[tactic(auto, using(crate::proofs::Raced::rows))]
fn hcase_races(rows: &[HcaseRow]) -> bool
    ensures { result ≡ row_races (hcase_rows (map view_hcase_row rows.now)) }
{
    for row in rows {
        if hcase_row_races(row) {
            return true;
        }
    }
    false
}

/// Whether one stands in this row.
#[cycle(race)]
#[tactic(auto, using(crate::proofs::Raced::bodies))]
fn hcase_row_races(row: &HcaseRow) -> bool
    ensures { result ≡ races (view_hcase_row row.now).1 }
{
    races(&row.body)
}

/// Whether one stands in a row of `fork`.
#[cycle(race)]
#[tactic(auto, using(crate::proofs::Raced::bodies))]
fn branch_races(row: &Branch) -> bool
    ensures { result ≡ races (view_branch row.now).1 }
{
    races(&row.body)
}

/// Whether one stands in a row of a process's `case`.
#[cycle(race)]
#[tactic(auto, using(crate::proofs::Raced::rows))]
fn case_races(rows: &[CaseRow]) -> bool
    ensures { result ≡ case_races (case_rows (map view_case_row rows.now)) }
{
    for row in rows {
        if case_row_races(row) {
            return true;
        }
    }
    false
}

/// Whether one stands in this row.
#[cycle(race)]
#[tactic(auto, using(crate::proofs::Raced::bodies))]
fn case_row_races(row: &CaseRow) -> bool
    ensures { result ≡ races (view_case_row row.now).1 }
{
    races(&row.body)
}

/// Whether one stands in a part of a plug.
#[cycle(race)]
#[tactic(auto, using(crate::proofs::Raced::rows))]
fn plug_races(all: &[Part]) -> bool
    ensures { result ≡ part_races (parts (map view_part all.now)) }
{
    for part in all {
        if part_races(part) {
            return true;
        }
    }
    false
}

/// Whether one stands in this part.
#[cycle(race)]
#[tactic(auto, using(crate::proofs::Raced::bodies))]
fn part_races(part: &Part) -> bool
    ensures { result ≡ races (view_part part.now).1 }
{
    races(&part.body)
}
