//! The rows of `hcase`, `race` and `case` judged.
ghost use Rattle.std.specs.Prelude.{◌≡◌, ◌++◌, OnOk, map};
ghost use Rattle.campl_tree.specs.View.{view_seq, view_expr, view_hcase_row, hcase_rows, view_branch, branches, view_case_row, case_rows, view_body, view_decl};
ghost use Rattle.campl_vars.specs.Variables.{view_vars};
ghost use Rattle.campl_seqcheck.specs.Judged.{fine};
ghost use Rattle.campl_held.specs.Answered.{Answers};
ghost use Rattle.campl_held.specs.Slots.{view_held};
ghost use Rattle.campl_held.specs.Asked.{view_offer};
ghost use Rattle.campl_held.specs.Chosen.{ChoicesAreDeclared};
ghost use Rattle.campl_lincheck.specs.Steps.{judged, judged_hcase, judged_rows, judged_row, judged_race, judged_branches, judged_case, judged_cases, judged_case_row};

use crate::judging::judge;
use campl_held::{Held, LinFault, Offer};
use campl_names::World;
use campl_rows::{case_stands, offers_stand, race_stands, row_held, row_variables};
use campl_tree::{Body, Branch, CaseRow, Expr, HcaseRow, Ident, Name, Place, SeqType};
use campl_vars::Vars;
use std::alloc::Global;

/// Judges `hcase x of` and its rows.
#[cycle(judge)]
pub(super) fn judge_hcase(
    alloc: Global,
    world: &World,
    vars: &mut Vars,
    held: &Held,
    rows: &[HcaseRow],
    at: Place,
    x: &Ident,
) -> Result<(), LinFault>
    requires { ChoicesAreDeclared (map view_decl world.now) }
    ensures judged { Answers (λ _. fine) (judged_hcase at (map view_decl world.now) (view_vars vars.old) (view_held held.now) x.now (hcase_rows (map view_hcase_row rows.now))) result }
    ensures kept { OnOk result (vars.new ≡ vars.old) }
{
    let offer = match offers_stand(alloc, world, at, x, rows, held) {
        Ok(offer) => offer,
        Err(fault) => return Err(fault),
    };
    judge_rows(alloc, world, vars, held, rows, &x.name, offer)
}

/// Judges the bodies of the rows of `hcase`.
#[cycle(judge)]
fn judge_rows(
    alloc: Global,
    world: &World,
    vars: &mut Vars,
    held: &Held,
    rows: &[HcaseRow],
    x: &Name,
    offer: Offer<'_>,
) -> Result<(), LinFault>
    requires { ChoicesAreDeclared (map view_decl world.now) }
    ensures judged { Answers (λ _. fine) (judged_rows (map view_decl world.now) (view_vars vars.old) (view_held held.now) x.now (view_offer (map view_decl world.now) offer.entry) (hcase_rows (map view_hcase_row rows.now))) result }
    ensures kept { OnOk result (vars.new ≡ vars.old) }
{
    for i in 0..rows.len() {
        match judge_row(alloc, world, vars, held, &rows[i], x, offer) {
            Ok(()) => {}
            Err(fault) => return Err(fault),
        }
    }
    Ok(())
}

/// Judges the body of a row of `hcase`, where the channel goes on with what remains.
#[cycle(judge)]
fn judge_row(
    alloc: Global,
    world: &World,
    vars: &mut Vars,
    held: &Held,
    row: &HcaseRow,
    x: &Name,
    offer: Offer<'_>,
) -> Result<(), LinFault>
    requires { ChoicesAreDeclared (map view_decl world.now) }
    ensures judged { Answers (λ _. fine) (judged_row (map view_decl world.now) (view_vars vars.old) (view_held held.now) x.now (view_offer (map view_decl world.now) offer.entry) (view_hcase_row row.now)) result }
    ensures kept { OnOk result (vars.new ≡ vars.old) }
{
    let own = match row_held(alloc, world, x, offer, &row.constructor, held) {
        Ok(own) => own,
        Err(fault) => return Err(fault),
    };
    judge(alloc, world, vars, own, &row.body)
}

/// Judges `race` and its rows.
#[cycle(judge)]
pub(super) fn judge_race(
    alloc: Global,
    world: &World,
    vars: &mut Vars,
    held: &Held,
    rows: &[Branch],
    at: Place,
) -> Result<(), LinFault>
    requires { ChoicesAreDeclared (map view_decl world.now) }
    ensures judged { Answers (λ _. fine) (judged_race at (map view_decl world.now) (view_vars vars.old) (view_held held.now) (branches (map view_branch rows.now))) result }
    ensures kept { OnOk result (vars.new ≡ vars.old) }
{
    match race_stands(alloc, world, at, rows, held) {
        Ok(()) => {}
        Err(fault) => return Err(fault),
    }
    judge_branches(alloc, world, vars, held, rows)
}

/// Judges the bodies of branches.
#[cycle(judge)]
fn judge_branches(
    alloc: Global,
    world: &World,
    vars: &mut Vars,
    held: &Held,
    rows: &[Branch],
) -> Result<(), LinFault>
    requires { ChoicesAreDeclared (map view_decl world.now) }
    ensures judged { Answers (λ _. fine) (judged_branches (map view_decl world.now) (view_vars vars.old) (view_held held.now) (branches (map view_branch rows.now))) result }
    ensures kept { OnOk result (vars.new ≡ vars.old) }
{
    for i in 0..rows.len() {
        let row = &rows[i];
        match judge_copy(alloc, world, vars, held, &row.body) {
            Ok(()) => {}
            Err(fault) => return Err(fault),
        }
    }
    Ok(())
}

/// Judges `case e of` and its rows.
#[cycle(judge)]
pub(super) fn judge_case(
    alloc: Global,
    world: &World,
    vars: &mut Vars,
    held: &Held,
    rows: &[CaseRow],
    at: Place,
    e: &Expr,
) -> Result<(), LinFault>
    requires { ChoicesAreDeclared (map view_decl world.now) }
    ensures judged { Answers (λ _. fine) (judged_case at (map view_decl world.now) (view_vars vars.old) (view_held held.now) (view_expr e.now) (case_rows (map view_case_row rows.now))) result }
    ensures kept { OnOk result (vars.new ≡ vars.old) }
{
    let t = match case_stands(alloc, world, vars, at, e, rows) {
        Ok(t) => t,
        Err(fault) => return Err(fault),
    };
    judge_cases(alloc, world, vars, held, rows, &t)
}

/// Judges the bodies of the rows of `case`.
#[cycle(judge)]
fn judge_cases(
    alloc: Global,
    world: &World,
    vars: &mut Vars,
    held: &Held,
    rows: &[CaseRow],
    t: &SeqType,
) -> Result<(), LinFault>
    requires { ChoicesAreDeclared (map view_decl world.now) }
    ensures judged { Answers (λ _. fine) (judged_cases (map view_decl world.now) (view_vars vars.old) (view_held held.now) (view_seq t.now) (case_rows (map view_case_row rows.now))) result }
    ensures kept { OnOk result (vars.new ≡ vars.old) }
{
    for i in 0..rows.len() {
        match judge_case_row(alloc, world, vars, held, &rows[i], t) {
            Ok(()) => {}
            Err(fault) => return Err(fault),
        }
    }
    Ok(())
}

/// Judges the body of a row of `case`, under the variables of its pattern too.
#[cycle(judge)]
fn judge_case_row(
    alloc: Global,
    world: &World,
    vars: &mut Vars,
    held: &Held,
    row: &CaseRow,
    t: &SeqType,
) -> Result<(), LinFault>
    requires { ChoicesAreDeclared (map view_decl world.now) }
    ensures judged { Answers (λ _. fine) (judged_case_row (map view_decl world.now) (view_vars vars.old) (view_held held.now) (view_seq t.now) (view_case_row row.now)) result }
    ensures kept { OnOk result (vars.new ≡ vars.old) }
{
    let own = match row_variables(alloc, world, &row.pattern, t) {
        Ok(own) => own,
        Err(fault) => return Err(fault),
    };
    judge_under(alloc, world, vars, held, &row.body, &own)
}

/// Judges a body under these variables too, with all that is held.
#[cycle(judge)]
fn judge_under(
    alloc: Global,
    world: &World,
    vars: &mut Vars,
    held: &Held,
    body: &Body,
    own: &Vars,
) -> Result<(), LinFault>
    requires { ChoicesAreDeclared (map view_decl world.now) }
    ensures judged { Answers (λ _. fine) (judged (map view_decl world.now) (view_vars own.now ++ view_vars vars.old) (view_held held.now) (view_body body.now)) result }
    ensures kept { OnOk result (vars.new ≡ vars.old) }
{
    let mark = vars.len();
    match vars.append(alloc, own) {
        Ok(()) => {}
        Err(_) => return Err(LinFault::OutOfMemory),
    }
    match judge_copy(alloc, world, vars, held, body) {
        Ok(()) => {}
        Err(fault) => return Err(fault),
    }
    vars.truncate(mark);
    Ok(())
}

/// Judges a body with all that is held.
#[cycle(judge)]
fn judge_copy(
    alloc: Global,
    world: &World,
    vars: &mut Vars,
    held: &Held,
    body: &Body,
) -> Result<(), LinFault>
    requires { ChoicesAreDeclared (map view_decl world.now) }
    ensures judged { Answers (λ _. fine) (judged (map view_decl world.now) (view_vars vars.old) (view_held held.now) (view_body body.now)) result }
    ensures kept { OnOk result (vars.new ≡ vars.old) }
{
    match held.copy(alloc) {
        Ok(copy) => judge(alloc, world, vars, copy, body),
        Err(_) => Err(LinFault::OutOfMemory),
    }
}
