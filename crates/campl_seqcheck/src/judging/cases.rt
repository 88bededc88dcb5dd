//! The rows of `case` judged.
ghost use Rattle.std.specs.Prelude.{◌≡◌, ◌++◌, map};
ghost use Rattle.campl_tree.specs.View.{view_seq, view_expr, view_expr_row, expr_rows, view_decl};
ghost use Rattle.campl_vars.specs.Variables.{view_vars};
ghost use Rattle.campl_seqcheck.specs.Answered.{IsVerdict, view_wanted};
ghost use Rattle.campl_seqcheck.specs.Judged.{fine};
ghost use Rattle.campl_seqcheck.specs.Steps.{judged, judged_rows, judged_more, judged_case, judged_row, judged_first_row};

use crate::fault::SeqFault;
use crate::judging::judge;
use crate::rows::{check_case_rows, pattern_variables};
use campl_names::World;
use campl_tree::{Expr, ExprRow, Place, SeqType};
use campl_vars::Vars;
use std::alloc::Global;

/// Judges `case a of` and its rows.
#[cycle(judge)]
pub(super) fn judge_case(
    alloc: Global,
    world: &World,
    vars: &mut Vars,
    a: &Expr,
    rows: &[ExprRow],
    at: Place,
    wanted: Option<&SeqType>,
) -> Result<SeqType, SeqFault>
    ensures judged { IsVerdict view_seq (judged_case at (map view_decl world.now) (view_vars vars.old) (view_expr a.now) (expr_rows (map view_expr_row rows.now)) (view_wanted wanted.entry)) result }
    ensures kept { vars.new ≡ vars.old }
{
    let t = judge(alloc, world, vars, a, None)?;
    check_case_rows(alloc, world, at, &t, rows)?;
    judge_rows(alloc, world, vars, rows, at, &t, wanted)
}

/// Judges the values of rows: the first as is wanted, the others like it.
#[cycle(judge)]
fn judge_rows(
    alloc: Global,
    world: &World,
    vars: &mut Vars,
    rows: &[ExprRow],
    at: Place,
    t: &SeqType,
    wanted: Option<&SeqType>,
) -> Result<SeqType, SeqFault>
    ensures judged { IsVerdict view_seq (judged_rows at (map view_decl world.now) (view_vars vars.old) (expr_rows (map view_expr_row rows.now)) (view_seq t.now) (view_wanted wanted.entry)) result }
    ensures kept { vars.new ≡ vars.old }
{
    match rows.split_first() {
        None => Err(SeqFault::NeedsType { place: at }),
        Some((first, more)) => judge_first_row(alloc, world, vars, first, more, t, wanted),
    }
}

/// Judges rows, of which the first tells the type of the others.
#[cycle(judge)]
fn judge_first_row(
    alloc: Global,
    world: &World,
    vars: &mut Vars,
    first: &ExprRow,
    more: &[ExprRow],
    t: &SeqType,
    wanted: Option<&SeqType>,
) -> Result<SeqType, SeqFault>
    ensures judged { IsVerdict view_seq (judged_first_row (map view_decl world.now) (view_vars vars.old) (view_expr_row first.now) (expr_rows (map view_expr_row more.now)) (view_seq t.now) (view_wanted wanted.entry)) result }
    ensures kept { vars.new ≡ vars.old }
{
    let u = judge_row(alloc, world, vars, first, t, wanted)?;
    judge_more(alloc, world, vars, more, t, &u)?;
    Ok(u)
}

/// Judges the values of rows against one type.
#[cycle(judge)]
fn judge_more(
    alloc: Global,
    world: &World,
    vars: &mut Vars,
    rows: &[ExprRow],
    t: &SeqType,
    u: &SeqType,
) -> Result<(), SeqFault>
    ensures judged { IsVerdict (λ _. fine) (judged_more (map view_decl world.now) (view_vars vars.old) (expr_rows (map view_expr_row rows.now)) (view_seq t.now) (view_seq u.now)) result }
    ensures kept { vars.new ≡ vars.old }
{
    for i in 0..rows.len() {
        judge_row(alloc, world, vars, &rows[i], t, Some(u))?;
    }
    Ok(())
}

/// Judges the value of a row, under the variables of its pattern too.
#[cycle(judge)]
fn judge_row(
    alloc: Global,
    world: &World,
    vars: &mut Vars,
    row: &ExprRow,
    t: &SeqType,
    wanted: Option<&SeqType>,
) -> Result<SeqType, SeqFault>
    ensures judged { IsVerdict view_seq (judged_row (map view_decl world.now) (view_vars vars.old) (view_expr_row row.now) (view_seq t.now) (view_wanted wanted.entry)) result }
    ensures kept { vars.new ≡ vars.old }
{
    let own = pattern_variables(alloc, world, &row.pattern, t)?;
    judge_under(alloc, world, vars, &row.value, &own, wanted)
}

/// Judges an expression under these variables too.
#[cycle(judge)]
fn judge_under(
    alloc: Global,
    world: &World,
    vars: &mut Vars,
    e: &Expr,
    own: &Vars,
    wanted: Option<&SeqType>,
) -> Result<SeqType, SeqFault>
    ensures judged { IsVerdict view_seq (judged (map view_decl world.now) (view_vars own.now ++ view_vars vars.old) (view_expr e.now) (view_wanted wanted.entry)) result }
    ensures kept { vars.new ≡ vars.old }
{
    let mark = vars.len();
    vars.append(alloc, own)?;
    let verdict = judge(alloc, world, vars, e, wanted);
    vars.truncate(mark);
    verdict
}
