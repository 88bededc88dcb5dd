//! The instructions of `case` and its rows.
ghost use Rattle.std.specs.Prelude.{◌≡◌, ◌∷◌, ◌++◌, [], OnOk, length, map};
ghost use Rattle.campl_tree.specs.View.{view_expr, view_expr_row, expr_rows, view_decl};
ghost use Rattle.campl_code.specs.Generated.{past};
ghost use Rattle.campl_gen_exprs.specs.Emission.{appended, emitted_case, emitted_rows, row_emitted, rows_emitted, row_places, row_ends};
ghost use Rattle.campl_gen_exprs.specs.View.{view_emitter};

use crate::binding::bind_pattern;
use crate::emission::emit;
use crate::emitter::{Emitter, Rows};
use crate::source::Source;
use campl_instructions::Instr;
use campl_tree::{Expr, ExprRow};
use sqlite_items::Items;
use std::alloc::{AllocError, Global};

// `case a of` and its rows
#[cycle(emit)]
pub(super) fn emit_case(
    alloc: Global,
    source: &Source<'_>,
    code: &mut Emitter,
    a: &Expr,
    rows: &[ExprRow],
    tail: bool,
) -> Result<(), AllocError>
    ensures { OnOk result (view_emitter code.new ≡ emitted_case (map view_decl source.now) (view_expr a.now) (expr_rows (map view_expr_row rows.now)) tail (view_emitter code.old)) }
{
    emit(alloc, source, code, a, false)?;
    let at = code.len();
    let decision = code.decisions;
    code.push(Instr::Nil)?;
    code.count_decision()?;
    emit_match(alloc, source, code, rows, tail, at, decision)
}

// The rows of a decision, the match before them at its place, and the jumps behind each.
#[cycle(emit)]
fn emit_match(
    alloc: Global,
    source: &Source<'_>,
    code: &mut Emitter,
    rows: &[ExprRow],
    tail: bool,
    at: usize,
    decision: u32,
) -> Result<(), AllocError>
    ensures { OnOk result (view_emitter code.new ≡ emitted_rows (map view_decl source.now) (expr_rows (map view_expr_row rows.now)) tail at decision (view_emitter code.old)) }
{
    let mut made = Rows {
        places: Items::new(alloc),
        ends: Items::new(alloc),
    };
    match emit_rows(alloc, source, code, rows, tail, &mut made) {
        Ok(()) => code.close_case(tail, at, decision, made),
        Err(error) => Err(error),
    }
}

// The values of rows, each behind the others, with where they begin and end.
#[cycle(emit)]
fn emit_rows(
    alloc: Global,
    source: &Source<'_>,
    code: &mut Emitter,
    rows: &[ExprRow],
    tail: bool,
    made: &mut Rows,
) -> Result<(), AllocError>
    ensures code { OnOk result (view_emitter code.new ≡ rows_emitted (map view_decl source.now) tail (expr_rows (map view_expr_row rows.now)) (view_emitter code.old)) }
    ensures places { OnOk result (made.new.places ≡ made.old.places ++ row_places (map view_decl source.now) tail (expr_rows (map view_expr_row rows.now)) (view_emitter code.old)) }
    ensures ends { OnOk result (made.new.ends ≡ made.old.ends ++ row_ends (map view_decl source.now) tail (expr_rows (map view_expr_row rows.now)) (view_emitter code.old)) }
{
    for i in 0..rows.len() {
        emit_next_row(alloc, source, code, &rows[i], tail, made)?;
    }
    Ok(())
}

// The value of a row, and the jump behind it.
#[cycle(emit)]
fn emit_next_row(
    alloc: Global,
    source: &Source<'_>,
    code: &mut Emitter,
    row: &ExprRow,
    tail: bool,
    made: &mut Rows,
) -> Result<(), AllocError>
    ensures code { OnOk result (view_emitter code.new ≡ appended (past tail 0) (row_emitted (map view_decl source.now) tail (view_expr_row row.now).0 (view_expr_row row.now).1 (view_emitter code.old))) }
    ensures places { OnOk result (made.new.places ≡ made.old.places ++ length (view_emitter code.old).code ∷ []) }
    ensures ends { OnOk result (made.new.ends ≡ made.old.ends ++ length (row_emitted (map view_decl source.now) tail (view_expr_row row.now).0 (view_expr_row row.now).1 (view_emitter code.old)).code ∷ []) }
{
    let place = code.here()?;
    made.places.push(place)?;
    emit_row(alloc, source, code, row, tail)?;
    made.ends.push(code.len())?;
    code.push_jump(tail)
}

// The value of a row, under the variables of its pattern too.
#[cycle(emit)]
#[tactic(auto, using(crate::proofs::Nodes::rows))]
fn emit_row(
    alloc: Global,
    source: &Source<'_>,
    code: &mut Emitter,
    row: &ExprRow,
    tail: bool,
) -> Result<(), AllocError>
    ensures { OnOk result (view_emitter code.new ≡ row_emitted (map view_decl source.now) tail (view_expr_row row.now).0 (view_expr_row row.now).1 (view_emitter code.old)) }
{
    let variables = code.scope.len();
    let free = code.free;
    bind_pattern(alloc, code, &row.pattern)?;
    emit(alloc, source, code, &row.value, tail)?;
    code.leave(variables, free);
    Ok(())
}
