//! The rows of a process's `case`.
ghost use Rattle.std.specs.Prelude.{◌≡◌, [], None, map};
ghost use Rattle.campl_tree.specs.View.{view_seq, view_pattern, view_expr, view_case_row, case_rows, view_decl};
ghost use Rattle.campl_vars.specs.Variables.{view_vars};
ghost use Rattle.campl_seqcheck.specs.Judged.{fine};
ghost use Rattle.campl_seqcheck.specs.Judging.{judge};
ghost use Rattle.campl_seqcheck.specs.Fitting.{fit};
ghost use Rattle.campl_linear.specs.Judged.{from_seq};
ghost use Rattle.campl_held.specs.Answered.{Answers};
ghost use Rattle.campl_rows.specs.Steps.{case_stands, rows_match};

use campl_held::{LinFault, of_seq};
use campl_names::World;
use campl_seqcheck::{check_match, find_expr, fit_pattern};
use campl_tree::{CaseRow, Expr, Pattern, Place, SeqType};
use campl_vars::Vars;
use std::alloc::Global;
use std::slice;

/// The type of what `case` looks at, where the patterns of the rows fit it and cover all its values. The variables in
/// scope stay as they are.
///
/// # Errors
///
/// The first fault of the value, and then of the patterns in order (E30, E31, E33, E34), and then `NotExhaustive` (E32) at
/// the command. `OutOfMemory` where memory wants.
pub fn case_stands(
    alloc: Global,
    world: &World,
    vars: &mut Vars,
    at: Place,
    e: &Expr,
    rows: &[CaseRow],
) -> Result<SeqType, LinFault>
    ensures judged { Answers view_seq (case_stands (map view_decl world.now) (view_vars vars.old) at (view_expr e.now) (case_rows (map view_case_row rows.now))) result }
    ensures kept { vars.new ≡ vars.old }
{
    let t = match value_type(alloc, world, vars, e) {
        Ok(t) => t,
        Err(fault) => return Err(fault),
    };
    match rows_match(alloc, world, at, &t, rows) {
        Ok(()) => Ok(t),
        Err(fault) => Err(fault),
    }
}

/// The variables that the pattern of a row binds, which fits the type.
///
/// # Errors
///
/// The first fault of the pattern (E30, E31, E33, E34); `OutOfMemory` where memory wants.
#[tactic(auto, using(crate::proofs::Matched::sequential))]
pub fn row_variables(
    alloc: Global,
    world: &World,
    p: &Pattern,
    t: &SeqType,
) -> Result<Vars, LinFault>
    ensures { Answers (λ xs. view_vars xs) (from_seq (fit (map view_decl world.now) [] (view_pattern p.now) (view_seq t.now))) result }
{
    match fit_pattern(alloc, world, p, t) {
        Ok(xs) => Ok(xs),
        Err(fault) => Err(of_seq(fault)),
    }
}

/// The type of a value.
#[tactic(auto, using(crate::proofs::Matched::sequential))]
fn value_type(alloc: Global, world: &World, vars: &mut Vars, e: &Expr) -> Result<SeqType, LinFault>
    ensures judged { Answers view_seq (from_seq (judge (map view_decl world.now) (view_vars vars.old) (view_expr e.now) None)) result }
    ensures kept { vars.new ≡ vars.old }
{
    match find_expr(alloc, world, vars, e) {
        Ok(t) => Ok(t),
        Err(fault) => Err(of_seq(fault)),
    }
}

/// Whether the patterns of rows fit a type and cover its values.
fn rows_match(
    alloc: Global,
    world: &World,
    at: Place,
    t: &SeqType,
    rows: &[CaseRow],
) -> Result<(), LinFault>
    ensures { Answers (λ _. fine) (rows_match (map view_decl world.now) at (view_seq t.now) (case_rows (map view_case_row rows.now))) result }
{
    match check_match(alloc, world, at, slice::from_ref(t), rows) {
        Ok(()) => Ok(()),
        Err(fault) => Err(of_seq(fault)),
    }
}
