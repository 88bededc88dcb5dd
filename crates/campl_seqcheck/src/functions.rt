//! Functions judged, and expressions for those who judge what stands round them.
ghost use Rattle.std.specs.Prelude.{◌≡◌, [], None, map};
ghost use Rattle.campl_tree.specs.View.{view_seq, view_pattern, view_expr, view_function, view_function_row, view_decl, view_program};
ghost use Rattle.campl_vars.specs.Variables.{view_vars};
ghost use Rattle.campl_seqcheck.specs.Answered.{IsVerdict};
ghost use Rattle.campl_seqcheck.specs.Fitting.{fit};
ghost use Rattle.campl_seqcheck.specs.Functions as definition;
ghost use Rattle.campl_seqcheck.specs.Judged.{fine};
ghost use Rattle.campl_seqcheck.specs.Judging.{judge, checked};
ghost use Rattle.campl_seqcheck.specs.RowPatterns.{judge_row, judge_each_row};

use crate::fault::SeqFault;
use crate::judging::judge;
use crate::rows::{fit_row, pattern_variables, rows_are_exhaustive};
use campl_names::World;
use campl_tree::{Decl, Expr, FunctionDecl, FunctionRow, Pattern, Program, SeqType};
use campl_vars::Vars;
use std::alloc::Global;

/// The first fault of the functions of a program, in source order, if they have one. The names of the program
/// are judged before, and the world is the program's.
///
/// # Errors
///
/// The fault, or `OutOfMemory` where memory wants.
pub fn check_seq(alloc: Global, world: &World, program: &Program) -> Result<(), SeqFault>
    ensures { IsVerdict (λ _. fine) (definition.judge_functions (map view_decl world.now) (view_program program.now)) result }
{
    check_functions(alloc, world, program.declarations.as_slice())
}

/// The same for the functions among declarations.
pub fn check_functions(alloc: Global, world: &World, declarations: &[Decl]) -> Result<(), SeqFault>
    ensures { IsVerdict (λ _. fine) (definition.judge_functions (map view_decl world.now) (map view_decl declarations.now)) result }
{
    for i in 0..declarations.len() {
        check_declaration(alloc, world, &declarations[i])?;
    }
    Ok(())
}

/// Whether an expression may be checked against a type, under the variables in scope, which stay as they are.
///
/// # Errors
///
/// The first fault, or `OutOfMemory` where memory wants.
pub fn check_expr(
    alloc: Global,
    world: &World,
    vars: &mut Vars,
    expr: &Expr,
    wanted: &SeqType,
) -> Result<(), SeqFault>
    ensures judged { IsVerdict (λ _. fine) (checked (map view_decl world.now) (view_vars vars.old) (view_expr expr.now) (view_seq wanted.now)) result }
    ensures kept { vars.new ≡ vars.old }
{
    judge(alloc, world, vars, expr, Some(wanted))?;
    Ok(())
}

/// The type that an expression is found to have, under the variables in scope, which stay as they are.
///
/// # Errors
///
/// The first fault, or `OutOfMemory` where memory wants.
#[tactic(auto, unfolding(crate::specs::Steps::judged))]
pub fn find_expr(
    alloc: Global,
    world: &World,
    vars: &mut Vars,
    expr: &Expr,
) -> Result<SeqType, SeqFault>
    ensures judged { IsVerdict view_seq (judge (map view_decl world.now) (view_vars vars.old) (view_expr expr.now) None) result }
    ensures kept { vars.new ≡ vars.old }
{
    judge(alloc, world, vars, expr, None)
}

/// The variables that a pattern binds, which fits a type.
///
/// # Errors
///
/// The first fault, or `OutOfMemory` where memory wants.
#[tactic(auto, unfolding(crate::specs::Steps::fitted))]
pub fn fit_pattern(alloc: Global, world: &World, p: &Pattern, t: &SeqType) -> Result<Vars, SeqFault>
    ensures { IsVerdict (λ xs. view_vars xs) (fit (map view_decl world.now) [] (view_pattern p.now) (view_seq t.now)) result }
{
    pattern_variables(alloc, world, p, t)
}

/// Judges a declaration, of which only functions are looked at.
fn check_declaration(alloc: Global, world: &World, declaration: &Decl) -> Result<(), SeqFault>
    ensures { IsVerdict (λ _. fine) (definition.judge_decl (map view_decl world.now) (view_decl declaration.now)) result }
{
    match declaration {
        Decl::Function(f) => check_function(alloc, world, f),
        Decl::Data(_) => Ok(()),
        Decl::Protocol(_) => Ok(()),
        Decl::Coprotocol(_) => Ok(()),
        Decl::Process(_) => Ok(()),
    }
}

/// Judges a function: its rows in order, and last whether they are exhaustive.
fn check_function(alloc: Global, world: &World, f: &FunctionDecl) -> Result<(), SeqFault>
    ensures { IsVerdict (λ _. fine) (definition.judge_function (map view_decl world.now) (view_function f.now)) result }
{
    let types = f.parameters.as_slice();
    let rows = f.rows.as_slice();
    match check_function_rows(alloc, world, f, rows) {
        Ok(()) => rows_are_exhaustive(alloc, world, f.place, types, rows),
        Err(fault) => Err(fault),
    }
}

/// Judges rows of a function.
fn check_function_rows(
    alloc: Global,
    world: &World,
    f: &FunctionDecl,
    rows: &[FunctionRow],
) -> Result<(), SeqFault>
    ensures { IsVerdict (λ _. fine) (judge_each_row (map view_decl world.now) (view_function f.now).parameters (definition.function_matches (map view_decl world.now) (view_function f.now) (map view_function_row rows.now))) result }
{
    for i in 0..rows.len() {
        check_function_row(alloc, world, f, &rows[i])?;
    }
    Ok(())
}

/// Judges a row of a function: its patterns, and then its value.
#[tactic(auto, using(crate::proofs::RowsJudged::function_row))]
fn check_function_row(
    alloc: Global,
    world: &World,
    f: &FunctionDecl,
    row: &FunctionRow,
) -> Result<(), SeqFault>
    ensures { IsVerdict (λ _. fine) (judge_row (map view_decl world.now) (view_function f.now).parameters (definition.function_match (map view_decl world.now) (view_function f.now) (view_function_row row.now))) result }
{
    let types = f.parameters.as_slice();
    let mut vars = fit_row(alloc, world, row.place, types, row.patterns.as_slice())?;
    judge(alloc, world, &mut vars, &row.value, Some(&f.result))?;
    Ok(())
}
