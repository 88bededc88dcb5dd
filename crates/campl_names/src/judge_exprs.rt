//! Whether the names in patterns and expressions are known and of their kind.
ghost use Rattle.std.specs.Prelude.{◌≡◌, [], ◌∷◌, ◌++◌, OnOk, map, if◌then◌else◌};
ghost use Rattle.campl_tree.specs.View.{view_pattern, patterns, view_expr, exprs, view_expr_row, expr_rows, view_decl};
ghost use Rattle.campl_names.specs.Judges.{Judges};
ghost use Rattle.campl_types.specs.Known.{of_data, a_function, in_pattern, in_patterns, in_expr, in_exprs, in_expr_rows};
ghost use Rattle.campl_types.specs.Names.{is_among};
ghost use Rattle.campl_types.specs.Patterns.{bound_in, bound_in_all};
ghost use Rattle.campl_names.specs.Scope.{with_names};
ghost use Rattle.campl_types.specs.World.{constructor_named, lower_named};
ghost use Rattle.campl_types.specs.declared.fault.NameFault.TheVariants.{Unknown};

use crate::name_set::NameSet;
use crate::refusing::{unknown, wrong_kind};
use crate::world::{ConstructorRef, LowerRef, World};
use campl_tree::{Expr, ExprRow, Name, Pattern, Place};
use campl_types::NameFault;
use std::alloc::{AllocError, Global};

/// Judges a pattern.
#[cycle(pattern)]
#[tactic(auto, using(crate::proofs::Judging::patterns))]
pub(crate) fn judge_pattern(alloc: Global, world: &World, p: &Pattern) -> Result<(), NameFault>
    ensures { Judges (in_pattern (map view_decl world.now) (view_pattern p.now)) result }
{
    match p {
        Pattern::Wildcard(_) => Ok(()),
        Pattern::Variable(_, _) => Ok(()),
        Pattern::Number(_, _) => Ok(()),
        Pattern::Negative(_, _) => Ok(()),
        Pattern::Character(_, _) => Ok(()),
        Pattern::Text(_, _) => Ok(()),
        Pattern::True(_) => Ok(()),
        Pattern::False(_) => Ok(()),
        Pattern::Constructor(at, x, ps) => {
            judge_data_constructor(alloc, world, *at, x)?;
            judge_patterns(alloc, world, ps.as_slice())
        }
        Pattern::List(_, ps) => judge_patterns(alloc, world, ps.as_slice()),
        Pattern::Pair(_, p, q) => {
            judge_pattern(alloc, world, p.get())?;
            judge_pattern(alloc, world, q.get())
        }
        Pattern::Cons(_, p, q) => {
            judge_pattern(alloc, world, p.get())?;
            judge_pattern(alloc, world, q.get())
        }
    }
}

/// Judges patterns in order.
#[cycle(pattern)]
#[tactic(auto, using(crate::proofs::Judged::judged_all))]
pub(crate) fn judge_patterns(alloc: Global, world: &World, ps: &[Pattern]) -> Result<(), NameFault>
    ensures { Judges (in_patterns (map view_decl world.now) (patterns (map view_pattern ps.now))) result }
{
    for p in ps {
        judge_pattern(alloc, world, p)?;
    }
    Ok(())
}

/// Puts the variables of a pattern into scope.
#[cycle(bind)]
#[tactic(auto, using(crate::proofs::Judging::binds))]
pub(crate) fn bind_pattern(
    alloc: Global,
    scope: &mut NameSet,
    p: &Pattern,
) -> Result<(), AllocError>
    ensures { OnOk result (scope.new ≡ with_names scope.old (bound_in (view_pattern p.now))) }
{
    match p {
        Pattern::Wildcard(_) => Ok(()),
        Pattern::Variable(_, x) => scope.add(alloc, x),
        Pattern::Number(_, _) => Ok(()),
        Pattern::Negative(_, _) => Ok(()),
        Pattern::Character(_, _) => Ok(()),
        Pattern::Text(_, _) => Ok(()),
        Pattern::True(_) => Ok(()),
        Pattern::False(_) => Ok(()),
        Pattern::Constructor(_, _, ps) => bind_patterns(alloc, scope, ps.as_slice()),
        Pattern::List(_, ps) => bind_patterns(alloc, scope, ps.as_slice()),
        Pattern::Pair(_, p, q) => {
            bind_pattern(alloc, scope, p.get())?;
            bind_pattern(alloc, scope, q.get())
        }
        Pattern::Cons(_, p, q) => {
            bind_pattern(alloc, scope, p.get())?;
            bind_pattern(alloc, scope, q.get())
        }
    }
}

/// Puts the variables of patterns into scope.
#[cycle(bind)]
#[tactic(auto, using(crate::proofs::Judging::binds))]
pub(crate) fn bind_patterns(
    alloc: Global,
    scope: &mut NameSet,
    ps: &[Pattern],
) -> Result<(), AllocError>
    ensures { OnOk result (scope.new ≡ with_names scope.old (bound_in_all (patterns (map view_pattern ps.now)))) }
{
    for p in ps {
        bind_pattern(alloc, scope, p)?;
    }
    Ok(())
}

/// Judges a constructor's name where a data type's stands.
#[tactic(auto, using(crate::proofs::Judged::judged))]
fn judge_data_constructor(
    alloc: Global,
    world: &World,
    at: Place,
    name: &Name,
) -> Result<(), NameFault>
    ensures { Judges (of_data (constructor_named (map view_decl world.now) name.now) at name.now) result }
{
    match world.constructor_named(name) {
        Some(ConstructorRef::Data(_, _, _)) => Ok(()),
        Some(ConstructorRef::Protocol(_, _, _)) => wrong_kind(alloc, at, name),
        Some(ConstructorRef::Coprotocol(_, _, _)) => wrong_kind(alloc, at, name),
        None => unknown(alloc, at, name),
    }
}

/// Judges the name of a function's call.
#[tactic(auto, using(crate::proofs::Judged::judged))]
fn judge_function_name(
    alloc: Global,
    world: &World,
    at: Place,
    name: &Name,
) -> Result<(), NameFault>
    ensures { Judges (a_function (lower_named (map view_decl world.now) name.now) at name.now) result }
{
    match world.lower_named(name) {
        Some(LowerRef::Function(_)) => Ok(()),
        Some(LowerRef::Process(_)) => wrong_kind(alloc, at, name),
        None => unknown(alloc, at, name),
    }
}

/// Judges the name of a variable.
#[tactic(auto, using(crate::proofs::Judged::judged))]
fn judge_variable(alloc: Global, scope: &NameSet, at: Place, name: &Name) -> Result<(), NameFault>
    ensures { Judges (if is_among name.now scope.now then [] else Unknown at name.now ∷ []) result }
{
    if scope.has(name) {
        return Ok(());
    }
    unknown(alloc, at, name)
}

/// Judges an expression under the variables in scope, which stay as they are.
#[cycle(expr)]
#[tactic(auto, using(crate::proofs::Judging::exprs))]
pub(crate) fn judge_expr(
    alloc: Global,
    world: &World,
    scope: &mut NameSet,
    e: &Expr,
) -> Result<(), NameFault>
    ensures judged { Judges (in_expr (map view_decl world.now) scope.old (view_expr e.now)) result }
    ensures kept { OnOk result (scope.new ≡ scope.old) }
{
    match e {
        Expr::If(_, c, a, b) => {
            judge_expr(alloc, world, scope, c.get())?;
            judge_expr(alloc, world, scope, a.get())?;
            judge_expr(alloc, world, scope, b.get())
        }
        Expr::Case(_, a, rows) => {
            judge_expr(alloc, world, scope, a.get())?;
            judge_expr_rows(alloc, world, scope, rows.as_slice())
        }
        Expr::Or(_, a, b) | Expr::And(_, a, b) => {
            judge_expr(alloc, world, scope, a.get())?;
            judge_expr(alloc, world, scope, b.get())
        }
        Expr::Compare(_, a, _, b) | Expr::Calculate(_, a, _, b) => {
            judge_expr(alloc, world, scope, a.get())?;
            judge_expr(alloc, world, scope, b.get())
        }
        Expr::Cons(_, a, b) | Expr::Append(_, a, b) | Expr::Pair(_, a, b) => {
            judge_expr(alloc, world, scope, a.get())?;
            judge_expr(alloc, world, scope, b.get())
        }
        Expr::Negate(_, a) | Expr::CodeOf(_, a) | Expr::CharOf(_, a) => {
            judge_expr(alloc, world, scope, a.get())
        }
        Expr::Number(_, _)
        | Expr::Character(_, _)
        | Expr::Text(_, _)
        | Expr::True(_)
        | Expr::False(_) => Ok(()),
        Expr::Variable(at, x) => judge_variable(alloc, scope, *at, x),
        Expr::Call(at, x, args) => {
            judge_function_name(alloc, world, *at, x)?;
            judge_exprs(alloc, world, scope, args.as_slice())
        }
        Expr::Constructor(at, x, args) => {
            judge_data_constructor(alloc, world, *at, x)?;
            judge_exprs(alloc, world, scope, args.as_slice())
        }
        Expr::List(_, args) => judge_exprs(alloc, world, scope, args.as_slice()),
    }
}

/// Judges expressions in order.
#[cycle(expr)]
#[tactic(auto, using(crate::proofs::Judged::judged_all))]
pub(crate) fn judge_exprs(
    alloc: Global,
    world: &World,
    scope: &mut NameSet,
    all: &[Expr],
) -> Result<(), NameFault>
    ensures judged { Judges (in_exprs (map view_decl world.now) scope.old (exprs (map view_expr all.now))) result }
    ensures kept { OnOk result (scope.new ≡ scope.old) }
{
    for e in all {
        judge_expr(alloc, world, scope, e)?;
    }
    Ok(())
}

/// Judges the rows of a `case`, each under the variables of its pattern too.
#[cycle(expr)]
#[tactic(auto, using(crate::proofs::Judged::judged_all))]
fn judge_expr_rows(
    alloc: Global,
    world: &World,
    scope: &mut NameSet,
    rows: &[ExprRow],
) -> Result<(), NameFault>
    ensures judged { Judges (in_expr_rows (map view_decl world.now) scope.old (expr_rows (map view_expr_row rows.now))) result }
    ensures kept { OnOk result (scope.new ≡ scope.old) }
{
    for row in rows {
        judge_expr_row(alloc, world, scope, row)?;
    }
    Ok(())
}

/// Judges one row of a `case`.
#[cycle(expr)]
#[tactic(auto, using(crate::proofs::Judging::expr_rows))]
fn judge_expr_row(
    alloc: Global,
    world: &World,
    scope: &mut NameSet,
    row: &ExprRow,
) -> Result<(), NameFault>
    ensures judged { Judges (in_pattern (map view_decl world.now) (view_expr_row row.now).0 ++ in_expr (map view_decl world.now) (bound_in (view_expr_row row.now).0 ++ scope.old) (view_expr_row row.now).1) result }
    ensures kept { OnOk result (scope.new ≡ scope.old) }
{
    judge_pattern(alloc, world, &row.pattern)?;
    let mark = scope.len();
    bind_pattern(alloc, scope, &row.pattern)?;
    judge_expr(alloc, world, scope, &row.value)?;
    scope.truncate(mark);
    Ok(())
}
