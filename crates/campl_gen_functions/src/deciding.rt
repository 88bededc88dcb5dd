//! The decisions of an expression.
ghost use Rattle.std.specs.Prelude.{◌≡◌, ◌++◌, OnOk, map};
ghost use Rattle.campl_tree.specs.View.{view_expr, view_expr_row, exprs, expr_rows, view_decl};
ghost use Rattle.campl_instructions.specs.View.{view_decision};
ghost use Rattle.campl_gen_functions.specs.Deciding.{decided, decided_all, decided_rows, decided_two, decided_three, decided_case};

use crate::functions::put_case;
use campl_instructions::Decision;
use campl_names::World;
use campl_tree::{Expr, ExprRow};
use sqlite_items::Items;
use std::alloc::{AllocError, Global};

/// Puts the decisions of an expression behind the others.
///
/// # Errors
///
/// `AllocError` where memory wants, or where a number is 2^32 or more: some of them are there.
#[cycle(decide)]
#[tactic(auto, using(crate::proofs::Decided::nodes))]
pub fn decide(
    alloc: Global,
    world: &World,
    out: &mut Items<Decision>,
    e: &Expr,
) -> Result<(), AllocError>
    ensures { OnOk result (map view_decision out.new ≡ map view_decision out.old ++ decided (map view_decl world.now) (view_expr e.now)) }
{
    match e {
        Expr::If(_, a, b, c) => decide_three(alloc, world, out, a.get(), b.get(), c.get()),
        Expr::Case(_, a, rows) => decide_case(alloc, world, out, a.get(), rows.as_slice()),
        Expr::Or(_, a, b) => decide_two(alloc, world, out, a.get(), b.get()),
        Expr::And(_, a, b) => decide_two(alloc, world, out, a.get(), b.get()),
        Expr::Compare(_, a, _, b) => decide_two(alloc, world, out, a.get(), b.get()),
        Expr::Cons(_, a, b) => decide_two(alloc, world, out, a.get(), b.get()),
        Expr::Append(_, a, b) => decide_two(alloc, world, out, a.get(), b.get()),
        Expr::Calculate(_, a, _, b) => decide_two(alloc, world, out, a.get(), b.get()),
        Expr::Negate(_, a) => decide(alloc, world, out, a.get()),
        Expr::CodeOf(_, a) => decide(alloc, world, out, a.get()),
        Expr::CharOf(_, a) => decide(alloc, world, out, a.get()),
        Expr::Number(_, _) => Ok(()),
        Expr::Character(_, _) => Ok(()),
        Expr::Text(_, _) => Ok(()),
        Expr::True(_) => Ok(()),
        Expr::False(_) => Ok(()),
        Expr::Variable(_, _) => Ok(()),
        Expr::Call(_, _, args) => decide_all(alloc, world, out, args.as_slice()),
        Expr::Constructor(_, _, args) => decide_all(alloc, world, out, args.as_slice()),
        Expr::List(_, args) => decide_all(alloc, world, out, args.as_slice()),
        Expr::Pair(_, a, b) => decide_two(alloc, world, out, a.get(), b.get()),
    }
}

// The decisions of three expressions.
#[cycle(decide)]
#[tactic(auto, using(crate::proofs::Decided::appends))]
fn decide_three(
    alloc: Global,
    world: &World,
    out: &mut Items<Decision>,
    a: &Expr,
    b: &Expr,
    c: &Expr,
) -> Result<(), AllocError>
    ensures { OnOk result (map view_decision out.new ≡ map view_decision out.old ++ decided_three (map view_decl world.now) (view_expr a.now) (view_expr b.now) (view_expr c.now)) }
{
    decide(alloc, world, out, a)?;
    decide(alloc, world, out, b)?;
    decide(alloc, world, out, c)
}

// The decisions of two expressions.
#[cycle(decide)]
#[tactic(auto, using(crate::proofs::Decided::appends))]
fn decide_two(
    alloc: Global,
    world: &World,
    out: &mut Items<Decision>,
    a: &Expr,
    b: &Expr,
) -> Result<(), AllocError>
    ensures { OnOk result (map view_decision out.new ≡ map view_decision out.old ++ decided_two (map view_decl world.now) (view_expr a.now) (view_expr b.now)) }
{
    decide(alloc, world, out, a)?;
    decide(alloc, world, out, b)
}

// The decisions of a `case`.
#[cycle(decide)]
#[tactic(auto, using(crate::proofs::Decided::appends))]
fn decide_case(
    alloc: Global,
    world: &World,
    out: &mut Items<Decision>,
    a: &Expr,
    rows: &[ExprRow],
) -> Result<(), AllocError>
    ensures { OnOk result (map view_decision out.new ≡ map view_decision out.old ++ decided_case (map view_decl world.now) (view_expr a.now) (expr_rows (map view_expr_row rows.now))) }
{
    decide(alloc, world, out, a)?;
    put_case(alloc, world, out, rows)?;
    decide_rows(alloc, world, out, rows)
}

/// Puts the decisions of expressions behind the others.
///
/// # Errors
///
/// `AllocError` where memory wants, or where a number is 2^32 or more: some of them are there.
#[cycle(decide)]
pub fn decide_all(
    alloc: Global,
    world: &World,
    out: &mut Items<Decision>,
    args: &[Expr],
) -> Result<(), AllocError>
    ensures { OnOk result (map view_decision out.new ≡ map view_decision out.old ++ decided_all (map view_decl world.now) (exprs (map view_expr args.now))) }
{
    for i in 0..args.len() {
        decide(alloc, world, out, &args[i])?;
    }
    Ok(())
}

// The decisions in the values of rows.
#[cycle(decide)]
fn decide_rows(
    alloc: Global,
    world: &World,
    out: &mut Items<Decision>,
    rows: &[ExprRow],
) -> Result<(), AllocError>
    ensures { OnOk result (map view_decision out.new ≡ map view_decision out.old ++ decided_rows (map view_decl world.now) (expr_rows (map view_expr_row rows.now))) }
{
    for i in 0..rows.len() {
        decide_row(alloc, world, out, &rows[i])?;
    }
    Ok(())
}

// The decisions in the value of a row.
#[cycle(decide)]
#[tactic(auto, using(crate::proofs::Decided::rows))]
fn decide_row(
    alloc: Global,
    world: &World,
    out: &mut Items<Decision>,
    row: &ExprRow,
) -> Result<(), AllocError>
    ensures { OnOk result (map view_decision out.new ≡ map view_decision out.old ++ decided (map view_decl world.now) (view_expr_row row.now).1) }
{
    decide(alloc, world, out, &row.value)
}
