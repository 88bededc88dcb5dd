//! The instructions of an expression.

mod rows;

ghost use Rattle.std.specs.Prelude.{◌≡◌, ◌∷◌, IfOk, OnOk, map};
ghost use Rattle.campl_tree.specs.View.{view_expr, exprs, view_decl};
ghost use Rattle.campl_types.specs.Matching.{number_of};
ghost use Rattle.campl_code.specs.Generated.{last, conses_code, function_number, or_zero};
ghost use Rattle.campl_code.specs.Instructions as i;
ghost use Rattle.campl_code.specs.Stands.{count};
ghost use Rattle.campl_instructions.specs.View.{view_operation};
ghost use Rattle.campl_gen_exprs.specs.Emission.{appended, emitted, emitted_all, emitted_two, emitted_one, emitted_list, emitted_over, emitted_if, emitted_and, emitted_or};
ghost use Rattle.campl_gen_exprs.specs.View.{view_emitter, made_of};

use crate::emitter::Emitter;
use crate::source::{Source, small};
use campl_instructions::{Instr, Operation};
use campl_tree::{Expr, Name};
use rows::emit_case;
use sqlite_items::Items;
use std::alloc::{AllocError, Global};

/// What is made of two operands.
#[derive(Clone, Copy)]
pub(crate) enum Join {
    Cons,
    Pair,
    Op(Operation),
}

/// Appends the code of an expression. With `tail` it ends by a return, and else it goes on behind itself.
///
/// # Errors
///
/// `AllocError` where memory wants, or where a number is 2^32 or more: the code is no more of use.
#[cycle(emit)]
#[tactic(auto, using(crate::proofs::Nodes::nodes))]
pub fn emit(
    alloc: Global,
    source: &Source<'_>,
    code: &mut Emitter,
    e: &Expr,
    tail: bool,
) -> Result<(), AllocError>
    ensures { OnOk result (view_emitter code.new ≡ emitted (map view_decl source.now) tail (view_expr e.now) (view_emitter code.old)) }
{
    match e {
        Expr::If(_, a, b, c) => emit_if(alloc, source, code, a.get(), b.get(), c.get(), tail),
        Expr::Case(_, a, rows) => emit_case(alloc, source, code, a.get(), rows.as_slice(), tail),
        Expr::Or(_, a, b) => emit_or(alloc, source, code, a.get(), b.get(), tail),
        Expr::And(_, a, b) => emit_and(alloc, source, code, a.get(), b.get(), tail),
        Expr::Compare(_, a, op, b) => {
            let join = Join::Op(Operation::Compare(*op));
            emit_two(alloc, source, code, a.get(), b.get(), join, tail)
        }
        Expr::Cons(_, a, b) => { emit_two(alloc, source, code, a.get(), b.get(), Join::Cons, tail) }
        Expr::Append(_, a, b) => {
            let join = Join::Op(Operation::Append);
            emit_two(alloc, source, code, a.get(), b.get(), join, tail)
        }
        Expr::Calculate(_, a, op, b) => {
            let join = Join::Op(Operation::Calculate(*op));
            emit_two(alloc, source, code, a.get(), b.get(), join, tail)
        }
        Expr::Negate(_, a) => emit_one(alloc, source, code, a.get(), Operation::Negate, tail),
        Expr::CodeOf(_, a) => emit_one(alloc, source, code, a.get(), Operation::CodeOf, tail),
        Expr::CharOf(_, a) => emit_one(alloc, source, code, a.get(), Operation::CharOf, tail),
        Expr::Number(_, n) => finish_number(code, n, tail),
        Expr::Character(_, c) => code.finish(Instr::Char(*c), tail),
        Expr::Text(_, text) => finish_text(alloc, code, text.as_slice(), tail),
        Expr::True(_) => code.finish(Instr::Truth(true), tail),
        Expr::False(_) => code.finish(Instr::Truth(false), tail),
        Expr::Variable(_, x) => code.finish(Instr::Load(code.number(x)), tail),
        Expr::Call(_, x, args) => emit_call(alloc, source, code, x, args.as_slice(), tail),
        Expr::Constructor(_, x, args) => emit_built(alloc, source, code, x, args.as_slice(), tail),
        Expr::List(_, args) => emit_list(alloc, source, code, args.as_slice(), tail),
        Expr::Pair(_, a, b) => { emit_two(alloc, source, code, a.get(), b.get(), Join::Pair, tail) }
    }
}

// `if a then b else c`
#[cycle(emit)]
fn emit_if(
    alloc: Global,
    source: &Source<'_>,
    code: &mut Emitter,
    a: &Expr,
    b: &Expr,
    c: &Expr,
    tail: bool,
) -> Result<(), AllocError>
    ensures { OnOk result (view_emitter code.new ≡ emitted_if (map view_decl source.now) (view_expr a.now) (view_expr b.now) (view_expr c.now) tail (view_emitter code.old)) }
{
    emit(alloc, source, code, a, false)?;
    let test = code.len();
    code.push(Instr::Unless(0))?;
    emit(alloc, source, code, b, tail)?;
    let jump = code.len();
    code.push_jump(tail)?;
    let second = code.here()?;
    emit(alloc, source, code, c, tail)?;
    let end = code.here()?;
    code.set(test, Instr::Unless(second));
    code.set_jump(tail, jump, end);
    Ok(())
}

// `a && b`
#[cycle(emit)]
fn emit_and(
    alloc: Global,
    source: &Source<'_>,
    code: &mut Emitter,
    a: &Expr,
    b: &Expr,
    tail: bool,
) -> Result<(), AllocError>
    ensures { OnOk result (view_emitter code.new ≡ emitted_and (map view_decl source.now) (view_expr a.now) (view_expr b.now) tail (view_emitter code.old)) }
{
    emit(alloc, source, code, a, false)?;
    let test = code.len();
    code.push(Instr::Unless(0))?;
    emit(alloc, source, code, b, false)?;
    let no = code.place(3)?;
    code.push_tested(tail)?;
    code.set(test, Instr::Unless(no));
    Ok(())
}

// `a || b`
#[cycle(emit)]
fn emit_or(
    alloc: Global,
    source: &Source<'_>,
    code: &mut Emitter,
    a: &Expr,
    b: &Expr,
    tail: bool,
) -> Result<(), AllocError>
    ensures { OnOk result (view_emitter code.new ≡ emitted_or (map view_decl source.now) (view_expr a.now) (view_expr b.now) tail (view_emitter code.old)) }
{
    emit(alloc, source, code, a, false)?;
    code.push_shortcut()?;
    let jump = code.len();
    code.push_leave(tail, 0)?;
    emit(alloc, source, code, b, false)?;
    let end = code.place(4)?;
    code.push_tested(tail)?;
    code.set_jump(tail, jump, end);
    Ok(())
}

// Two operands, and what is made of them.
#[cycle(emit)]
fn emit_two(
    alloc: Global,
    source: &Source<'_>,
    code: &mut Emitter,
    a: &Expr,
    b: &Expr,
    join: Join,
    tail: bool,
) -> Result<(), AllocError>
    ensures { OnOk result (view_emitter code.new ≡ emitted_two (map view_decl source.now) (view_expr a.now) (view_expr b.now) (made_of join) tail (view_emitter code.old)) }
{
    emit(alloc, source, code, a, false)?;
    emit(alloc, source, code, b, false)?;
    finish_join(code, join, tail)
}

// An operand, and what is made of it.
#[cycle(emit)]
fn emit_one(
    alloc: Global,
    source: &Source<'_>,
    code: &mut Emitter,
    a: &Expr,
    op: Operation,
    tail: bool,
) -> Result<(), AllocError>
    ensures { OnOk result (view_emitter code.new ≡ emitted_one (map view_decl source.now) (view_expr a.now) (i.Op (view_operation op)) tail (view_emitter code.old)) }
{
    emit(alloc, source, code, a, false)?;
    code.finish(Instr::Op(op), tail)
}

// A function's call.
#[cycle(emit)]
fn emit_call(
    alloc: Global,
    source: &Source<'_>,
    code: &mut Emitter,
    x: &Name,
    args: &[Expr],
    tail: bool,
) -> Result<(), AllocError>
    ensures { OnOk result (view_emitter code.new ≡ emitted_over (map view_decl source.now) (exprs (map view_expr args.now)) (i.Call (or_zero (function_number (map view_decl source.now) x.now))) tail (view_emitter code.old)) }
{
    emit_all(alloc, source, code, args)?;
    code.finish(Instr::Call(source.function_number(x)), tail)
}

// A constructor with its parts.
#[cycle(emit)]
fn emit_built(
    alloc: Global,
    source: &Source<'_>,
    code: &mut Emitter,
    x: &Name,
    args: &[Expr],
    tail: bool,
) -> Result<(), AllocError>
    ensures { OnOk result (view_emitter code.new ≡ emitted_over (map view_decl source.now) (exprs (map view_expr args.now)) (i.Build (or_zero (number_of (map view_decl source.now) x.now)) (count (exprs (map view_expr args.now)))) tail (view_emitter code.old)) }
{
    let number = source.constructor_number(x)?;
    let parts = part_count(args)?;
    emit_all(alloc, source, code, args)?;
    code.finish(Instr::Build(number, parts), tail)
}

// The elements of a list, the empty list, and a cell for each.
#[cycle(emit)]
fn emit_list(
    alloc: Global,
    source: &Source<'_>,
    code: &mut Emitter,
    args: &[Expr],
    tail: bool,
) -> Result<(), AllocError>
    ensures { OnOk result (view_emitter code.new ≡ emitted_list (map view_decl source.now) (exprs (map view_expr args.now)) tail (view_emitter code.old)) }
{
    emit_all(alloc, source, code, args)?;
    code.push(Instr::Nil)?;
    push_list(code, args, tail)
}

/// Appends the code of expressions, one behind another.
///
/// # Errors
///
/// `AllocError` where memory wants, or where a number is 2^32 or more: the code is no more of use.
#[cycle(emit)]
pub fn emit_all(
    alloc: Global,
    source: &Source<'_>,
    code: &mut Emitter,
    args: &[Expr],
) -> Result<(), AllocError>
    ensures { OnOk result (view_emitter code.new ≡ emitted_all (map view_decl source.now) (exprs (map view_expr args.now)) (view_emitter code.old)) }
{
    for i in 0..args.len() {
        emit(alloc, source, code, &args[i], false)?;
    }
    Ok(())
}

fn finish_number(code: &mut Emitter, n: &i64, tail: bool) -> Result<(), AllocError>
    ensures { OnOk result (view_emitter code.new ≡ appended (i.Int n.now ∷ last tail) (view_emitter code.old)) }
{
    let n = *n;
    code.finish(Instr::Int(n), tail)
}

fn finish_text(
    alloc: Global,
    code: &mut Emitter,
    text: &[char],
    tail: bool,
) -> Result<(), AllocError>
    ensures { OnOk result (view_emitter code.new ≡ appended (i.Text text.now ∷ last tail) (view_emitter code.old)) }
{
    match Items::from_slice(alloc, text) {
        Ok(text) => code.finish(Instr::Text(text), tail),
        Err(error) => Err(error),
    }
}

fn finish_join(code: &mut Emitter, join: Join, tail: bool) -> Result<(), AllocError>
    ensures { OnOk result (view_emitter code.new ≡ appended (made_of join ∷ last tail) (view_emitter code.old)) }
{
    match join {
        Join::Cons => code.finish(Instr::Cons, tail),
        Join::Pair => code.finish(Instr::Pair, tail),
        Join::Op(op) => code.finish(Instr::Op(op), tail),
    }
}

#[tactic(auto, using(crate::proofs::Nodes::counts))]
fn part_count(args: &[Expr]) -> Result<u32, AllocError>
    ensures { IfOk result (λ n. n ≡ count (exprs (map view_expr args.now))) }
{
    small(args.len())
}

#[tactic(auto, using(crate::proofs::Nodes::counts))]
fn push_list(code: &mut Emitter, args: &[Expr], tail: bool) -> Result<(), AllocError>
    ensures { OnOk result (view_emitter code.new ≡ appended (conses_code (count (exprs (map view_expr args.now))) tail) (view_emitter code.old)) }
{
    code.push_cells(args.len(), tail)
}
