//! Expressions judged.

mod calls;
mod cases;

ghost use Rattle.std.specs.Prelude.{◌≡◌, map};
ghost use Rattle.campl_tree.specs.Plain.Expr as e;
ghost use Rattle.campl_tree.specs.Plain.SeqType as s;
ghost use Rattle.campl_tree.specs.View.{view_seq, view_expr, exprs, view_decl};
ghost use Rattle.campl_types.specs.Names.{found};
ghost use Rattle.campl_vars.specs.Variables.{view_vars};
ghost use Rattle.campl_seqcheck.specs.Answered.{IsVerdict, view_wanted};
ghost use Rattle.campl_seqcheck.specs.Judged.{and_then, fine};
ghost use Rattle.campl_seqcheck.specs.Judging as definition;
ghost use Rattle.campl_seqcheck.specs.Steps.{judged, judged_each, judged_items, judged_cons, judged_append, judged_pair, judged_if, judged_compare, judged_two, judged_one};

use crate::fault::SeqFault;
use crate::fitting::text_type;
use crate::meeting::{
    a_comparable, a_list, empty_list, meets, wanted_item, wanted_list, wanted_parts,
};
use calls::{judge_constructor, judge_function_call};
use campl_names::World;
use campl_tree::{Expr, Name, Place, SeqType};
use campl_vars::Vars;
use cases::judge_case;
use sqlite_items::Boxed;
use std::alloc::Global;

/// Judges an expression under the variables in scope, which stay as they are.
#[cycle(judge)]
#[tactic(auto, using(crate::proofs::Judges::nodes))]
pub(crate) fn judge(
    alloc: Global,
    world: &World,
    vars: &mut Vars,
    e: &Expr,
    wanted: Option<&SeqType>,
) -> Result<SeqType, SeqFault>
    ensures judged { IsVerdict view_seq (judged (map view_decl world.now) (view_vars vars.old) (view_expr e.now) (view_wanted wanted.entry)) result }
    ensures kept { vars.new ≡ vars.old }
{
    match e {
        Expr::If(_, c, a, b) => judge_if(alloc, world, vars, c.get(), a.get(), b.get(), wanted),
        Expr::Case(at, a, rows) => {
            judge_case(alloc, world, vars, a.get(), rows.as_slice(), *at, wanted)
        }
        Expr::Or(at, a, b) => {
            judge_two(
                alloc,
                world,
                vars,
                a.get(),
                b.get(),
                *at,
                SeqType::Bool,
                wanted,
            )
        }
        Expr::And(at, a, b) => {
            judge_two(
                alloc,
                world,
                vars,
                a.get(),
                b.get(),
                *at,
                SeqType::Bool,
                wanted,
            )
        }
        Expr::Compare(at, a, _, b) => {
            judge_compare(alloc, world, vars, a.get(), b.get(), *at, wanted)
        }
        Expr::Cons(at, a, b) => judge_cons(alloc, world, vars, a.get(), b.get(), *at, wanted),
        Expr::Append(at, a, b) => judge_append(alloc, world, vars, a.get(), b.get(), *at, wanted),
        Expr::Calculate(at, a, _, b) => {
            judge_two(
                alloc,
                world,
                vars,
                a.get(),
                b.get(),
                *at,
                SeqType::Int,
                wanted,
            )
        }
        Expr::Negate(at, a) => {
            judge_one(
                alloc,
                world,
                vars,
                a.get(),
                *at,
                &SeqType::Int,
                SeqType::Int,
                wanted,
            )
        }
        Expr::CodeOf(at, a) => {
            judge_one(
                alloc,
                world,
                vars,
                a.get(),
                *at,
                &SeqType::Char,
                SeqType::Int,
                wanted,
            )
        }
        Expr::CharOf(at, a) => {
            judge_one(
                alloc,
                world,
                vars,
                a.get(),
                *at,
                &SeqType::Int,
                SeqType::Char,
                wanted,
            )
        }
        Expr::Number(at, _) => meets(alloc, *at, wanted, SeqType::Int),
        Expr::Character(at, _) => meets(alloc, *at, wanted, SeqType::Char),
        Expr::Text(at, _) => judge_text(alloc, *at, wanted),
        Expr::True(at) => meets(alloc, *at, wanted, SeqType::Bool),
        Expr::False(at) => meets(alloc, *at, wanted, SeqType::Bool),
        Expr::Variable(at, x) => judge_variable(alloc, vars, *at, x, wanted),
        Expr::Call(at, x, args) => {
            judge_function_call(alloc, world, vars, args.as_slice(), *at, x, wanted)
        }
        Expr::Constructor(at, x, args) => {
            judge_constructor(alloc, world, vars, args.as_slice(), *at, x, wanted)
        }
        Expr::List(at, items) => judge_list(alloc, world, vars, items.as_slice(), *at, wanted),
        Expr::Pair(at, a, b) => judge_pair(alloc, world, vars, a.get(), b.get(), *at, wanted),
    }
}

/// Judges `if c then a else b`.
#[cycle(judge)]
fn judge_if(
    alloc: Global,
    world: &World,
    vars: &mut Vars,
    c: &Expr,
    a: &Expr,
    b: &Expr,
    wanted: Option<&SeqType>,
) -> Result<SeqType, SeqFault>
    ensures judged { IsVerdict view_seq (judged_if (map view_decl world.now) (view_vars vars.old) (view_expr c.now) (view_expr a.now) (view_expr b.now) (view_wanted wanted.entry)) result }
    ensures kept { vars.new ≡ vars.old }
{
    judge(alloc, world, vars, c, Some(&SeqType::Bool))?;
    let t = judge(alloc, world, vars, a, wanted)?;
    judge(alloc, world, vars, b, Some(&t))
}

/// Judges a comparison.
#[cycle(judge)]
fn judge_compare(
    alloc: Global,
    world: &World,
    vars: &mut Vars,
    a: &Expr,
    b: &Expr,
    at: Place,
    wanted: Option<&SeqType>,
) -> Result<SeqType, SeqFault>
    ensures judged { IsVerdict view_seq (judged_compare at (map view_decl world.now) (view_vars vars.old) (view_expr a.now) (view_expr b.now) (view_wanted wanted.entry)) result }
    ensures kept { vars.new ≡ vars.old }
{
    let t = judge(alloc, world, vars, a, None)?;
    a_comparable(alloc, a.place(), &t)?;
    judge(alloc, world, vars, b, Some(&t))?;
    meets(alloc, at, wanted, SeqType::Bool)
}

/// Judges two operands of one type, which is that of the whole.
#[cycle(judge)]
fn judge_two(
    alloc: Global,
    world: &World,
    vars: &mut Vars,
    a: &Expr,
    b: &Expr,
    at: Place,
    own: SeqType,
    wanted: Option<&SeqType>,
) -> Result<SeqType, SeqFault>
    ensures judged { IsVerdict view_seq (judged_two at (map view_decl world.now) (view_vars vars.old) (view_expr a.now) (view_expr b.now) (view_seq own) (view_wanted wanted.entry)) result }
    ensures kept { vars.new ≡ vars.old }
{
    judge(alloc, world, vars, a, Some(&own))?;
    judge(alloc, world, vars, b, Some(&own))?;
    meets(alloc, at, wanted, own)
}

/// Judges an operand of this type, where the whole has that type.
#[cycle(judge)]
fn judge_one(
    alloc: Global,
    world: &World,
    vars: &mut Vars,
    a: &Expr,
    at: Place,
    operand: &SeqType,
    own: SeqType,
    wanted: Option<&SeqType>,
) -> Result<SeqType, SeqFault>
    ensures judged { IsVerdict view_seq (judged_one at (map view_decl world.now) (view_vars vars.old) (view_expr a.now) (view_seq operand.now) (view_seq own) (view_wanted wanted.entry)) result }
    ensures kept { vars.new ≡ vars.old }
{
    judge(alloc, world, vars, a, Some(operand))?;
    meets(alloc, at, wanted, own)
}

/// Judges `a : b`.
#[cycle(judge)]
fn judge_cons(
    alloc: Global,
    world: &World,
    vars: &mut Vars,
    a: &Expr,
    b: &Expr,
    at: Place,
    wanted: Option<&SeqType>,
) -> Result<SeqType, SeqFault>
    ensures judged { IsVerdict view_seq (judged_cons at (map view_decl world.now) (view_vars vars.old) (view_expr a.now) (view_expr b.now) (view_wanted wanted.entry)) result }
    ensures kept { vars.new ≡ vars.old }
{
    let item = wanted_item(alloc, at, wanted)?;
    let t = judge(alloc, world, vars, a, item)?;
    let list = SeqType::List(Boxed::new(alloc, t)?);
    judge(alloc, world, vars, b, Some(&list))
}

/// Judges `a ++ b`.
#[cycle(judge)]
fn judge_append(
    alloc: Global,
    world: &World,
    vars: &mut Vars,
    a: &Expr,
    b: &Expr,
    at: Place,
    wanted: Option<&SeqType>,
) -> Result<SeqType, SeqFault>
    ensures judged { IsVerdict view_seq (judged_append at (map view_decl world.now) (view_vars vars.old) (view_expr a.now) (view_expr b.now) (view_wanted wanted.entry)) result }
    ensures kept { vars.new ≡ vars.old }
{
    let list = wanted_list(alloc, at, wanted)?;
    let t = judge(alloc, world, vars, a, list)?;
    a_list(alloc, a.place(), &t)?;
    judge(alloc, world, vars, b, Some(&t))
}

/// Judges `(a, b)`.
#[cycle(judge)]
fn judge_pair(
    alloc: Global,
    world: &World,
    vars: &mut Vars,
    a: &Expr,
    b: &Expr,
    at: Place,
    wanted: Option<&SeqType>,
) -> Result<SeqType, SeqFault>
    ensures judged { IsVerdict view_seq (judged_pair at (map view_decl world.now) (view_vars vars.old) (view_expr a.now) (view_expr b.now) (view_wanted wanted.entry)) result }
    ensures kept { vars.new ≡ vars.old }
{
    let parts = wanted_parts(alloc, at, wanted)?;
    let t = judge(alloc, world, vars, a, parts.0)?;
    let first = Boxed::new(alloc, t)?;
    let u = judge(alloc, world, vars, b, parts.1)?;
    Ok(SeqType::Pair(first, Boxed::new(alloc, u)?))
}

/// Judges `[a, b, ..]`.
#[cycle(judge)]
fn judge_list(
    alloc: Global,
    world: &World,
    vars: &mut Vars,
    items: &[Expr],
    at: Place,
    wanted: Option<&SeqType>,
) -> Result<SeqType, SeqFault>
    ensures judged { IsVerdict view_seq (judged (map view_decl world.now) (view_vars vars.old) (e.List at (exprs (map view_expr items.now))) (view_wanted wanted.entry)) result }
    ensures kept { vars.new ≡ vars.old }
{
    match items.split_first() {
        None => empty_list(alloc, at, wanted),
        Some((first, rest)) => judge_items(alloc, world, vars, first, rest, at, wanted),
    }
}

/// Judges elements, of which the first tells the type of the others.
#[cycle(judge)]
fn judge_items(
    alloc: Global,
    world: &World,
    vars: &mut Vars,
    first: &Expr,
    rest: &[Expr],
    at: Place,
    wanted: Option<&SeqType>,
) -> Result<SeqType, SeqFault>
    ensures judged { IsVerdict view_seq (judged_items at (map view_decl world.now) (view_vars vars.old) (view_expr first.now) (exprs (map view_expr rest.now)) (view_wanted wanted.entry)) result }
    ensures kept { vars.new ≡ vars.old }
{
    let item = wanted_item(alloc, at, wanted)?;
    let t = judge(alloc, world, vars, first, item)?;
    judge_each(alloc, world, vars, rest, &t)?;
    Ok(SeqType::List(Boxed::new(alloc, t)?))
}

/// Judges elements of one type.
#[cycle(judge)]
fn judge_each(
    alloc: Global,
    world: &World,
    vars: &mut Vars,
    items: &[Expr],
    t: &SeqType,
) -> Result<(), SeqFault>
    ensures judged { IsVerdict (λ _. fine) (judged_each (map view_decl world.now) (view_vars vars.old) (exprs (map view_expr items.now)) (view_seq t.now)) result }
    ensures kept { vars.new ≡ vars.old }
{
    for i in 0..items.len() {
        judge(alloc, world, vars, &items[i], Some(t))?;
    }
    Ok(())
}

/// Judges a text.
fn judge_text(alloc: Global, at: Place, wanted: Option<&SeqType>) -> Result<SeqType, SeqFault>
    ensures { IsVerdict view_seq (definition.meets at (view_wanted wanted.entry) (s.List s.Char)) result }
{
    let own = text_type(alloc)?;
    meets(alloc, at, wanted, own)
}

/// Judges a variable.
fn judge_variable(
    alloc: Global,
    vars: &Vars,
    at: Place,
    name: &Name,
    wanted: Option<&SeqType>,
) -> Result<SeqType, SeqFault>
    ensures { IsVerdict view_seq (and_then (definition.variable_type at (found name.now (view_vars vars.now))) (definition.meets at (view_wanted wanted.entry))) result }
{
    match vars.find(name) {
        Some(t) => meets(alloc, at, wanted, t.copy(alloc)?),
        None => Err(SeqFault::NeedsType { place: at }),
    }
}
