//! Calls of functions and constructors judged.
ghost use Rattle.std.specs.Prelude.{◌≡◌, map};
ghost use Rattle.campl_tree.specs.View.{view_seq, view_expr, exprs, view_data, view_data_constructor, view_decl};
ghost use Rattle.campl_tree.specs.Plain.Expr as e;
ghost use Rattle.campl_names.specs.Filling.{view_filling};
ghost use Rattle.campl_types.specs.Substitution.{filled};
ghost use Rattle.campl_vars.specs.Variables.{view_vars};
ghost use Rattle.campl_seqcheck.specs.Answered.{IsVerdict, view_wanted};
ghost use Rattle.campl_seqcheck.specs.Judged.{and_then};
ghost use Rattle.campl_seqcheck.specs.Judging as definition;
ghost use Rattle.campl_seqcheck.specs.Steps.{judged, judged_parts, judged_call, judged_part, judged_data, parameters_of, result_of};

use crate::callee::{Callee, all_bound, begun, found_so, function_named, result_of, types_of};
use crate::fault::SeqFault;
use crate::fitting::{counted, whole};
use crate::judging::judge;
use crate::meeting::meets;
use campl_matching::is_known;
use campl_names::{ConstructorRef, Filling, World};
use campl_tree::{DataConstructor, DataDecl, Expr, Name, Place, SeqType};
use campl_vars::Vars;
use std::alloc::Global;

/// Judges a call of a function.
#[cycle(judge)]
pub(super) fn judge_function_call(
    alloc: Global,
    world: &World,
    vars: &mut Vars,
    args: &[Expr],
    at: Place,
    name: &Name,
    wanted: Option<&SeqType>,
) -> Result<SeqType, SeqFault>
    ensures judged { IsVerdict view_seq (judged (map view_decl world.now) (view_vars vars.old) (e.Call at name.now (exprs (map view_expr args.now))) (view_wanted wanted.entry)) result }
    ensures kept { vars.new ≡ vars.old }
{
    match function_named(world, name) {
        Some(f) => judge_call(alloc, world, vars, args, at, &Callee::Function(f), wanted),
        None => Err(SeqFault::NeedsType { place: at }),
    }
}

/// Judges a constructor with its parts.
#[cycle(judge)]
pub(super) fn judge_constructor(
    alloc: Global,
    world: &World,
    vars: &mut Vars,
    args: &[Expr],
    at: Place,
    name: &Name,
    wanted: Option<&SeqType>,
) -> Result<SeqType, SeqFault>
    ensures judged { IsVerdict view_seq (judged (map view_decl world.now) (view_vars vars.old) (e.Constructor at name.now (exprs (map view_expr args.now))) (view_wanted wanted.entry)) result }
    ensures kept { vars.new ≡ vars.old }
{
    match world.constructor_named(name) {
        Some(ConstructorRef::Data(d, _, k)) => {
            judge_data_constructor(alloc, world, vars, args, at, d, k, wanted)
        }
        Some(ConstructorRef::Protocol(_, _, _)) => Err(SeqFault::NeedsType { place: at }),
        Some(ConstructorRef::Coprotocol(_, _, _)) => Err(SeqFault::NeedsType { place: at }),
        None => Err(SeqFault::NeedsType { place: at }),
    }
}

/// Judges a constructor of a data type with its parts.
#[cycle(judge)]
fn judge_data_constructor(
    alloc: Global,
    world: &World,
    vars: &mut Vars,
    args: &[Expr],
    at: Place,
    d: &DataDecl,
    k: &DataConstructor,
    wanted: Option<&SeqType>,
) -> Result<SeqType, SeqFault>
    ensures judged { IsVerdict view_seq (judged_data at (map view_decl world.now) (view_vars vars.old) (view_data d.now) (view_data_constructor k.now) (exprs (map view_expr args.now)) (view_wanted wanted.entry)) result }
    ensures kept { vars.new ≡ vars.old }
{
    let own = whole(alloc, d)?;
    judge_call(
        alloc,
        world,
        vars,
        args,
        at,
        &Callee::Constructor(&own, k),
        wanted,
    )
}

/// Judges a call: its number of parts, then the parts in order, and last what the call's type is.
#[cycle(judge)]
fn judge_call(
    alloc: Global,
    world: &World,
    vars: &mut Vars,
    args: &[Expr],
    at: Place,
    callee: &Callee<'_>,
    wanted: Option<&SeqType>,
) -> Result<SeqType, SeqFault>
    ensures judged { IsVerdict view_seq (judged_call at (map view_decl world.now) (view_vars vars.old) callee.now (exprs (map view_expr args.now)) (view_wanted wanted.entry)) result }
    ensures kept { vars.new ≡ vars.old }
{
    counted(at, args.len(), types_of(callee).len())?;
    let mut filling = begun(alloc, at, callee, wanted)?;
    judge_parts(alloc, world, vars, args, types_of(callee), &mut filling)?;
    call_ends(alloc, at, callee, &filling, wanted)
}

/// Judges the parts of a call, one for each type, as long as there are both.
#[cycle(judge)]
fn judge_parts(
    alloc: Global,
    world: &World,
    vars: &mut Vars,
    args: &[Expr],
    types: &[SeqType],
    filling: &mut Filling,
) -> Result<(), SeqFault>
    ensures judged { IsVerdict (λ _. view_filling filling.new) (judged_parts (map view_decl world.now) (view_vars vars.old) (view_filling filling.old) (map view_seq types.now) (exprs (map view_expr args.now))) result }
    ensures kept { vars.new ≡ vars.old }
{
    for i in 0..types.len().min(args.len()) {
        judge_part(alloc, world, vars, &args[i], &types[i], filling)?;
    }
    Ok(())
}

/// Judges a part of a call, whose declared type tells it as far as its parameters are known.
#[cycle(judge)]
fn judge_part(
    alloc: Global,
    world: &World,
    vars: &mut Vars,
    a: &Expr,
    t: &SeqType,
    filling: &mut Filling,
) -> Result<(), SeqFault>
    ensures judged { IsVerdict (λ _. view_filling filling.new) (judged_part (map view_decl world.now) (view_vars vars.old) (view_filling filling.old) (view_seq t.now) (view_expr a.now)) result }
    ensures kept { vars.new ≡ vars.old }
{
    if is_known(filling, t) {
        let own = filling.filled(alloc, t)?;
        judge(alloc, world, vars, a, Some(&own))?;
        return Ok(());
    }
    let u = judge(alloc, world, vars, a, None)?;
    found_so(alloc, a.place(), filling, t, &u)
}

/// The type of a call behind its parts.
fn call_ends(
    alloc: Global,
    at: Place,
    callee: &Callee<'_>,
    filling: &Filling,
    wanted: Option<&SeqType>,
) -> Result<SeqType, SeqFault>
    ensures { IsVerdict view_seq (and_then (definition.all_bound at (parameters_of callee.now) (view_filling filling.now)) (λ _. definition.meets at (view_wanted wanted.entry) (filled (view_filling filling.now) (result_of callee.now)))) result }
{
    all_bound(at, callee, filling)?;
    let own = filling.filled(alloc, result_of(callee))?;
    meets(alloc, at, wanted, own)
}
