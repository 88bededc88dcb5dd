//! Commands behind which a process goes on.
ghost use Rattle.std.specs.Prelude.{◌≡◌, OnOk, map};
ghost use Rattle.campl_tree.specs.View.{view_seq, view_expr, view_action, view_decl};
ghost use Rattle.campl_types.specs.Linear.{bound};
ghost use Rattle.campl_vars.specs.Variables.{view_vars};
ghost use Rattle.campl_seqcheck.specs.Judged.{fine};
ghost use Rattle.campl_seqcheck.specs.Judging.{checked};
ghost use Rattle.campl_linear.specs.Judged.{from_seq};
ghost use Rattle.campl_held.specs.Answered.{Answers};
ghost use Rattle.campl_held.specs.Slots.{view_held};
ghost use Rattle.campl_held.specs.Chosen.{ChoicesAreDeclared};
ghost use Rattle.campl_held.specs.Steps.{acted, acted_all, acted_put, acted_get, acted_hput, acted_split, acted_close, Grown};

use crate::asking::{used_to_end, used_to_get, used_to_pick, used_to_put, used_to_split};
use crate::coming::two_new;
use crate::fault::LinFault;
use crate::held::Held;
use crate::telling::of_seq;
use crate::used::Pick;
use campl_names::World;
use campl_seqcheck::check_expr;
use campl_tree::{Action, Binder, Expr, Ident, Place, SeqType};
use campl_vars::Vars;
use std::alloc::{AllocError, Global};

/// Checks a value against a type, under the variables in scope, which stay as they are.
///
/// # Errors
///
/// The first fault of the sequential rules (`Seq`), or `OutOfMemory` where memory wants.
#[tactic(auto, using(crate::proofs::Told::sequential))]
pub fn value_fits(
    alloc: Global,
    world: &World,
    vars: &mut Vars,
    e: &Expr,
    t: &SeqType,
) -> Result<(), LinFault>
    ensures judged { Answers (λ _. fine) (from_seq (checked (map view_decl world.now) (view_vars vars.old) (view_expr e.now) (view_seq t.now))) result }
    ensures kept { vars.new ≡ vars.old }
{
    match check_expr(alloc, world, vars, e, t) {
        Ok(()) => Ok(()),
        Err(fault) => Err(of_seq(fault)),
    }
}

/// Binds a value that comes: its variable has this type, and hides an older one of its name.
///
/// # Errors
///
/// `AllocError` for want of memory; then the variables may be other than before.
pub fn bind(alloc: Global, vars: &mut Vars, v: &Binder, t: &SeqType) -> Result<(), AllocError>
    ensures bound { OnOk result (view_vars vars.new ≡ bound v.now (view_seq t.now) (view_vars vars.old)) }
    ensures grown { OnOk result (Grown vars.old vars.new) }
{
    match v {
        Binder::Variable(_, x) => {
            let t = t.copy(alloc)?;
            vars.bind(alloc, x, t)
        }
        Binder::Wildcard(_) => Ok(()),
    }
}

/// `put e on x`
fn put(
    alloc: Global,
    world: &World,
    vars: &mut Vars,
    held: &mut Held,
    at: Place,
    e: &Expr,
    x: &Ident,
) -> Result<(), LinFault>
    ensures acted { Answers (λ _. (view_vars vars.new, view_held held.new)) (acted_put at (map view_decl world.now) (view_vars vars.old) (view_held held.old) (view_expr e.now) x.now) result }
    ensures grown { OnOk result (Grown vars.old vars.new) }
{
    let message = match used_to_put(alloc, world, at, x, held) {
        Ok(message) => message,
        Err(fault) => return Err(fault),
    };
    match value_fits(alloc, world, vars, e, message.value) {
        Ok(()) => {}
        Err(fault) => return Err(fault),
    }
    let side = message.channel.side;
    let Ok(rest) = message.rest.copy(alloc) else {
        return Err(LinFault::OutOfMemory);
    };
    match held.go_on(alloc, &x.name, side, rest) {
        Ok(()) => Ok(()),
        Err(_) => Err(LinFault::OutOfMemory),
    }
}

/// `get v on x`
fn get(
    alloc: Global,
    world: &World,
    vars: &mut Vars,
    held: &mut Held,
    at: Place,
    v: &Binder,
    x: &Ident,
) -> Result<(), LinFault>
    ensures acted { Answers (λ _. (view_vars vars.new, view_held held.new)) (acted_get at (map view_decl world.now) (view_vars vars.old) (view_held held.old) v.now x.now) result }
    ensures grown { OnOk result (Grown vars.old vars.new) }
{
    let message = match used_to_get(alloc, world, at, x, held) {
        Ok(message) => message,
        Err(fault) => return Err(fault),
    };
    let side = message.channel.side;
    match bind(alloc, vars, v, message.value) {
        Ok(()) => {}
        Err(_) => return Err(LinFault::OutOfMemory),
    }
    let Ok(rest) = message.rest.copy(alloc) else {
        return Err(LinFault::OutOfMemory);
    };
    match held.go_on(alloc, &x.name, side, rest) {
        Ok(()) => Ok(()),
        Err(_) => Err(LinFault::OutOfMemory),
    }
}

/// `hput k on x`
fn hput(
    alloc: Global,
    world: &World,
    vars: &mut Vars,
    held: &mut Held,
    at: Place,
    k: &Ident,
    x: &Ident,
) -> Result<(), LinFault>
    requires { ChoicesAreDeclared (map view_decl world.now) }
    ensures acted { Answers (λ _. (view_vars vars.new, view_held held.new)) (acted_hput at (map view_decl world.now) (view_vars vars.old) (view_held held.old) k.now x.now) result }
    ensures grown { OnOk result (Grown vars.old vars.new) }
{
    let _ = vars;
    let Pick { channel, rest } = match used_to_pick(alloc, world, at, &k.name, x, held) {
        Ok(pick) => pick,
        Err(fault) => return Err(fault),
    };
    let side = channel.side;
    match held.go_on(alloc, &x.name, side, rest) {
        Ok(()) => Ok(()),
        Err(_) => Err(LinFault::OutOfMemory),
    }
}

/// `split x into y, z`
fn split(
    alloc: Global,
    world: &World,
    vars: &mut Vars,
    held: &mut Held,
    at: Place,
    x: &Ident,
    y: &Ident,
    z: &Ident,
) -> Result<(), LinFault>
    ensures acted { Answers (λ _. (view_vars vars.new, view_held held.new)) (acted_split at (map view_decl world.now) (view_vars vars.old) (view_held held.old) x.now y.now z.now) result }
    ensures grown { OnOk result (Grown vars.old vars.new) }
{
    let _ = vars;
    let halves = match used_to_split(alloc, world, at, x, held) {
        Ok(halves) => halves,
        Err(fault) => return Err(fault),
    };
    let side = halves.channel.side;
    let Ok(first) = halves.first.copy(alloc) else {
        return Err(LinFault::OutOfMemory);
    };
    let Ok(second) = halves.second.copy(alloc) else {
        return Err(LinFault::OutOfMemory);
    };
    held.give_up(&x.name);
    match two_new(alloc, y, z, held) {
        Ok(()) => {}
        Err(fault) => return Err(fault),
    }
    match held.come(alloc, &y.name, side, first) {
        Ok(()) => {}
        Err(_) => return Err(LinFault::OutOfMemory),
    }
    match held.come(alloc, &z.name, side, second) {
        Ok(()) => Ok(()),
        Err(_) => Err(LinFault::OutOfMemory),
    }
}

/// `close x`
fn close(
    alloc: Global,
    world: &World,
    vars: &mut Vars,
    held: &mut Held,
    at: Place,
    x: &Ident,
) -> Result<(), LinFault>
    ensures acted { Answers (λ _. (view_vars vars.new, view_held held.new)) (acted_close at (map view_decl world.now) (view_vars vars.old) (view_held held.old) x.now) result }
    ensures grown { OnOk result (Grown vars.old vars.new) }
{
    let _ = vars;
    match used_to_end(alloc, world, at, x, held) {
        Ok(_) => {}
        Err(fault) => return Err(fault),
    }
    held.give_up(&x.name);
    Ok(())
}

/// A command.
fn act(
    alloc: Global,
    world: &World,
    vars: &mut Vars,
    held: &mut Held,
    action: &Action,
) -> Result<(), LinFault>
    requires { ChoicesAreDeclared (map view_decl world.now) }
    ensures acted { Answers (λ _. (view_vars vars.new, view_held held.new)) (acted (map view_decl world.now) (view_vars vars.old) (view_held held.old) (view_action action.now)) result }
    ensures grown { OnOk result (Grown vars.old vars.new) }
{
    match action {
        Action::Put(at, e, x) => put(alloc, world, vars, held, *at, e, x),
        Action::Get(at, v, x) => get(alloc, world, vars, held, *at, v, x),
        Action::Close(at, x) => close(alloc, world, vars, held, *at, x),
        Action::Hput(at, k, x) => hput(alloc, world, vars, held, *at, k, x),
        Action::Split(at, x, y, z) => split(alloc, world, vars, held, *at, x, y, z),
    }
}

/// Judges commands in order: what is in scope and held is then that behind them. New variables stand before the
/// old, so that `truncate` brings those back.
///
/// # Errors
///
/// The first fault (E30 to E34 of an expression, E40, E41, E42), or `OutOfMemory` where memory wants; what is held
/// and in scope may then be other than before. In a world where each name is declared once.
pub fn act_all(
    alloc: Global,
    world: &World,
    vars: &mut Vars,
    held: &mut Held,
    actions: &[Action],
) -> Result<(), LinFault>
    requires { ChoicesAreDeclared (map view_decl world.now) }
    ensures acted { Answers (λ _. (view_vars vars.new, view_held held.new)) (acted_all (map view_decl world.now) (view_vars vars.old) (view_held held.old) (map view_action actions.now)) result }
    ensures grown { OnOk result (Grown vars.old vars.new) }
{
    for i in 0..actions.len() {
        match act(alloc, world, vars, held, &actions[i]) {
            Ok(()) => {}
            Err(fault) => return Err(fault),
        }
    }
    Ok(())
}
