//! Bodies judged.

mod parts;
mod rows;

ghost use Rattle.std.specs.Prelude.{◌≡◌, OnOk, map};
ghost use Rattle.campl_tree.specs.View.{view_branch, view_last, view_body, view_decl};
ghost use Rattle.campl_vars.specs.Variables.{view_vars};
ghost use Rattle.campl_seqcheck.specs.Judged.{fine};
ghost use Rattle.campl_held.specs.Answered.{Answers};
ghost use Rattle.campl_held.specs.Slots.{view_held};
ghost use Rattle.campl_held.specs.Chosen.{ChoicesAreDeclared};
ghost use Rattle.campl_lincheck.specs.Steps.{judged, judged_fork};

use campl_calls::{call, halt, identity};
use campl_held::{Held, LinFault, act_all};
use campl_names::World;
use campl_rows::fork_stands;
use campl_tree::{Body, Branch, Ident, Last, Place};
use campl_vars::Vars;
use parts::judge_plug;
use rows::{judge_case, judge_hcase, judge_race};
use std::alloc::Global;

/// Judges a body under the variables in scope, which stay as they are, with the channels that it holds.
#[cycle(judge)]
pub(crate) fn judge(
    alloc: Global,
    world: &World,
    vars: &mut Vars,
    held: Held,
    body: &Body,
) -> Result<(), LinFault>
    requires { ChoicesAreDeclared (map view_decl world.now) }
    ensures judged { Answers (λ _. fine) (judged (map view_decl world.now) (view_vars vars.old) (view_held held) (view_body body.now)) result }
    ensures kept { OnOk result (vars.new ≡ vars.old) }
{
    let mark = vars.len();
    let mut held = held;
    match act_all(alloc, world, vars, &mut held, body.actions.as_slice()) {
        Ok(()) => {}
        Err(fault) => return Err(fault),
    }
    match judge_last(alloc, world, vars, held, &body.last) {
        Ok(()) => {}
        Err(fault) => return Err(fault),
    }
    vars.truncate(mark);
    Ok(())
}

/// Judges a last command.
#[cycle(judge)]
#[tactic(auto, using(crate::proofs::Turns::lasts))]
fn judge_last(
    alloc: Global,
    world: &World,
    vars: &mut Vars,
    held: Held,
    last: &Last,
) -> Result<(), LinFault>
    requires { ChoicesAreDeclared (map view_decl world.now) }
    ensures judged { Answers (λ _. fine) (judged (map view_decl world.now) (view_vars vars.old) (view_held held) (view_last last.now)) result }
    ensures kept { OnOk result (vars.new ≡ vars.old) }
{
    match last {
        Last::Halt(at, channel) => halt(alloc, world, held, *at, channel),
        Last::Hcase(at, x, rows) => judge_hcase(alloc, world, vars, &held, rows.as_slice(), *at, x),
        Last::Fork(at, x, left, right) => {
            judge_fork(alloc, world, vars, held, left.get(), right.get(), *at, x)
        }
        Last::Plug(at, links, parts) => {
            let links = links.as_slice();
            judge_plug(alloc, world, vars, &held, parts.as_slice(), *at, links)
        }
        Last::Race(at, rows) => judge_race(alloc, world, vars, &held, rows.as_slice(), *at),
        Last::Case(at, e, rows) => judge_case(alloc, world, vars, &held, rows.as_slice(), *at, e),
        Last::Identity(at, x, negated, y) => identity(alloc, held, *at, x, *negated, y),
        Last::Call(at, x, args, inputs, outputs) => {
            let args = args.as_slice();
            let inputs = inputs.as_slice();
            call(
                alloc,
                world,
                vars,
                held,
                *at,
                x,
                args,
                inputs,
                outputs.as_slice(),
            )
        }
    }
}

/// Judges `fork x as` and its two rows.
#[cycle(judge)]
fn judge_fork(
    alloc: Global,
    world: &World,
    vars: &mut Vars,
    held: Held,
    left: &Branch,
    right: &Branch,
    at: Place,
    x: &Ident,
) -> Result<(), LinFault>
    requires { ChoicesAreDeclared (map view_decl world.now) }
    ensures judged { Answers (λ _. fine) (judged_fork at (map view_decl world.now) (view_vars vars.old) (view_held held) x.now (view_branch left.now) (view_branch right.now)) result }
    ensures kept { OnOk result (vars.new ≡ vars.old) }
{
    let y = &left.channel;
    let (first, second) = match fork_stands(
        alloc,
        world,
        at,
        x,
        y,
        &left.body,
        &right.channel,
        held,
    ) {
        Ok(halves) => halves,
        Err(fault) => return Err(fault),
    };
    match judge(alloc, world, vars, first, &left.body) {
        Ok(()) => {}
        Err(fault) => return Err(fault),
    }
    judge(alloc, world, vars, second, &right.body)
}
