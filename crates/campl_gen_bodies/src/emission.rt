//! Bodies.

mod parts;
mod rows;

ghost use Rattle.std.specs.Prelude.{◌≡◌, IfOk, OnOk, length, map};
ghost use Rattle.campl_tree.specs.View.{view_last, view_body, view_branch, view_decl};
ghost use Rattle.campl_gen_channels.specs.View.{view_channels};
ghost use Rattle.campl_gen_bodies.specs.Making.{built};
ghost use Rattle.campl_gen_bodies.specs.Commands.{fork_built};
ghost use Rattle.campl_gen_bodies.specs.Halves.{half_built};
ghost use Rattle.campl_gen_bodies.specs.View.{view_making};

use crate::actions::act_all;
use crate::ends::{call, halt, identity};
use crate::halves::{Halves, divide, second_number};
use crate::known::Known;
use crate::making::Making;
use campl_gen_channels::Channels;
use campl_instructions::Instr;
use campl_tree::{Body, Branch, Ident, Last};
use parts::emit_plug;
use rows::{emit_case, emit_hcase, emit_race};
use std::alloc::{AllocError, Global};

/// Appends the code of a body that holds these channels, and puts its decisions behind the others. The variables in scope are
/// then those of before.
///
/// # Errors
///
/// `AllocError` where memory wants, or where a number is 2^32 or more: what is made is no more of use.
#[cycle(emit)]
pub fn emit_body(
    alloc: Global,
    known: &Known<'_>,
    making: &mut Making,
    held: &Channels,
    body: &Body,
) -> Result<(), AllocError>
    ensures { OnOk result (view_making making.new ≡ built (map view_decl known.now) (view_body body.now) held.now.next (view_channels held.now) (view_making making.old)) }
{
    let variables = making.code.scope.len();
    let free = making.code.free;
    let mut own = held.copy(alloc)?;
    act_all(alloc, known, making, &mut own, body.actions.as_slice())?;
    emit_last(alloc, known, making, &own, &body.last)?;
    making.leave(variables, free);
    Ok(())
}

// The last command of a body.
#[cycle(emit)]
#[tactic(auto, using(crate::proofs::Lasts::lasts))]
fn emit_last(
    alloc: Global,
    known: &Known<'_>,
    making: &mut Making,
    held: &Channels,
    last: &Last,
) -> Result<(), AllocError>
    ensures { OnOk result (view_making making.new ≡ built (map view_decl known.now) (view_last last.now) held.now.next (view_channels held.now) (view_making making.old)) }
{
    match last {
        Last::Halt(_, x) => halt(making, held, x),
        Last::Hcase(_, x, rows) => emit_hcase(alloc, known, making, held, rows.as_slice(), x),
        Last::Fork(_, x, left, right) => {
            emit_fork(alloc, known, making, held, left.get(), right.get(), x)
        }
        Last::Plug(_, links, parts) => {
            let links = links.as_slice();
            emit_plug(alloc, known, making, held, parts.as_slice(), links)
        }
        Last::Race(_, rows) => emit_race(alloc, known, making, held, rows.as_slice()),
        Last::Case(_, e, rows) => emit_case(alloc, known, making, held, rows.as_slice(), e),
        Last::Identity(_, x, negated, y) => identity(making, held, x, *negated, y),
        Last::Call(_, x, args, inputs, outputs) => {
            let args = args.as_slice();
            let inputs = inputs.as_slice();
            call(
                alloc,
                known,
                making,
                held,
                x,
                args,
                inputs,
                outputs.as_slice(),
            )
        }
    }
}

// `fork x as` and its two rows
#[cycle(emit)]
fn emit_fork(
    alloc: Global,
    known: &Known<'_>,
    making: &mut Making,
    held: &Channels,
    left: &Branch,
    right: &Branch,
    x: &Ident,
) -> Result<(), AllocError>
    ensures { OnOk result (view_making making.new ≡ fork_built (map view_decl known.now) x.now (view_branch left.now) (view_branch right.now) held.now.next (view_channels held.now) (view_making making.old)) }
{
    let at = making.len();
    let n = held.number(&x.name);
    let its = second_number(held)?;
    making.push(Instr::Nil)?;
    let halves = match divide(alloc, held, x, left, right) {
        Ok(halves) => halves,
        Err(error) => return Err(error),
    };
    match emit_halves(alloc, known, making, &halves, left, right) {
        Ok(to) => {
            making.set(at, Instr::Fork(n, held.next, its, to));
            Ok(())
        }
        Err(error) => Err(error),
    }
}

// The two bodies, each with its channels; where the second begins.
#[cycle(emit)]
fn emit_halves(
    alloc: Global,
    known: &Known<'_>,
    making: &mut Making,
    halves: &Halves,
    left: &Branch,
    right: &Branch,
) -> Result<u32, AllocError>
    ensures to { IfOk result (λ to. to ≡ length (half_built (map view_decl known.now) left.now halves.now.first (view_making making.old)).emission.code) }
    ensures made { OnOk result (view_making making.new ≡ half_built (map view_decl known.now) right.now halves.now.second (half_built (map view_decl known.now) left.now halves.now.first (view_making making.old))) }
{
    emit_body(alloc, known, making, &halves.first, &left.body)?;
    let to = making.here()?;
    emit_body(alloc, known, making, &halves.second, &right.body)?;
    Ok(to)
}
