//! Commands behind which a body goes on.
ghost use Rattle.std.specs.Prelude.{◌≡◌, ◌∷◌, [], OnOk, map, suc};
ghost use Rattle.campl_tree.specs.View.{view_expr, view_action, view_decl};
ghost use Rattle.campl_types.specs.Matching.{number_of};
ghost use Rattle.campl_code.specs.Generated.{or_zero};
ghost use Rattle.campl_code.specs.Instructions as i;
ghost use Rattle.campl_code_bodies.specs.Bodies.{without};
ghost use Rattle.campl_code_bodies.specs.BodyCode.{number};
ghost use Rattle.campl_gen_channels.specs.Numbers.{NumbersAlike};
ghost use Rattle.campl_gen_channels.specs.View.{view_channels};
ghost use Rattle.campl_gen_bodies.specs.Making.{pushed, valued, received};
ghost use Rattle.campl_gen_bodies.specs.Actions.{GoesOn};
ghost use Rattle.campl_gen_bodies.specs.View.{view_making, view_stage};

use crate::known::Known;
use crate::making::Making;
use campl_gen_channels::Channels;
use campl_instructions::Instr;
use campl_tree::{Action, Binder, Expr, Ident};
use std::alloc::{AllocError, Global};

// `put e on x`
fn put(
    alloc: Global,
    known: &Known<'_>,
    making: &mut Making,
    held: &Channels,
    e: &Expr,
    x: &Ident,
) -> Result<(), AllocError>
    ensures { OnOk result (view_making making.new ≡ pushed (i.Put (number x.now.name (view_channels held.now)) ∷ []) (valued (map view_decl known.now) (view_expr e.now) (view_making making.old))) }
{
    making.value(alloc, known, e)?;
    making.push(Instr::Put(held.number(&x.name)))
}

// `get v on x`
fn get(
    alloc: Global,
    making: &mut Making,
    held: &Channels,
    v: &Binder,
    x: &Ident,
) -> Result<(), AllocError>
    ensures { OnOk result (view_making making.new ≡ received v.now (pushed (i.Get (number x.now.name (view_channels held.now)) (view_making making.old).emission.free ∷ []) (view_making making.old))) }
{
    let free = making.code.free;
    making.push(Instr::Get(held.number(&x.name), free))?;
    making.receive(alloc, v)
}

// `hput k on x`
fn hput(
    known: &Known<'_>,
    making: &mut Making,
    held: &Channels,
    k: &Ident,
    x: &Ident,
) -> Result<(), AllocError>
    ensures { OnOk result (view_making making.new ≡ pushed (i.Pick (number x.now.name (view_channels held.now)) (or_zero (number_of (map view_decl known.now) k.now.name)) ∷ []) (view_making making.old)) }
{
    let constructor = known.source().constructor_number(&k.name)?;
    making.push(Instr::Pick(held.number(&x.name), constructor))
}

// `split x into y, z`
#[tactic(auto, using(crate::proofs::Turns::splits))]
fn split(
    alloc: Global,
    making: &mut Making,
    held: &mut Channels,
    x: &Ident,
    y: &Ident,
    z: &Ident,
) -> Result<(), AllocError>
    ensures made { OnOk result (view_making making.new ≡ pushed (i.Split (number x.now.name (view_channels held.old)) held.old.next (suc held.old.next) ∷ []) (view_making making.old)) }
    ensures held { OnOk result (NumbersAlike (view_channels held.new) ((z.now.name, suc held.old.next) ∷ (y.now.name, held.old.next) ∷ without x.now.name (view_channels held.old))) }
    ensures next { OnOk result (held.new.next ≡ suc (suc held.old.next)) }
{
    let n = held.number(&x.name);
    held.remove(&x.name);
    let left = held.come(alloc, &y.name)?;
    let right = held.come(alloc, &z.name)?;
    making.push(Instr::Split(n, left, right))?;
    Ok(())
}

// `close x`
fn close(making: &mut Making, held: &mut Channels, x: &Ident) -> Result<(), AllocError>
    ensures made { OnOk result (view_making making.new ≡ pushed (i.Close (number x.now.name (view_channels held.old)) ∷ []) (view_making making.old)) }
    ensures held { NumbersAlike (view_channels held.new) (without x.now.name (view_channels held.old)) }
    ensures next { held.new.next ≡ held.old.next }
{
    let n = held.number(&x.name);
    held.remove(&x.name);
    making.push(Instr::Close(n))
}

// A command.
fn act(
    alloc: Global,
    known: &Known<'_>,
    making: &mut Making,
    held: &mut Channels,
    action: &Action,
) -> Result<(), AllocError>
    ensures { OnOk result (GoesOn (map view_decl known.now) (view_action action.now ∷ []) (view_stage held.old making.old) (view_stage held.new making.new)) }
{
    match action {
        Action::Put(_, e, x) => {
            put(alloc, known, making, held, e, x)?;
            Ok(())
        }
        Action::Get(_, v, x) => {
            get(alloc, making, held, v, x)?;
            Ok(())
        }
        Action::Hput(_, k, x) => {
            hput(known, making, held, k, x)?;
            Ok(())
        }
        Action::Split(_, x, y, z) => {
            split(alloc, making, held, x, y, z)?;
            Ok(())
        }
        Action::Close(_, x) => {
            close(making, held, x)?;
            Ok(())
        }
    }
}

/// Appends the code of commands in order. The channels are then those behind them, and the new variables stand before the others.
///
/// # Errors
///
/// `AllocError` where memory wants, or where a number is 2^32 or more: what is made is no more of use.
pub(crate) fn act_all(
    alloc: Global,
    known: &Known<'_>,
    making: &mut Making,
    held: &mut Channels,
    actions: &[Action],
) -> Result<(), AllocError>
    ensures { OnOk result (GoesOn (map view_decl known.now) (map view_action actions.now) (view_stage held.old making.old) (view_stage held.new making.new)) }
{
    for i in 0..actions.len() {
        act(alloc, known, making, held, &actions[i])?;
    }
    Ok(())
}
