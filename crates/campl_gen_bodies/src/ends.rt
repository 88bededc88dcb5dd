//! Last commands without bodies.
ghost use Rattle.std.specs.Prelude.{◌≡◌, ◌++◌, ◌∷◌, [], OnOk, map};
ghost use Rattle.campl_tree.specs.View.{view_expr, exprs, view_decl};
ghost use Rattle.campl_code_bodies.specs.BodyCode.{number, link_code};
ghost use Rattle.campl_gen_channels.specs.View.{view_channels};
ghost use Rattle.campl_gen_bodies.specs.Making.{pushed};
ghost use Rattle.campl_gen_bodies.specs.Commands.{halted, called};
ghost use Rattle.campl_gen_bodies.specs.View.{view_making};

use crate::known::Known;
use crate::making::Making;
use campl_gen_channels::Channels;
use campl_instructions::Instr;
use campl_tree::{Expr, Ident, Name};
use sqlite_items::Items;
use std::alloc::{AllocError, Global};

/// `halt`, with the channel that it closes where one is named
pub(crate) fn halt(
    making: &mut Making,
    held: &Channels,
    x: &Option<Ident>,
) -> Result<(), AllocError>
    ensures { OnOk result (view_making making.new ≡ halted x.now (view_channels held.now) (view_making making.old)) }
{
    match x {
        Some(x) => making.push(Instr::Halt(Some(held.number(&x.name)))),
        None => making.push(Instr::Halt(None)),
    }
}

/// `x |=| y`, or `x |=| neg y`
pub(crate) fn identity(
    making: &mut Making,
    held: &Channels,
    x: &Name,
    negated: bool,
    y: &Ident,
) -> Result<(), AllocError>
    ensures { OnOk result (view_making making.new ≡ pushed (link_code negated (number x.now (view_channels held.now)) (number y.now.name (view_channels held.now)) ∷ []) (view_making making.old)) }
{
    let n = held.number(x);
    let m = held.number(&y.name);
    if negated {
        making.push(Instr::LinkNeg(n, m))
    } else {
        making.push(Instr::Link(n, m))
    }
}

/// A process's call: its name, the values, the inputs and the outputs.
pub(crate) fn call(
    alloc: Global,
    known: &Known<'_>,
    making: &mut Making,
    held: &Channels,
    x: &Name,
    args: &[Expr],
    inputs: &[Ident],
    outputs: &[Ident],
) -> Result<(), AllocError>
    ensures { OnOk result (view_making making.new ≡ called (map view_decl known.now) x.now (exprs (map view_expr args.now)) inputs.now outputs.now (view_channels held.now) (view_making making.old)) }
{
    making.values(alloc, known, args)?;
    let mut channels = Items::new(alloc);
    held.put_numbers(inputs, &mut channels)?;
    held.put_numbers(outputs, &mut channels)?;
    making.push(Instr::Go(known.process_number(x), channels))
}
