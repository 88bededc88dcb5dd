//! The parts of a plug.
ghost use Rattle.std.specs.Prelude.{◌≡◌, ◌-◌, OnOk, drop, length, map};
ghost use Rattle.campl_tree.specs.View.{view_link, view_part, parts as part_list, view_decl};
ghost use Rattle.campl_tree.specs.Plain.Process.{Link as PlainLink};
ghost use Rattle.std.specs.Prelude.{List};
ghost use Rattle.campl_peel.specs.Numbered.{last_first};
ghost use Rattle.campl_gen_channels.specs.Orders.{view_part_at};
ghost use Rattle.campl_gen_channels.specs.View.{view_channels};
ghost use Rattle.campl_gen_bodies.specs.Peels.{child_built, children_built, peels_built};
ghost use Rattle.campl_gen_bodies.specs.View.{view_making, view_child};

use crate::emission::emit_body;
use crate::known::Known;
use crate::making::Making;
use crate::peels::{Child, left_of, peel_all};
use campl_gen_channels::{Channels, last_first};
use campl_instructions::Instr;
use campl_tree::{Link, Part};
use std::alloc::{AllocError, Global};

// `plug`, the links and the parts
#[cycle(emit)]
pub(super) fn emit_plug(
    alloc: Global,
    known: &Known<'_>,
    making: &mut Making,
    held: &Channels,
    parts: &[Part],
    links: &[Link],
) -> Result<(), AllocError>
    ensures { OnOk result (view_making making.new ≡ peels_built (map view_decl known.now) (map view_link links.now) (last_first (map view_link links.now) (part_list (map view_part parts.now))) held.now.next (view_channels held.now) (view_making making.old)) }
{
    let order = last_first(alloc, links, parts)?;
    emit_order(alloc, known, making, held, order.as_slice(), links)
}

// A plug's parts as they are peeled: all peels, and then the bodies.
#[cycle(emit)]
fn emit_order(
    alloc: Global,
    known: &Known<'_>,
    making: &mut Making,
    held: &Channels,
    order: &[&Part],
    links: &[Link],
) -> Result<(), AllocError>
    ensures { OnOk result (view_making making.new ≡ peels_built (map view_decl known.now) (map view_link links.now) (part_list (map view_part_at order.now)) held.now.next (view_channels held.now) (view_making making.old)) }
{
    let peeling = peel_all(alloc, making, held, links, order)?;
    emit_left(alloc, known, making, &peeling.rest, order)?;
    emit_children(alloc, known, making, peeling.children.as_slice())?;
    Ok(())
}

// The body of the part that is left, the last of the order.
#[cycle(emit)]
fn emit_left(
    alloc: Global,
    known: &Known<'_>,
    making: &mut Making,
    held: &Channels,
    order: &[&Part],
) -> Result<(), AllocError>
    ensures { OnOk result ((links : List PlainLink) → view_making making.new ≡ peels_built (map view_decl known.now) links (part_list (map view_part_at (drop (length order.now - 1) order.now))) held.now.next (view_channels held.now) (view_making making.old)) }
{
    match left_of(order) {
        Some(part) => {
            emit_body(alloc, known, making, held, &part.body)?;
            Ok(())
        }
        None => Ok(()),
    }
}

// The bodies of children, the last first.
#[cycle(emit)]
fn emit_children(
    alloc: Global,
    known: &Known<'_>,
    making: &mut Making,
    children: &[Child<'_>],
) -> Result<(), AllocError>
    ensures { OnOk result (view_making making.new ≡ children_built (map view_decl known.now) (map view_child children.now) (view_making making.old)) }
{
    let mut more = children.len();
    'children: while more > 0 {
        more -= 1;
        emit_child(alloc, known, making, &children[more])?;
    }
    Ok(())
}

// The body of a child, and its place in the peel.
#[cycle(emit)]
#[tactic(auto, using(crate::proofs::RowTurns::rows))]
fn emit_child(
    alloc: Global,
    known: &Known<'_>,
    making: &mut Making,
    child: &Child<'_>,
) -> Result<(), AllocError>
    ensures { OnOk result (view_making making.new ≡ child_built (map view_decl known.now) (view_child child.now) (view_making making.old)) }
{
    let to = making.here()?;
    let part = child.part;
    emit_body(alloc, known, making, &child.held, &part.body)?;
    making.set(child.at, Instr::Peel(child.channel, child.side, to));
    Ok(())
}
