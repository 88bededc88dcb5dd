//! What each part of a plug holds.
ghost use Rattle.std.specs.Prelude.{◌≡◌, ◌++◌, None, IfOk, OnOk, map};
ghost use Rattle.campl_tree.specs.View.{view_link, view_part};
ghost use Rattle.campl_types.specs.Names.{found};
ghost use Rattle.campl_linear.specs.Plugs.{share_of};
ghost use Rattle.campl_held.specs.Slots.{view_held};
ghost use Rattle.campl_plug_heads.specs.Heads.{side_in, end_in, ends_in, LinksStand};

use crate::sets::{names_of_part, outputs_of};
use campl_held::Held;
use campl_names::NameSet;
use campl_tree::{Link, Name, Part, Side};
use std::alloc::{AllocError, Global};

/// The side on which a part holds a link, by its outputs and all names of its header.
fn side_of(outputs: &NameSet, names: &NameSet, link: &Name) -> Option<Side>
    ensures { result ≡ side_in outputs.now names.now link.now }
{
    if outputs.has(link) {
        Some(Side::Output)
    } else if names.has(link) {
        Some(Side::Input)
    } else {
        None
    }
}

/// Holds a part's end of a link, if it has one.
fn add_end(
    alloc: Global,
    share: &mut Held,
    outputs: &NameSet,
    names: &NameSet,
    link: &Link,
) -> Result<(), AllocError>
    requires { found link.now.name.name (view_held share.old) ≡ None }
    ensures { OnOk result (view_held share.new ≡ view_held share.old ++ end_in outputs.now names.now (view_link link.now)) }
{
    match side_of(outputs, names, &link.name.name) {
        Some(side) => {
            let end = link.channel_type.copy(alloc)?;
            share.come(alloc, &link.name.name, side, end)
        }
        None => Ok(()),
    }
}

/// Holds a part's ends of links, in their order.
fn add_ends(
    alloc: Global,
    share: &mut Held,
    outputs: &NameSet,
    names: &NameSet,
    links: &[Link],
) -> Result<(), AllocError>
    requires { LinksStand (map view_link links.now) (view_held share.old) }
    ensures { OnOk result (view_held share.new ≡ view_held share.old ++ ends_in outputs.now names.now (map view_link links.now)) }
{
    for i in 0..links.len() {
        add_end(alloc, share, outputs, names, &links[i])?;
    }
    Ok(())
}

/// What a part of a plug holds: the held channels in its header, in their order, and then its ends of links.
///
/// # Errors
///
/// `AllocError` for want of memory.
pub fn share_of(alloc: Global, links: &[Link], held: &Held, part: &Part) -> Result<Held, AllocError>
    requires { LinksStand (map view_link links.now) (view_held held.now) }
    ensures { IfOk result (λ share. view_held share ≡ share_of (map view_link links.now) (view_held held.now) (view_part part.now).0) }
{
    let outputs = outputs_of(alloc, part)?;
    let names = names_of_part(alloc, part)?;
    let mut share = held.those(alloc, &names, true)?;
    add_ends(alloc, &mut share, &outputs, &names, links)?;
    Ok(share)
}
