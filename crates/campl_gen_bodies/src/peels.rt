//! How a plug is peeled.
ghost use Rattle.std.specs.Prelude.{◌≡◌, ◌≤◌, ◌-◌, ◌∷◌, ◌&&◌, [], not, suc, IfOk, OnOk, drop, length, map, true, false};
ghost use Rattle.campl_tree.specs.View.{view_link, view_part, parts as part_list};
ghost use Rattle.campl_tree.specs.Plain.Process.{part_then};
ghost use Rattle.campl_types.specs.Names.{is_among};
ghost use Rattle.campl_types.specs.World.{World as Declared};
ghost use Rattle.campl_peel.specs.Plugging.{stands_in, stands_among, side_in};
ghost use Rattle.campl_peel.specs.Terms.{those};
ghost use Rattle.campl_gen_channels.specs.Numbers.{NumbersAlike};
ghost use Rattle.campl_gen_channels.specs.Orders.{view_part_at};
ghost use Rattle.campl_gen_channels.specs.View.{view_channels, is_kept};
ghost use Rattle.campl_gen_bodies.specs.Peels.{left_links, link_of, child_held, rest_held, children_built, peels_built, heaviest, heaviest_child, heaviest_with};
ghost use Rattle.campl_gen_bodies.specs.View.{view_making, view_child, one_part};

use crate::making::Making;
use campl_gen_channels::{Channels, header_names, side_in, stands_among, stands_in};
use campl_instructions::Instr;
use campl_names::NameSet;
use campl_tree::{Link, Name, Part, Side};
use sqlite_items::{Items, at};
use std::alloc::{AllocError, Global};

/// The part that a peel bears.
pub(crate) struct Child<'a> {
    /// The peel's place.
    pub(crate) at: usize,
    /// The number of the link's channel.
    pub(crate) channel: u32,
    /// The side of the child's half.
    pub(crate) side: Side,
    pub(crate) part: &'a Part,
    /// What it holds, and the number of its next channel.
    pub(crate) held: Channels,
}

impl<'a> Drop for Child<'a> {
    fn drop(self) {
        let Child {
            at: _,
            channel: _,
            side: _,
            part: _,
            held,
        } = self;
        drop(held);
    }
}

/// A plug of which some parts are peeled.
pub(crate) struct Peeling<'a> {
    /// What the parts that are left hold.
    pub(crate) rest: Channels,
    /// The names of the links that are peeled.
    pub(crate) used: NameSet,
    /// The parts that are peeled, in order.
    pub(crate) children: Items<Child<'a>>,
}

impl<'a> Drop for Peeling<'a> {
    fn drop(self) {
        let Peeling {
            rest,
            used,
            children,
        } = self;
        drop(rest);
        drop(used);
        drop(children);
    }
}

/// Appends the peels of all parts but the last of the order, and gives what each child holds and what that part holds.
///
/// # Errors
///
/// `AllocError` where memory wants, or where a number is 2^32 or more: what is made is no more of use.
pub(crate) fn peel_all<'a>(
    alloc: Global,
    making: &mut Making,
    held: &Channels,
    links: &[Link],
    order: &[&'a Part],
) -> Result<Peeling<'a>, AllocError>
    ensures built { IfOk result (λ p. (w : Declared) → children_built w (map view_child p.children) (peels_built w (left_links p.used (map view_link links.now)) (part_list (map view_part_at (drop (length order.now - 1) order.now))) p.rest.next (view_channels p.rest) (view_making making.new)) ≡ peels_built w (map view_link links.now) (part_list (map view_part_at order.now)) held.now.next (view_channels held.now) (view_making making.old)) }
    ensures light { IfOk result (λ p. heaviest_child (map view_child p.children) ≤ heaviest (part_list (map view_part_at order.now))) }
{
    let mut peeling = begin(alloc, held)?;
    let mut at: usize = 0;
    'parts: while at + 1 < order.len() {
        let part = order[at];
        let behind = &order[at + 1..];
        peel(alloc, making, &mut peeling, links, part, behind)?;
        at += 1;
    }
    Ok(peeling)
}

/// The part that is left behind all peels, the last of the order.
#[tactic(auto, using(crate::proofs::Children::lefts))]
pub(crate) fn left_of<'a>(order: &[&'a Part]) -> Option<&'a Part>
    ensures { part_list (map view_part_at (drop (length order.now - 1) order.now)) ≡ one_part result }
{
    let count = order.len();
    if count == 0 {
        return None;
    }
    match at(order, count - 1) {
        Some(part) => Some(*part),
        None => None,
    }
}

// Nothing is peeled.
fn begin<'a>(alloc: Global, held: &Channels) -> Result<Peeling<'a>, AllocError>
    ensures rest { IfOk result (λ p. NumbersAlike (view_channels p.rest) (view_channels held.now)) }
    ensures next { IfOk result (λ p. p.rest.next ≡ held.now.next) }
    ensures used { IfOk result (λ p. p.used ≡ []) }
    ensures children { IfOk result (λ p. map view_child p.children ≡ []) }
{
    let rest = held.copy(alloc)?;
    Ok(Peeling {
        rest,
        used: NameSet::new(alloc),
        children: Items::new(alloc),
    })
}

// Peels a part: appends the peel, whose place is written later.
fn peel<'a>(
    alloc: Global,
    making: &mut Making,
    peeling: &mut Peeling<'a>,
    links: &[Link],
    part: &'a Part,
    behind: &[&'a Part],
) -> Result<(), AllocError>
    requires { 1 ≤ length behind.now }
    ensures built { OnOk result ((w : Declared) → children_built w (map view_child peeling.new.children) (peels_built w (left_links peeling.new.used (map view_link links.now)) (part_list (map view_part_at behind.now)) peeling.new.rest.next (view_channels peeling.new.rest) (view_making making.new)) ≡ children_built w (map view_child peeling.old.children) (peels_built w (left_links peeling.old.used (map view_link links.now)) (part_then (view_part part.now).0 (view_part part.now).1 (part_list (map view_part_at behind.now))) peeling.old.rest.next (view_channels peeling.old.rest) (view_making making.old))) }
    ensures light { OnOk result (heaviest_child (map view_child peeling.new.children) ≡ heaviest_with (view_part part.now).1 (map view_child peeling.old.children)) }
{
    let name = link_name(alloc, links, &peeling.used, part, behind)?;
    let at = making.len();
    let child = divide(alloc, &mut peeling.rest, &name, part, at)?;
    making.push(Instr::Nil)?;
    peeling.used.add(alloc, &name)?;
    peeling.children.push(child)?;
    Ok(())
}

// The child of a peel with a link of this name, with its share of the channels; the others stay.
#[tactic(auto, using(crate::proofs::Peeled::dividing))]
fn divide<'a>(
    alloc: Global,
    rest: &mut Channels,
    name: &Name,
    part: &'a Part,
    at: usize,
) -> Result<Child<'a>, AllocError>
    ensures held { IfOk result (λ c. NumbersAlike (view_channels c.held) (child_held name.now (view_part part.now).0 rest.old.next (view_channels rest.old))) }
    ensures next { IfOk result (λ c. c.held.next ≡ suc rest.old.next) }
    ensures channel { IfOk result (λ c. c.channel ≡ rest.old.next) }
    ensures at { IfOk result (λ c. c.at ≡ at) }
    ensures side { IfOk result (λ c. c.side ≡ side_in (view_part part.now).0 name.now) }
    ensures part { IfOk result (λ c. c.part.now ≡ part.now) }
    ensures rest { OnOk result (NumbersAlike (view_channels rest.new) (rest_held name.now (view_part part.now).0 rest.old.next (view_channels rest.old))) }
    ensures rest_next { OnOk result (rest.new.next ≡ suc rest.old.next) }
{
    let names = header_names(alloc, part)?;
    let channel = rest.next;
    let held = share(alloc, rest, &names, true, name)?;
    let others = share(alloc, rest, &names, false, name)?;
    *rest = others;
    Ok(Child {
        at,
        channel,
        side: side_in(part, name),
        part,
        held,
    })
}

// The channels whose names are in the set, or all others, with the link's.
#[tactic(auto, using(crate::proofs::Peeled::shares))]
fn share(
    alloc: Global,
    rest: &Channels,
    names: &NameSet,
    keep: bool,
    name: &Name,
) -> Result<Channels, AllocError>
    ensures held { IfOk result (λ c. NumbersAlike (view_channels c) ((name.now, rest.now.next) ∷ those (is_kept keep names.now) (view_channels rest.now))) }
    ensures next { IfOk result (λ c. c.next ≡ suc rest.now.next) }
{
    let mut share = rest.those(alloc, names, keep)?;
    share.come(alloc, name)?;
    Ok(share)
}

// The name of the first link of a part to those behind it that isn't peeled; no character where there is none.
fn link_name(
    alloc: Global,
    links: &[Link],
    used: &NameSet,
    part: &Part,
    behind: &[&Part],
) -> Result<Name, AllocError>
    ensures { IfOk result (λ name. name ≡ link_of (left_links used.now (map view_link links.now)) (view_part part.now).0 (part_list (map view_part_at behind.now))) }
{
    for i in 0..links.len() {
        let link = &links[i];
        let name = &link.name.name;
        if joins(name, used, part, behind) {
            return name.copy(alloc);
        }
    }
    Name::from_slice(alloc, &[])
}

// Whether a link of this name isn't peeled, and joins a part to those behind it.
fn joins(name: &Name, used: &NameSet, part: &Part, behind: &[&Part]) -> bool
    ensures { result ≡ (not (is_among name.now used.now) && (stands_in (view_part part.now).0 name.now && stands_among (part_list (map view_part_at behind.now)) name.now)) }
{
    !used.has(name) && (stands_in(part, name) && stands_among(behind, name))
}
