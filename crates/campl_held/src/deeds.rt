//! The polarity table: what a channel's type lets a process do.
ghost use Rattle.std.specs.Prelude.{◌≡◌, IfOk, map, option_map};
ghost use Rattle.campl_tree.specs.View.{view_chan, view_seq, view_decl};
ghost use Rattle.campl_tree.specs.declared.service.Side.TheVariants.{Input, Output};
ghost use Rattle.campl_types.specs.Polarity.{deed, of_named};
ghost use Rattle.campl_types.specs.World.{type_named};
ghost use Rattle.campl_linear.specs.Channels.{to_put, to_get, to_pick, to_end, to_split, to_fork, to_offer};
ghost use Rattle.campl_held.specs.Asked.{view_allowed, view_two, view_end, view_pair};
ghost use Rattle.campl_held.specs.Chosen.{view_choices, ChoicesAreDeclared};

use crate::choices::Constructors;
use campl_names::{TypeRef, World};
use campl_tree::{ChanType, Name, SeqType, Side};
use std::alloc::{AllocError, Global};

/// The entry of the polarity table, with what stands in the type.
#[derive(Clone, Copy)]
pub enum Allowed<'a> {
    /// A value of the type is sent, and then the channel goes on.
    Puts(&'a SeqType, &'a ChanType),
    /// A value of the type is received, and then the channel goes on.
    Gets(&'a SeqType, &'a ChanType),
    Forks(&'a ChanType, &'a ChanType),
    Splits(&'a ChanType, &'a ChanType),
    /// One of the constructors is sent.
    Picks(Constructors<'a>),
    /// One of the constructors is received.
    Offers(Constructors<'a>),
    Ends,
    /// An identity alone: behind `Neg`, and at a name of no protocol or coprotocol.
    Linked,
}

/// The entry at a type that is held on a side.
pub fn entry_at<'a>(world: &World, t: &'a ChanType, side: Side) -> Allowed<'a>
    ensures { deed (map view_decl world.now) side (view_chan t.now) ≡ view_allowed (map view_decl world.now) result }
{
    match side {
        Side::Output => on_output(world, t),
        Side::Input => on_input(world, t),
    }
}

/// The entry at a type on the output side.
#[tactic(auto, using(crate::proofs::Entries::deeds))]
fn on_output<'a>(world: &World, t: &'a ChanType) -> Allowed<'a>
    ensures { deed (map view_decl world.now) Output (view_chan t.now) ≡ view_allowed (map view_decl world.now) result }
{
    match t {
        ChanType::Put(value, rest) => Allowed::Puts(value, rest.get()),
        ChanType::Get(value, rest) => Allowed::Gets(value, rest.get()),
        ChanType::Tensor(first, second) => Allowed::Forks(first.get(), second.get()),
        ChanType::Par(first, second) => Allowed::Splits(first.get(), second.get()),
        ChanType::TopBot => Allowed::Ends,
        ChanType::Neg(_) => Allowed::Linked,
        ChanType::Named(_, name, arguments) => named_on_output(world, name, arguments.as_slice()),
    }
}

/// The entry at a type on the input side.
#[tactic(auto, using(crate::proofs::Entries::deeds))]
fn on_input<'a>(world: &World, t: &'a ChanType) -> Allowed<'a>
    ensures { deed (map view_decl world.now) Input (view_chan t.now) ≡ view_allowed (map view_decl world.now) result }
{
    match t {
        ChanType::Put(value, rest) => Allowed::Gets(value, rest.get()),
        ChanType::Get(value, rest) => Allowed::Puts(value, rest.get()),
        ChanType::Tensor(first, second) => Allowed::Splits(first.get(), second.get()),
        ChanType::Par(first, second) => Allowed::Forks(first.get(), second.get()),
        ChanType::TopBot => Allowed::Ends,
        ChanType::Neg(_) => Allowed::Linked,
        ChanType::Named(_, name, arguments) => named_on_input(world, name, arguments.as_slice()),
    }
}

/// The entry at a named type on the output side.
fn named_on_output<'a>(world: &World, name: &'a Name, arguments: &'a [SeqType]) -> Allowed<'a>
    ensures { of_named (type_named (map view_decl world.now) name.now) Output (map view_seq arguments.now) ≡ view_allowed (map view_decl world.now) result }
{
    match world.type_named(name) {
        Some(TypeRef::Protocol(_)) => Allowed::Picks(Constructors { name, arguments }),
        Some(TypeRef::Coprotocol(_)) => Allowed::Offers(Constructors { name, arguments }),
        Some(TypeRef::Data(_)) => Allowed::Linked,
        None => Allowed::Linked,
    }
}

/// The entry at a named type on the input side.
fn named_on_input<'a>(world: &World, name: &'a Name, arguments: &'a [SeqType]) -> Allowed<'a>
    ensures { of_named (type_named (map view_decl world.now) name.now) Input (map view_seq arguments.now) ≡ view_allowed (map view_decl world.now) result }
{
    match world.type_named(name) {
        Some(TypeRef::Protocol(_)) => Allowed::Offers(Constructors { name, arguments }),
        Some(TypeRef::Coprotocol(_)) => Allowed::Picks(Constructors { name, arguments }),
        Some(TypeRef::Data(_)) => Allowed::Linked,
        None => Allowed::Linked,
    }
}

/// The value's type and what remains, where a value is sent.
pub fn sent<'a>(world: &World, t: &'a ChanType, side: Side) -> Option<(&'a SeqType, &'a ChanType)>
    ensures { view_two result ≡ to_put (deed (map view_decl world.now) side (view_chan t.now)) }
{
    match entry_at(world, t, side) {
        Allowed::Puts(value, rest) => Some((value, rest)),
        Allowed::Gets(_, _) => None,
        Allowed::Forks(_, _) => None,
        Allowed::Splits(_, _) => None,
        Allowed::Picks(_) => None,
        Allowed::Offers(_) => None,
        Allowed::Ends => None,
        Allowed::Linked => None,
    }
}

/// The value's type and what remains, where a value is received.
pub fn received<'a>(
    world: &World,
    t: &'a ChanType,
    side: Side,
) -> Option<(&'a SeqType, &'a ChanType)>
    ensures { view_two result ≡ to_get (deed (map view_decl world.now) side (view_chan t.now)) }
{
    match entry_at(world, t, side) {
        Allowed::Gets(value, rest) => Some((value, rest)),
        Allowed::Puts(_, _) => None,
        Allowed::Forks(_, _) => None,
        Allowed::Splits(_, _) => None,
        Allowed::Picks(_) => None,
        Allowed::Offers(_) => None,
        Allowed::Ends => None,
        Allowed::Linked => None,
    }
}

/// The types of both halves, where the channel is split.
pub fn halved<'a>(
    world: &World,
    t: &'a ChanType,
    side: Side,
) -> Option<(&'a ChanType, &'a ChanType)>
    ensures { view_pair result ≡ to_split (deed (map view_decl world.now) side (view_chan t.now)) }
{
    match entry_at(world, t, side) {
        Allowed::Splits(first, second) => Some((first, second)),
        Allowed::Puts(_, _) => None,
        Allowed::Gets(_, _) => None,
        Allowed::Forks(_, _) => None,
        Allowed::Picks(_) => None,
        Allowed::Offers(_) => None,
        Allowed::Ends => None,
        Allowed::Linked => None,
    }
}

/// The types of both halves, where the process forks.
pub fn forked<'a>(
    world: &World,
    t: &'a ChanType,
    side: Side,
) -> Option<(&'a ChanType, &'a ChanType)>
    ensures { view_pair result ≡ to_fork (deed (map view_decl world.now) side (view_chan t.now)) }
{
    match entry_at(world, t, side) {
        Allowed::Forks(first, second) => Some((first, second)),
        Allowed::Puts(_, _) => None,
        Allowed::Gets(_, _) => None,
        Allowed::Splits(_, _) => None,
        Allowed::Picks(_) => None,
        Allowed::Offers(_) => None,
        Allowed::Ends => None,
        Allowed::Linked => None,
    }
}

/// The constructors, where one of them is received.
pub fn offered<'a>(world: &World, t: &'a ChanType, side: Side) -> Option<Constructors<'a>>
    ensures { option_map (view_choices (map view_decl world.now)) result ≡ to_offer (deed (map view_decl world.now) side (view_chan t.now)) }
{
    match entry_at(world, t, side) {
        Allowed::Offers(constructors) => Some(constructors),
        Allowed::Puts(_, _) => None,
        Allowed::Gets(_, _) => None,
        Allowed::Forks(_, _) => None,
        Allowed::Splits(_, _) => None,
        Allowed::Picks(_) => None,
        Allowed::Ends => None,
        Allowed::Linked => None,
    }
}

/// Whether the channel may end.
pub fn ended(world: &World, t: &ChanType, side: Side) -> Option<()>
    ensures { view_end result ≡ to_end (deed (map view_decl world.now) side (view_chan t.now)) }
{
    match entry_at(world, t, side) {
        Allowed::Ends => Some(()),
        Allowed::Puts(_, _) => None,
        Allowed::Gets(_, _) => None,
        Allowed::Forks(_, _) => None,
        Allowed::Splits(_, _) => None,
        Allowed::Picks(_) => None,
        Allowed::Offers(_) => None,
        Allowed::Linked => None,
    }
}

/// The type that remains behind a constructor, where it may be sent.
///
/// # Errors
///
/// `AllocError` for want of memory.
pub fn picked(
    alloc: Global,
    world: &World,
    t: &ChanType,
    side: Side,
    constructor: &Name,
) -> Result<Option<ChanType>, AllocError>
    requires { ChoicesAreDeclared (map view_decl world.now) }
    ensures { IfOk result (λ u. option_map view_chan u ≡ to_pick constructor.now (deed (map view_decl world.now) side (view_chan t.now))) }
{
    match entry_at(world, t, side) {
        Allowed::Picks(constructors) => constructors.remains(alloc, world, constructor),
        Allowed::Puts(_, _) => Ok(None),
        Allowed::Gets(_, _) => Ok(None),
        Allowed::Forks(_, _) => Ok(None),
        Allowed::Splits(_, _) => Ok(None),
        Allowed::Offers(_) => Ok(None),
        Allowed::Ends => Ok(None),
        Allowed::Linked => Ok(None),
    }
}
