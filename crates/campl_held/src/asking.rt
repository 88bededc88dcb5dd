//! What a command asks of the channel that it names: held, and at its own entry of the polarity table.
ghost use Rattle.std.specs.Prelude.{map};
ghost use Rattle.campl_tree.specs.View.{view_chan, view_decl};
ghost use Rattle.campl_linear.specs.Channels.{held_at, used, to_put, to_get, to_pick, to_end, to_split, to_fork, to_offer};
ghost use Rattle.campl_linear.specs.Rows.{row_type};
ghost use Rattle.campl_held.specs.Answered.{Answers};
ghost use Rattle.campl_held.specs.Asked.{view_message, view_ending, view_halves, view_pick, view_offer};
ghost use Rattle.campl_held.specs.Chosen.{ChoicesAreDeclared};
ghost use Rattle.campl_held.specs.Slots.{view_channel, view_held};

use crate::channel::HeldChannel;
use crate::deeds::{ended, forked, halved, offered, picked, received, sent};
use crate::fault::LinFault;
use crate::held::Held;
use crate::telling::{not_held, wrong_action};
use crate::used::{Halves, Message, Offer, Pick};
use campl_names::World;
use campl_tree::{ChanType, Ident, Name, Place};
use std::alloc::Global;

/// The channel of this name.
///
/// # Errors
///
/// `NotHeld` (E40) at the name; `OutOfMemory` where memory wants to tell it.
#[tactic(auto, using(crate::proofs::Told::refused, crate::proofs::Entries::holding))]
pub fn find_held<'a>(alloc: Global, x: &Ident, held: &'a Held) -> Result<&'a HeldChannel, LinFault>
    ensures { Answers (λ c. view_channel c.now) (held_at x.now (view_held held.now)) result }
{
    match held.find(&x.name) {
        Some(channel) => Ok(channel),
        None => Err(not_held(alloc, x)),
    }
}

/// The channel, where a value may be sent.
///
/// # Errors
///
/// `NotHeld` (E40) at the name, `WrongAction` (E42) at the command, or `OutOfMemory` where memory wants to tell it.
pub fn used_to_put<'a>(
    alloc: Global,
    world: &World,
    at: Place,
    x: &Ident,
    held: &'a Held,
) -> Result<Message<'a>, LinFault>
    ensures { Answers view_message (used (map view_decl world.now) at x.now to_put (view_held held.now)) result }
{
    let channel = match find_held(alloc, x, held) {
        Ok(channel) => channel,
        Err(fault) => return Err(fault),
    };
    match sent(world, &channel.channel_type, channel.side) {
        Some(parts) => Ok(Message {
            channel,
            value: parts.0,
            rest: parts.1,
        }),
        None => Err(wrong_action(alloc, at, &x.name, channel)),
    }
}

/// The channel, where a value may be received.
///
/// # Errors
///
/// As of [`used_to_put`].
pub fn used_to_get<'a>(
    alloc: Global,
    world: &World,
    at: Place,
    x: &Ident,
    held: &'a Held,
) -> Result<Message<'a>, LinFault>
    ensures { Answers view_message (used (map view_decl world.now) at x.now to_get (view_held held.now)) result }
{
    let channel = match find_held(alloc, x, held) {
        Ok(channel) => channel,
        Err(fault) => return Err(fault),
    };
    match received(world, &channel.channel_type, channel.side) {
        Some(parts) => Ok(Message {
            channel,
            value: parts.0,
            rest: parts.1,
        }),
        None => Err(wrong_action(alloc, at, &x.name, channel)),
    }
}

/// The channel, where this constructor may be sent, with the type that remains.
///
/// # Errors
///
/// As of [`used_to_put`]; `WrongAction` also where the constructor is one of another type. `OutOfMemory` where
/// memory wants for the type that remains.
pub fn used_to_pick<'a>(
    alloc: Global,
    world: &World,
    at: Place,
    constructor: &Name,
    x: &Ident,
    held: &'a Held,
) -> Result<Pick<'a>, LinFault>
    requires { ChoicesAreDeclared (map view_decl world.now) }
    ensures { Answers view_pick (used (map view_decl world.now) at x.now (to_pick constructor.now) (view_held held.now)) result }
{
    let channel = match find_held(alloc, x, held) {
        Ok(channel) => channel,
        Err(fault) => return Err(fault),
    };
    match picked(
        alloc,
        world,
        &channel.channel_type,
        channel.side,
        constructor,
    ) {
        Ok(Some(rest)) => Ok(Pick { channel, rest }),
        Ok(None) => Err(wrong_action(alloc, at, &x.name, channel)),
        Err(_) => Err(LinFault::OutOfMemory),
    }
}

/// The channel, where constructors are offered.
///
/// # Errors
///
/// As of [`used_to_put`].
pub fn used_to_offer<'a>(
    alloc: Global,
    world: &World,
    at: Place,
    x: &Ident,
    held: &'a Held,
) -> Result<Offer<'a>, LinFault>
    ensures { Answers (view_offer (map view_decl world.now)) (used (map view_decl world.now) at x.now to_offer (view_held held.now)) result }
{
    let channel = match find_held(alloc, x, held) {
        Ok(channel) => channel,
        Err(fault) => return Err(fault),
    };
    match offered(world, &channel.channel_type, channel.side) {
        Some(constructors) => Ok(Offer {
            channel,
            constructors,
        }),
        None => Err(wrong_action(alloc, at, &x.name, channel)),
    }
}

/// The channel, where it may be split.
///
/// # Errors
///
/// As of [`used_to_put`].
pub fn used_to_split<'a>(
    alloc: Global,
    world: &World,
    at: Place,
    x: &Ident,
    held: &'a Held,
) -> Result<Halves<'a>, LinFault>
    ensures { Answers view_halves (used (map view_decl world.now) at x.now to_split (view_held held.now)) result }
{
    let channel = match find_held(alloc, x, held) {
        Ok(channel) => channel,
        Err(fault) => return Err(fault),
    };
    match halved(world, &channel.channel_type, channel.side) {
        Some(parts) => Ok(Halves {
            channel,
            first: parts.0,
            second: parts.1,
        }),
        None => Err(wrong_action(alloc, at, &x.name, channel)),
    }
}

/// The channel, where a process may fork.
///
/// # Errors
///
/// As of [`used_to_put`].
pub fn used_to_fork<'a>(
    alloc: Global,
    world: &World,
    at: Place,
    x: &Ident,
    held: &'a Held,
) -> Result<Halves<'a>, LinFault>
    ensures { Answers view_halves (used (map view_decl world.now) at x.now to_fork (view_held held.now)) result }
{
    let channel = match find_held(alloc, x, held) {
        Ok(channel) => channel,
        Err(fault) => return Err(fault),
    };
    match forked(world, &channel.channel_type, channel.side) {
        Some(parts) => Ok(Halves {
            channel,
            first: parts.0,
            second: parts.1,
        }),
        None => Err(wrong_action(alloc, at, &x.name, channel)),
    }
}

/// The channel, where it may end.
///
/// # Errors
///
/// As of [`used_to_put`].
pub fn used_to_end<'a>(
    alloc: Global,
    world: &World,
    at: Place,
    x: &Ident,
    held: &'a Held,
) -> Result<&'a HeldChannel, LinFault>
    ensures { Answers view_ending (used (map view_decl world.now) at x.now to_end (view_held held.now)) result }
{
    let channel = match find_held(alloc, x, held) {
        Ok(channel) => channel,
        Err(fault) => return Err(fault),
    };
    match ended(world, &channel.channel_type, channel.side) {
        Some(()) => Ok(channel),
        None => Err(wrong_action(alloc, at, &x.name, channel)),
    }
}

/// The type that remains in a row of `hcase`, whose constructor is one of those that are offered.
///
/// # Errors
///
/// `WrongAction` (E42) at the row's constructor, where it is another; `OutOfMemory` for want of memory.
pub fn row_type(
    alloc: Global,
    world: &World,
    constructor: &Ident,
    x: &Name,
    offer: Offer<'_>,
) -> Result<ChanType, LinFault>
    requires { ChoicesAreDeclared (map view_decl world.now) }
    ensures { Answers view_chan (row_type constructor.now x.now (view_offer (map view_decl world.now) offer.entry)) result }
{
    match offer.constructors.remains(alloc, world, &constructor.name) {
        Ok(Some(rest)) => Ok(rest),
        Ok(None) => Err(wrong_action(alloc, constructor.place, x, offer.channel)),
        Err(_) => Err(LinFault::OutOfMemory),
    }
}
