//! Identity.
ghost use Rattle.std.specs.Prelude.{◌≡◌};
ghost use Rattle.campl_tree.specs.View.{view_chan};
ghost use Rattle.campl_tree.specs.Plain.ChanType.{Neg};
ghost use Rattle.campl_types.specs.SameTest as test;
ghost use Rattle.campl_seqcheck.specs.Judged.{fine};
ghost use Rattle.campl_linear.specs.Channels as definition;
ghost use Rattle.campl_linear.specs.Faults as plain;
ghost use Rattle.campl_held.specs.Answered.{Answers, Tells};
ghost use Rattle.campl_held.specs.Slots.{view_channel, view_held};
ghost use Rattle.campl_calls.specs.Identities.{identified};

use crate::sides::same_side;
use campl_held::{Held, HeldChannel, LinFault, find_held, none_left};
use campl_names::same_chan;
use campl_tree::{ChanType, Ident, Name, Place};
use std::alloc::Global;

/// Judges `x |=| y`, or `x |=| neg y` where `negated` says so, for a process that holds these channels. The place is
/// that of `x`.
///
/// # Errors
///
/// `NotHeld` (E40) of the first of both that isn't held, `LeftOver` (E41) of the first other channel that is held, and
/// `IdentityType` (E49) where both are one channel or don't fit together: without `neg` they have one type on opposite
/// sides, with it x has the type `Neg(T)` and y the type T on the same side. `OutOfMemory` where memory wants.
pub fn identity(
    alloc: Global,
    held: Held,
    at: Place,
    x: &Name,
    negated: bool,
    y: &Ident,
) -> Result<(), LinFault>
    ensures { Answers (λ _. fine) (identified at (view_held held) x.now negated y.now) result }
{
    let mut held = held;
    let c = match channel_of(alloc, &held, at, x) {
        Ok(c) => c,
        Err(fault) => return Err(fault),
    };
    let d = match find_held(alloc, y, &held) {
        Ok(d) => d,
        Err(fault) => return Err(fault),
    };
    let fit = *x != y.name && fit_together(negated, c, d);
    held.give_up(x);
    held.give_up(&y.name);
    match none_left(alloc, at, &held) {
        Ok(()) => {}
        Err(fault) => return Err(fault),
    }
    if fit {
        Ok(())
    } else {
        Err(LinFault::IdentityType(at))
    }
}

/// The held channel of a name that stands at a place.
#[tactic(auto, using(campl_held::proofs::Told::refused, campl_held::proofs::Entries::holding))]
fn channel_of<'a>(
    alloc: Global,
    held: &'a Held,
    at: Place,
    name: &Name,
) -> Result<&'a HeldChannel, LinFault>
    ensures { Answers (λ c. view_channel c.now) (definition.held_at (record { place = at; name = name.now }) (view_held held.now)) result }
{
    match held.find(name) {
        Some(channel) => Ok(channel),
        None => Err(not_held(alloc, at, name)),
    }
}

/// That the name at this place is of no channel that is held.
fn not_held(alloc: Global, at: Place, name: &Name) -> LinFault
    ensures { Tells (plain.NotHeld at name.now) result }
{
    match name.copy(alloc) {
        Ok(name) => LinFault::NotHeld(at, name),
        Err(_) => LinFault::OutOfMemory,
    }
}

/// Whether two channels have one type on opposite sides, or with `neg` the types `Neg(T)` and T on one side.
fn fit_together(negated: bool, c: &HeldChannel, d: &HeldChannel) -> bool
    ensures { result ≡ definition.fit_together negated (view_channel c.now) (view_channel d.now) }
{
    if negated {
        same_side(d.side, c.side) && is_negation(&c.channel_type, &d.channel_type)
    } else {
        same_side(d.side, c.side.other()) && same_chan(&c.channel_type, &d.channel_type)
    }
}

/// Whether the first type is `Neg(T)`, and the second T.
#[tactic(auto, using(campl_tree::proofs::Views::chan_views))]
fn is_negation(t: &ChanType, u: &ChanType) -> bool
    ensures { result ≡ test.same_chan (view_chan t.now) (Neg (view_chan u.now)) }
{
    match t {
        ChanType::Neg(inner) => same_chan(inner.get(), u),
        ChanType::Put(_, _) => false,
        ChanType::Get(_, _) => false,
        ChanType::Tensor(_, _) => false,
        ChanType::Par(_, _) => false,
        ChanType::TopBot => false,
        ChanType::Named(_, _, _) => false,
    }
}
