//! The rows of `fork`.
ghost use Rattle.std.specs.Prelude.{◌≡◌, true, false, None, IfOk, map};
ghost use Rattle.campl_tree.specs.View.{view_body, view_chan, view_decl};
ghost use Rattle.campl_types.specs.Held.{On};
ghost use Rattle.campl_types.specs.Names.{found};
ghost use Rattle.campl_linear.specs.Holding.{comes, those};
ghost use Rattle.campl_held.specs.Answered.{Answers};
ghost use Rattle.campl_held.specs.Slots.{view_held, is_kept};
ghost use Rattle.campl_rows.specs.Steps.{fork_holding, left_holding, right_holding};

use campl_free::free_names;
use campl_held::{Held, LinFault, two_new, used_to_fork};
use campl_names::{NameSet, World};
use campl_tree::{Body, ChanType, Ident, Place, Side};
use std::alloc::{AllocError, Global};

/// What both bodies of `fork x as y -> left, z -> right` hold: the first y and each other channel that is free in it, the
/// second z and the rest. x is given up.
///
/// # Errors
///
/// `NotHeld` (E40) at x, `WrongAction` (E42) at the command; `LeftOver` (E41) at y where its name is held, or at z where
/// its name is held or y's. `OutOfMemory` where memory wants.
pub fn fork_stands(
    alloc: Global,
    world: &World,
    at: Place,
    x: &Ident,
    y: &Ident,
    left: &Body,
    z: &Ident,
    held: Held,
) -> Result<(Held, Held), LinFault>
    ensures { Answers (λ p. (view_held p.0, view_held p.1)) (fork_holding (map view_decl world.now) at x.now y.now (view_body left.now) z.now (view_held held)) result }
{
    let mut held = held;
    let halves = match used_to_fork(alloc, world, at, x, &held) {
        Ok(halves) => halves,
        Err(fault) => return Err(fault),
    };
    let side = halves.channel.side;
    let Ok(first) = halves.first.copy(alloc) else {
        return Err(LinFault::OutOfMemory);
    };
    let Ok(second) = halves.second.copy(alloc) else {
        return Err(LinFault::OutOfMemory);
    };
    held.give_up(&x.name);
    match two_new(alloc, y, z, &held) {
        Ok(()) => {}
        Err(fault) => return Err(fault),
    }
    let y = NewEnd {
        name: y,
        side,
        channel_type: &first,
    };
    let z = NewEnd {
        name: z,
        side,
        channel_type: &second,
    };
    match divide(alloc, left, y, z, &held) {
        Ok(shares) => Ok(shares),
        Err(_) => Err(LinFault::OutOfMemory),
    }
}

/// An end that comes to a body, which holds it on the side with the type.
#[derive(Clone, Copy)]
struct NewEnd<'a> {
    name: &'a Ident,
    side: Side,
    channel_type: &'a ChanType,
}

/// Divides what is held by the names that are free in the first body, where both ends are new.
fn divide(
    alloc: Global,
    left: &Body,
    y: NewEnd<'_>,
    z: NewEnd<'_>,
    held: &Held,
) -> Result<(Held, Held), AllocError>
    requires { (found y.name.now.name (view_held held.now) ≡ None) × (found z.name.now.name (view_held held.now) ≡ None) }
    ensures left { IfOk result (λ p. view_held p.0 ≡ left_holding y.entry.name.now.name (On y.entry.side (view_chan y.entry.channel_type.now)) (view_body left.now) (view_held held.now)) }
    ensures right { IfOk result (λ p. view_held p.1 ≡ right_holding z.entry.name.now.name (On z.entry.side (view_chan z.entry.channel_type.now)) (view_body left.now) (view_held held.now)) }
{
    match free_names(alloc, left) {
        Ok(free) => shares(alloc, &free, y, z, held),
        Err(_) => Err(AllocError),
    }
}

/// The channels of these names with the first end, and the others with the second.
fn shares(
    alloc: Global,
    free: &NameSet,
    y: NewEnd<'_>,
    z: NewEnd<'_>,
    held: &Held,
) -> Result<(Held, Held), AllocError>
    requires { (found y.name.now.name (view_held held.now) ≡ None) × (found z.name.now.name (view_held held.now) ≡ None) }
    ensures left { IfOk result (λ p. view_held p.0 ≡ comes y.entry.name.now.name (On y.entry.side (view_chan y.entry.channel_type.now)) (those (is_kept true free.now) (view_held held.now))) }
    ensures right { IfOk result (λ p. view_held p.1 ≡ comes z.entry.name.now.name (On z.entry.side (view_chan z.entry.channel_type.now)) (those (is_kept false free.now) (view_held held.now))) }
{
    let mine = match share(alloc, free, true, y, held) {
        Ok(mine) => mine,
        Err(_) => return Err(AllocError),
    };
    match share(alloc, free, false, z, held) {
        Ok(others) => Ok((mine, others)),
        Err(_) => Err(AllocError),
    }
}

/// The channels of these names, or the others, and a new end.
fn share(
    alloc: Global,
    free: &NameSet,
    keep: bool,
    end: NewEnd<'_>,
    held: &Held,
) -> Result<Held, AllocError>
    requires { found end.name.now.name (view_held held.now) ≡ None }
    ensures { IfOk result (λ h. view_held h ≡ comes end.entry.name.now.name (On end.entry.side (view_chan end.entry.channel_type.now)) (those (is_kept keep free.now) (view_held held.now))) }
{
    let Ok(mut own) = held.those(alloc, free, keep) else {
        return Err(AllocError);
    };
    let Ok(channel_type) = end.channel_type.copy(alloc) else {
        return Err(AllocError);
    };
    match own.come(alloc, &end.name.name, end.side, channel_type) {
        Ok(()) => Ok(own),
        Err(_) => Err(AllocError),
    }
}
