//! What the bodies of a `fork` hold.
ghost use Rattle.std.specs.Prelude.{◌≡◌, ◌∷◌, IfOk, suc, true, false};
ghost use Rattle.campl_tree.specs.View.{view_branch};
ghost use Rattle.campl_peel.specs.Terms.{those};
ghost use Rattle.campl_code_bodies.specs.Bodies.{without};
ghost use Rattle.campl_gen_channels.specs.Numbers.{NumbersAlike};
ghost use Rattle.campl_gen_channels.specs.View.{view_channels, is_kept};
ghost use Rattle.campl_gen_bodies.specs.Commands.{first_held, second_held};

use campl_free::free_names;
use campl_gen_channels::Channels;
use campl_names::NameSet;
use campl_tree::{Branch, Ident, Name};
use std::alloc::{AllocError, Global};

/// The channels of the process and of its child behind a `fork`.
#[derive(Drop)]
pub(crate) struct Halves {
    pub(crate) first: Channels,
    pub(crate) second: Channels,
}

/// Divides channels at a `fork`: each other one goes to the first body where it is free there, and to the second otherwise. Each
/// body has a new one.
///
/// # Errors
///
/// `AllocError` where memory wants, or where a number is 2^32 or more.
pub(crate) fn divide(
    alloc: Global,
    held: &Channels,
    x: &Ident,
    left: &Branch,
    right: &Branch,
) -> Result<Halves, AllocError>
    ensures first { IfOk result (λ h. NumbersAlike (view_channels h.first) (first_held x.now (view_branch left.now) held.now.next (view_channels held.now))) }
    ensures second { IfOk result (λ h. NumbersAlike (view_channels h.second) (second_held x.now (view_branch left.now) (view_branch right.now) held.now.next (view_channels held.now))) }
    ensures first_next { IfOk result (λ h. h.first.next ≡ suc (suc held.now.next)) }
    ensures second_next { IfOk result (λ h. h.second.next ≡ suc (suc held.now.next)) }
{
    let free = free_names(alloc, &left.body)?;
    let first = first_half(alloc, held, &free, &x.name, &left.channel.name)?;
    let second = second_half(alloc, held, &free, &x.name, &right.channel.name)?;
    Ok(Halves { first, second })
}

/// The number behind the next one, which the child's channel has.
///
/// # Errors
///
/// `AllocError` where it would be 2^32.
pub(crate) fn second_number(held: &Channels) -> Result<u32, AllocError>
    ensures { IfOk result (λ n. n ≡ suc held.now.next) }
{
    match held.next.checked_add(1) {
        Some(second) => Ok(second),
        None => Err(AllocError),
    }
}

// The channels of these names but the one that is divided, and its first half with the next number.
#[tactic(auto, using(crate::proofs::Divided::divided))]
fn first_half(
    alloc: Global,
    held: &Channels,
    free: &NameSet,
    x: &Name,
    y: &Name,
) -> Result<Channels, AllocError>
    ensures half { IfOk result (λ h. NumbersAlike (view_channels h) ((y.now, held.now.next) ∷ those (is_kept true free.now) (without x.now (view_channels held.now)))) }
    ensures next { IfOk result (λ h. h.next ≡ suc (suc held.now.next)) }
{
    let mut half = held.those(alloc, free, true)?;
    half.remove(x);
    half.come(alloc, y)?;
    half.skip()?;
    Ok(half)
}

// The other channels, and the second half with the number behind that.
#[tactic(auto, using(crate::proofs::Divided::divided))]
fn second_half(
    alloc: Global,
    held: &Channels,
    free: &NameSet,
    x: &Name,
    z: &Name,
) -> Result<Channels, AllocError>
    ensures half { IfOk result (λ h. NumbersAlike (view_channels h) ((z.now, suc held.now.next) ∷ those (is_kept false free.now) (without x.now (view_channels held.now)))) }
    ensures next { IfOk result (λ h. h.next ≡ suc (suc held.now.next)) }
{
    let mut half = held.those(alloc, free, false)?;
    half.remove(x);
    half.skip()?;
    half.come(alloc, z)?;
    Ok(half)
}
