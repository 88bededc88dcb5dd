//! The rows of `race`.
ghost use Rattle.std.specs.Prelude.{◌≡◌, [], OnOk, length, map};
ghost use Rattle.campl_tree.specs.View.{view_body, view_branch, branches, view_decl};
ghost use Rattle.campl_names.specs.NameSet.{with_name};
ghost use Rattle.campl_seqcheck.specs.Judged.{fine};
ghost use Rattle.campl_linear.specs.Rows as definition;
ghost use Rattle.campl_held.specs.Answered.{Answers};
ghost use Rattle.campl_held.specs.Slots.{view_channel, view_held};
ghost use Rattle.campl_rows.specs.Steps.{race_stands, branch_begins};

use crate::receipt::receipt_of;
use campl_held::{Held, HeldChannel, LinFault, find_held};
use campl_names::{NameSet, World};
use campl_tree::{Body, Branch, Ident, Name, Place};
use std::alloc::Global;

/// Whether a `race` has 2 to 16 rows, each on a held channel that no row before names, and the row's body begins with the
/// receipt at which the channel is.
///
/// # Errors
///
/// `RaceForm` (E48) at the command for another number of rows; at a row's channel `NotHeld` (E40), and `RaceForm` where the
/// body begins otherwise or a row before names the channel. `OutOfMemory` where memory wants.
#[tactic(auto, using(crate::proofs::Listed::counted))]
pub fn race_stands(
    alloc: Global,
    world: &World,
    at: Place,
    rows: &[Branch],
    held: &Held,
) -> Result<(), LinFault>
    ensures { Answers (λ _. fine) (race_stands (map view_decl world.now) at (branches (map view_branch rows.now)) (view_held held.now)) result }
{
    match branch_count(at, rows.len()) {
        Ok(()) => branches_begin(alloc, world, rows, held),
        Err(fault) => Err(fault),
    }
}

/// Refuses a number of rows that isn't from 2 to 16.
fn branch_count(at: Place, number: usize) -> Result<(), LinFault>
    ensures { Answers (λ _. fine) (definition.branch_count at number) result }
{
    if 2 <= number && number <= 16 {
        Ok(())
    } else {
        Err(LinFault::RaceForm(at))
    }
}

/// Whether each row begins with the receipt at which its channel is, on a channel that no row before names.
fn branches_begin(
    alloc: Global,
    world: &World,
    rows: &[Branch],
    held: &Held,
) -> Result<(), LinFault>
    ensures { Answers (λ _. fine) (definition.branches_begin (map view_decl world.now) (view_held held.now) [] (branches (map view_branch rows.now))) result }
{
    let mut before = NameSet::new(alloc);
    for i in 0..rows.len() {
        match branch_begins(alloc, world, &rows[i], held, &mut before) {
            Ok(()) => {}
            Err(fault) => return Err(fault),
        }
    }
    Ok(())
}

/// Whether a row begins so. Its channel is one that a row names from now on.
#[tactic(auto, using(crate::proofs::Listed::branch))]
fn branch_begins(
    alloc: Global,
    world: &World,
    row: &Branch,
    held: &Held,
    before: &mut NameSet,
) -> Result<(), LinFault>
    ensures judged { Answers (λ _. fine) (branch_begins (map view_decl world.now) (view_held held.now) before.old (view_branch row.now)) result }
    ensures added { OnOk result (before.new ≡ with_name (view_branch row.now).0.name before.old) }
{
    let channel = match find_held(alloc, &row.channel, held) {
        Ok(channel) => channel,
        Err(fault) => return Err(fault),
    };
    begins(alloc, world, &row.channel, &row.body, channel, before)
}

/// The same, where the channel is found.
fn begins(
    alloc: Global,
    world: &World,
    x: &Ident,
    body: &Body,
    channel: &HeldChannel,
    before: &mut NameSet,
) -> Result<(), LinFault>
    ensures judged { Answers (λ _. fine) (definition.begins (map view_decl world.now) x.now (view_body body.now) before.old (view_channel channel.now)) result }
    ensures added { OnOk result (before.new ≡ with_name x.now.name before.old) }
{
    if before.has(&x.name) {
        return Err(LinFault::RaceForm(x.place));
    }
    if !begins_with(world, channel, &x.name, body) {
        return Err(LinFault::RaceForm(x.place));
    }
    match before.add(alloc, &x.name) {
        Ok(()) => Ok(()),
        Err(_) => Err(LinFault::OutOfMemory),
    }
}

/// Whether a body begins with the receipt at which the channel of this name is.
#[tactic(auto, using(crate::proofs::Received::beginning))]
fn begins_with(world: &World, channel: &HeldChannel, x: &Name, body: &Body) -> bool
    ensures { result ≡ definition.begins_with (definition.deed_of (map view_decl world.now) (view_channel channel.now)) x.now (view_body body.now) }
{
    let act = world.allowed(&channel.channel_type, channel.side);
    receipt_of(body).is_at(act, x)
}
