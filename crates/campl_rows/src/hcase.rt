//! The rows of `hcase`.
ghost use Rattle.std.specs.Prelude.{◌≡◌, [], IfOk, OnOk, map, slice_get};
ghost use Rattle.std.specs.Option.{option_copied};
ghost use Rattle.campl_tree.specs.View.{view_decl, view_hcase_row, hcase_rows};
ghost use Rattle.campl_names.specs.NameSet.{with_name, HaveSame};
ghost use Rattle.campl_seqcheck.specs.Judged.{fine};
ghost use Rattle.campl_linear.specs.Faults as plain;
ghost use Rattle.campl_linear.specs.Rows as definition;
ghost use Rattle.campl_held.specs.Answered.{Answers, Tells};
ghost use Rattle.campl_held.specs.Asked.{view_offer};
ghost use Rattle.campl_held.specs.Chosen.{view_choices, view_lines, ChoicesAreDeclared};
ghost use Rattle.campl_held.specs.Slots.{view_held};
ghost use Rattle.campl_rows.specs.Steps.{offers_stand, rows_stand, row_offered, row_holding};
ghost use Rattle.campl_rows.specs.Covered.{first_missing, missing_of};

use campl_held::{
    Constructors, Held, LinFault, Lines, Offer, row_type, used_to_offer, wrong_action,
};
use campl_names::{NameSet, World};
use campl_tree::{HcaseRow, Ident, Name, Place};
use std::alloc::Global;

/// What the channel of `hcase` offers, where each constructor has exactly one row.
///
/// # Errors
///
/// At the command `NotHeld` (E40, at the channel) and `WrongAction` (E42); at a row's constructor `WrongAction` where the
/// channel doesn't offer it, and `CaseTwice` (E47); at the command `CaseMissing` (E46) of the first constructor in
/// declared order that has no row, and `WrongAction` where there is no row at all. `OutOfMemory` where memory wants.
pub fn offers_stand<'a>(
    alloc: Global,
    world: &World,
    at: Place,
    x: &Ident,
    rows: &[HcaseRow],
    held: &'a Held,
) -> Result<Offer<'a>, LinFault>
    requires { ChoicesAreDeclared (map view_decl world.now) }
    ensures { Answers (view_offer (map view_decl world.now)) (offers_stand (map view_decl world.now) at x.now (hcase_rows (map view_hcase_row rows.now)) (view_held held.now)) result }
{
    let offer = match used_to_offer(alloc, world, at, x, held) {
        Ok(offer) => offer,
        Err(fault) => return Err(fault),
    };
    match rows_stand(alloc, world, at, &x.name, offer, rows) {
        Ok(()) => Ok(offer),
        Err(fault) => Err(fault),
    }
}

/// What the body of a row holds: all that the command does, where the channel goes on behind the row's constructor.
///
/// # Errors
///
/// `WrongAction` (E42) at the constructor, where the channel doesn't offer it; `OutOfMemory` where memory wants.
pub fn row_held(
    alloc: Global,
    world: &World,
    x: &Name,
    offer: Offer<'_>,
    constructor: &Ident,
    held: &Held,
) -> Result<Held, LinFault>
    requires { ChoicesAreDeclared (map view_decl world.now) }
    ensures { Answers (λ h. view_held h) (row_holding x.now (view_offer (map view_decl world.now) offer.entry) constructor.now (view_held held.now)) result }
{
    let Ok(mut own) = held.copy(alloc) else {
        return Err(LinFault::OutOfMemory);
    };
    let rest = match row_type(alloc, world, constructor, x, offer) {
        Ok(rest) => rest,
        Err(fault) => return Err(fault),
    };
    match own.go_on(alloc, x, offer.channel.side, rest) {
        Ok(()) => Ok(own),
        Err(_) => Err(LinFault::OutOfMemory),
    }
}

/// Whether each constructor that is offered has exactly one row.
fn rows_stand(
    alloc: Global,
    world: &World,
    at: Place,
    x: &Name,
    offer: Offer<'_>,
    rows: &[HcaseRow],
) -> Result<(), LinFault>
    requires { ChoicesAreDeclared (map view_decl world.now) }
    ensures { Answers (λ _. fine) (rows_stand at x.now (view_offer (map view_decl world.now) offer.entry) (hcase_rows (map view_hcase_row rows.now))) result }
{
    let names = match rows_offered(alloc, world, x, offer, rows) {
        Ok(names) => names,
        Err(fault) => return Err(fault),
    };
    match each_has_row(alloc, world, at, offer.constructors, &names) {
        Ok(()) => some_row(alloc, world, at, x, offer, rows),
        Err(fault) => Err(fault),
    }
}

/// The constructors of rows, each offered and in no row before.
fn rows_offered(
    alloc: Global,
    world: &World,
    x: &Name,
    offer: Offer<'_>,
    rows: &[HcaseRow],
) -> Result<NameSet, LinFault>
    requires { ChoicesAreDeclared (map view_decl world.now) }
    ensures judged { Answers (λ _. fine) (definition.rows_offered x.now (view_offer (map view_decl world.now) offer.entry) [] (hcase_rows (map view_hcase_row rows.now))) result }
    ensures names { IfOk result (λ names. HaveSame names (definition.row_names (hcase_rows (map view_hcase_row rows.now)))) }
{
    let mut before = NameSet::new(alloc);
    for i in 0..rows.len() {
        match row_offered(alloc, world, x, offer, &rows[i], &mut before) {
            Ok(()) => {}
            Err(fault) => return Err(fault),
        }
    }
    Ok(before)
}

/// Whether a row's constructor is offered and in no row before, of which it is one from now on.
#[tactic(auto, using(crate::proofs::Listed::hcase_row))]
fn row_offered(
    alloc: Global,
    world: &World,
    x: &Name,
    offer: Offer<'_>,
    row: &HcaseRow,
    before: &mut NameSet,
) -> Result<(), LinFault>
    requires { ChoicesAreDeclared (map view_decl world.now) }
    ensures judged { Answers (λ _. fine) (row_offered x.now (view_offer (map view_decl world.now) offer.entry) before.old (view_hcase_row row.now).0) result }
    ensures added { OnOk result (before.new ≡ with_name (view_hcase_row row.now).0.name before.old) }
{
    match row_type(alloc, world, &row.constructor, x, offer) {
        Ok(_) => {}
        Err(fault) => return Err(fault),
    }
    first_row(alloc, &row.constructor, before)
}

/// Refuses a constructor that has a row before, and puts it among those that have one.
#[tactic(auto, using(crate::proofs::Listed::first))]
fn first_row(alloc: Global, constructor: &Ident, before: &mut NameSet) -> Result<(), LinFault>
    ensures judged { Answers (λ _. fine) (definition.first_row constructor.now before.old) result }
    ensures added { OnOk result (before.new ≡ with_name constructor.now.name before.old) }
{
    if before.has(&constructor.name) {
        return Err(case_twice(alloc, constructor));
    }
    match before.add(alloc, &constructor.name) {
        Ok(()) => Ok(()),
        Err(_) => Err(LinFault::OutOfMemory),
    }
}

/// That the constructor has a second row (E47), or that memory wants.
fn case_twice(alloc: Global, constructor: &Ident) -> LinFault
    ensures { Tells (plain.CaseTwice constructor.now.place constructor.now.name) result }
{
    match constructor.name.copy(alloc) {
        Ok(name) => LinFault::CaseTwice(constructor.place, name),
        Err(_) => LinFault::OutOfMemory,
    }
}

/// Refuses the first constructor without a row.
#[tactic(auto, using(crate::proofs::Covered::covered))]
fn each_has_row<'a>(
    alloc: Global,
    world: &'a World,
    at: Place,
    constructors: Constructors<'a>,
    names: &NameSet,
) -> Result<(), LinFault>
    ensures { Answers (λ _. fine) (definition.each_has_row at (view_choices (map view_decl world.now) constructors.entry) names.now) result }
{
    match first_missing(constructors.lines(world), names) {
        None => Ok(()),
        Some(constructor) => Err(case_missing(alloc, at, constructor)),
    }
}

/// The first constructor that isn't among these names.
fn first_missing<'a>(lines: Lines<'a>, names: &NameSet) -> Option<&'a Name>
    ensures { option_copied result ≡ first_missing (view_lines lines.entry) names.now }
{
    for number in 0..lines.len() {
        match missing_at(lines, number, names) {
            Some(constructor) => return Some(constructor),
            None => {}
        }
    }
    None
}

/// The constructor of a line, counted from 0, where it isn't among these names.
fn missing_at<'a>(lines: Lines<'a>, number: usize, names: &NameSet) -> Option<&'a Name>
    ensures { option_copied result ≡ missing_of (slice_get (view_lines lines.entry) number) names.now }
{
    let constructor = lines.name(number)?;
    if names.has(constructor) {
        None
    } else {
        Some(constructor)
    }
}

/// That the constructor has no row (E46), or that memory wants.
fn case_missing(alloc: Global, at: Place, constructor: &Name) -> LinFault
    ensures { Tells (plain.CaseMissing at constructor.now) result }
{
    match constructor.copy(alloc) {
        Ok(name) => LinFault::CaseMissing(at, name),
        Err(_) => LinFault::OutOfMemory,
    }
}

/// Refuses no row at all.
#[tactic(auto, using(crate::proofs::Listed::some))]
fn some_row(
    alloc: Global,
    world: &World,
    at: Place,
    x: &Name,
    offer: Offer<'_>,
    rows: &[HcaseRow],
) -> Result<(), LinFault>
    ensures { Answers (λ _. fine) (definition.some_row at x.now (view_offer (map view_decl world.now) offer.entry) (hcase_rows (map view_hcase_row rows.now))) result }
{
    let _ = world;
    match rows.first() {
        Some(_) => Ok(()),
        None => Err(wrong_action(alloc, at, x, offer.channel)),
    }
}
