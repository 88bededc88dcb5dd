//! Names of a row that differ from one another.
ghost use Rattle.std.specs.Prelude.{[]};
ghost use Rattle.campl_tree.specs.View.{view_process_row};
ghost use Rattle.campl_seqcheck.specs.declared.fault.SeqFault.TheVariants.{NameTwiceInPattern};
ghost use Rattle.campl_seqcheck.specs.Judged.{fine};
ghost use Rattle.campl_linear.specs.Faults as plain;
ghost use Rattle.campl_linear.specs.Processes as definition;
ghost use Rattle.campl_held.specs.Answered.{Answers, Tells};
ghost use Rattle.campl_calls.specs.Headings.{noted, noted_one, noted_binder, noted_row};

use campl_held::LinFault;
use campl_names::NameSet;
use campl_seqcheck::SeqFault;
use campl_tree::{Binder, Ident, Name, Place, ProcessRow};
use std::alloc::Global;

/// Refuses a row in which a name stands a second time, among its variables, inputs and outputs.
pub(crate) fn names_differ(alloc: Global, row: &ProcessRow) -> Result<(), LinFault>
    ensures { Answers (λ _. fine) (definition.names_differ [] (definition.idents_of (view_process_row row.now))) result }
{
    let mut names = NameSet::new(alloc);
    match note_row(alloc, &mut names, row) {
        Ok(()) => Ok(()),
        Err(fault) => Err(fault),
    }
}

/// Notes the variables of a row, its inputs and its outputs.
fn note_row(alloc: Global, names: &mut NameSet, row: &ProcessRow) -> Result<(), LinFault>
    ensures { Answers (λ _. names.new) (noted_row names.old (view_process_row row.now)) result }
{
    match note_binders(alloc, names, row.variables.as_slice()) {
        Ok(()) => {}
        Err(fault) => return Err(fault),
    }
    match note_all(alloc, names, row.inputs.as_slice()) {
        Ok(()) => {}
        Err(fault) => return Err(fault),
    }
    note_all(alloc, names, row.outputs.as_slice())
}

/// Notes the variables that are bound.
fn note_binders(alloc: Global, names: &mut NameSet, binders: &[Binder]) -> Result<(), LinFault>
    ensures { Answers (λ _. names.new) (noted names.old (definition.variables_bound binders.now)) result }
{
    for i in 0..binders.len() {
        match note_binder(alloc, names, &binders[i]) {
            Ok(()) => {}
            Err(fault) => return Err(fault),
        }
    }
    Ok(())
}

/// Notes names.
fn note_all(alloc: Global, names: &mut NameSet, idents: &[Ident]) -> Result<(), LinFault>
    ensures { Answers (λ _. names.new) (noted names.old idents.now) result }
{
    for i in 0..idents.len() {
        let x = &idents[i];
        match note(alloc, names, x.place, &x.name) {
            Ok(()) => {}
            Err(fault) => return Err(fault),
        }
    }
    Ok(())
}

/// Notes a variable, and nothing at `_`.
fn note_binder(alloc: Global, names: &mut NameSet, binder: &Binder) -> Result<(), LinFault>
    ensures { Answers (λ _. names.new) (noted_binder names.old binder.now) result }
{
    match binder {
        Binder::Variable(at, name) => note(alloc, names, *at, name),
        Binder::Wildcard(_) => Ok(()),
    }
}

/// Notes a name, and refuses one that is noted already.
#[tactic(auto, using(campl_held::proofs::Told::refused))]
fn note(alloc: Global, names: &mut NameSet, at: Place, name: &Name) -> Result<(), LinFault>
    ensures { Answers (λ _. names.new) (noted_one names.old (record { place = at; name = name.now })) result }
{
    if names.has(name) {
        return Err(name_twice(alloc, at, name));
    }
    match names.add(alloc, name) {
        Ok(()) => Ok(()),
        Err(_) => Err(LinFault::OutOfMemory),
    }
}

/// That the name stands a second time.
fn name_twice(alloc: Global, at: Place, name: &Name) -> LinFault
    ensures { Tells (plain.Seq (NameTwiceInPattern at name.now)) result }
{
    match name.copy(alloc) {
        Ok(name) => LinFault::Seq(SeqFault::NameTwiceInPattern { place: at, name }),
        Err(_) => LinFault::OutOfMemory,
    }
}
