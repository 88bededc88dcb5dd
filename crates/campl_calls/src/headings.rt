//! What a process's body begins with.
ghost use Rattle.std.specs.Prelude.{◌≡◌, ◌++◌, [], None, IfOk, OnOk, map};
ghost use Rattle.campl_tree.specs.View.{view_seq, view_chan, view_process, view_process_row};
ghost use Rattle.campl_types.specs.Held.{On};
ghost use Rattle.campl_types.specs.Linear.{row_variables};
ghost use Rattle.campl_types.specs.Names.{found};
ghost use Rattle.campl_vars.specs.Variables.{view_vars};
ghost use Rattle.campl_seqcheck.specs.Judged.{fine, Is};
ghost use Rattle.campl_linear.specs.Holding.{comes};
ghost use Rattle.campl_linear.specs.Processes as definition;
ghost use Rattle.campl_held.specs.Answered.{Answers};
ghost use Rattle.campl_held.specs.Slots.{view_held};
ghost use Rattle.campl_calls.specs.Headings.{headed, row_stands, held_names};

use crate::calling::counted;
use crate::handing::as_many;
use crate::naming::names_differ;
use campl_held::{Held, LinFault, bind};
use campl_tree::{Binder, ChanType, Ident, ProcessDecl, SeqType, Side};
use campl_vars::Vars;
use std::alloc::{AllocError, Global};

/// Judges a process's row against its heading, and gives the variables and the channels with which its body begins.
/// Inputs are held first, and then outputs, in the order of the row.
///
/// # Errors
///
/// `Seq` of `NameTwiceInPattern` (E34) at a name that stands a second time among variables, inputs and outputs. Then,
/// at the row, `Seq` of `ArgumentCount` (E33) for another number of variables than of types in the heading, and
/// `CallChannels` without a name (E50) for another number of inputs, or of outputs. `OutOfMemory` where memory wants.
pub fn heading(alloc: Global, p: &ProcessDecl) -> Result<(Vars, Held), LinFault>
    ensures { Answers (λ s. (view_vars s.0, view_held s.1)) (headed (view_process p.now)) result }
{
    match row_stands(alloc, p) {
        Ok(()) => {}
        Err(fault) => return Err(fault),
    }
    match entered(alloc, p) {
        Ok(state) => Ok(state),
        Err(_) => Err(LinFault::OutOfMemory),
    }
}

/// Refuses a row whose names don't differ, or that has another number of them than its heading.
fn row_stands(alloc: Global, p: &ProcessDecl) -> Result<(), LinFault>
    ensures { Answers (λ _. fine) (row_stands (view_process p.now)) result }
{
    match names_differ(alloc, &p.row) {
        Ok(()) => {}
        Err(fault) => return Err(fault),
    }
    match counted(p.row.place, p.row.variables.len(), p.parameters.len()) {
        Ok(()) => {}
        Err(fault) => return Err(fault),
    }
    match as_many(p.row.place, p.row.inputs.len(), p.inputs.len()) {
        Ok(()) => {}
        Err(fault) => return Err(fault),
    }
    as_many(p.row.place, p.row.outputs.len(), p.outputs.len())
}

/// The variables and the channels of a row.
fn entered(alloc: Global, p: &ProcessDecl) -> Result<(Vars, Held), AllocError>
    requires { definition.names_differ [] (definition.idents_of (view_process_row p.now.row)) ≡ Is fine }
    ensures { IfOk result (λ s. (view_vars s.0 ≡ row_variables p.now.row.variables (map view_seq p.now.parameters)) × (view_held s.1 ≡ definition.row_holding (view_process p.now))) }
{
    let vars = row_variables(alloc, p.row.variables.as_slice(), p.parameters.as_slice())?;
    let held = row_holding(alloc, p)?;
    Ok((vars, held))
}

/// The variables of a row with the types of the heading.
fn row_variables(alloc: Global, binders: &[Binder], types: &[SeqType]) -> Result<Vars, AllocError>
    ensures { IfOk result (λ vars. view_vars vars ≡ row_variables binders.now (map view_seq types.now)) }
{
    let mut vars = Vars::new(alloc);
    for i in 0..binders.len().min(types.len()) {
        bind(alloc, &mut vars, &binders[i], &types[i])?;
    }
    Ok(vars)
}

/// The channels of a row with the types of the heading, inputs first.
fn row_holding(alloc: Global, p: &ProcessDecl) -> Result<Held, AllocError>
    requires { definition.names_differ [] (definition.idents_of (view_process_row p.now.row)) ≡ Is fine }
    ensures { IfOk result (λ held. view_held held ≡ definition.row_holding (view_process p.now)) }
{
    let mut held = Held::new(alloc);
    enter(
        alloc,
        &mut held,
        Side::Input,
        p.row.inputs.as_slice(),
        p.inputs.as_slice(),
    )?;
    enter(
        alloc,
        &mut held,
        Side::Output,
        p.row.outputs.as_slice(),
        p.outputs.as_slice(),
    )?;
    Ok(held)
}

/// Holds channels behind the others, on a side and each with its type. Their names differ from one another and from
/// those that are held.
fn enter(
    alloc: Global,
    held: &mut Held,
    side: Side,
    names: &[Ident],
    types: &[ChanType],
) -> Result<(), AllocError>
    requires { definition.names_differ (held_names (view_held held.old)) names.now ≡ Is fine }
    ensures { OnOk result (view_held held.new ≡ view_held held.old ++ definition.entering side names.now (map view_chan types.now)) }
{
    for i in 0..names.len().min(types.len()) {
        hold(alloc, held, side, &names[i], &types[i])?;
    }
    Ok(())
}

/// Holds a channel behind the others, whose name isn't held.
fn hold(
    alloc: Global,
    held: &mut Held,
    side: Side,
    x: &Ident,
    t: &ChanType,
) -> Result<(), AllocError>
    requires { found x.now.name (view_held held.old) ≡ None }
    ensures { OnOk result (view_held held.new ≡ comes x.now.name (On side (view_chan t.now)) (view_held held.old)) }
{
    let t = t.copy(alloc)?;
    held.come(alloc, &x.name, side, t)
}
