//! The call of a process.
ghost use Rattle.std.specs.Prelude.{◌≡◌, Some, map};
ghost use Rattle.campl_tree.specs.View.{view_seq, view_expr, exprs, view_decl, view_process};
ghost use Rattle.campl_types.specs.World.{process_named};
ghost use Rattle.campl_vars.specs.Variables.{view_vars};
ghost use Rattle.campl_seqcheck.specs.Answered.{IsVerdict};
ghost use Rattle.campl_seqcheck.specs.Fitting as fitting;
ghost use Rattle.campl_seqcheck.specs.Judged.{fine};
ghost use Rattle.campl_linear.specs.Calls as definition;
ghost use Rattle.campl_linear.specs.Judged.{from_seq};
ghost use Rattle.campl_held.specs.Answered.{Answers};
ghost use Rattle.campl_held.specs.Slots.{view_held};

use crate::handing::hand_all;
use campl_held::{Held, LinFault, of_seq};
use campl_names::World;
use campl_seqcheck::{SeqFault, check_expr};
use campl_tree::{Expr, Ident, Name, Place, ProcessDecl, SeqType};
use campl_vars::Vars;
use std::alloc::Global;

/// Judges the call of a process, with its values and the names of the channels that it hands over, under the variables
/// in scope and for a process that holds these channels. The variables stay as they are, after an error too. The
/// place is that of the process's name.
///
/// # Errors
///
/// `CallChannels` without a name (E50) for a name of no process; `Seq` of `ArgumentCount` (E33) for another number of
/// values than is declared, and then of the first fault of the values (E30 to E34); `CallChannels` without a name for
/// another number of inputs, or of outputs. Then in order, inputs first, `NotHeld` (E40) of a channel that isn't held,
/// and `CallChannels` with its name of one of another side or type; at last `LeftOver` (E41) of the first channel that
/// is left. `OutOfMemory` where memory wants.
pub fn call(
    alloc: Global,
    world: &World,
    vars: &mut Vars,
    held: Held,
    at: Place,
    name: &Name,
    values: &[Expr],
    inputs: &[Ident],
    outputs: &[Ident],
) -> Result<(), LinFault>
    ensures judged { Answers (λ _. fine) (definition.called (map view_decl world.now) (view_vars vars.old) (view_held held) at (process_named (map view_decl world.now) name.now) (exprs (map view_expr values.now)) inputs.now outputs.now) result }
    ensures kept { vars.new ≡ vars.old }
{
    match world.process_named(name) {
        Some(p) => call_process(alloc, world, vars, held, at, p, values, inputs, outputs),
        None => Err(LinFault::CallChannels(at, None)),
    }
}

/// The same for the process that is called.
fn call_process(
    alloc: Global,
    world: &World,
    vars: &mut Vars,
    held: Held,
    at: Place,
    p: &ProcessDecl,
    values: &[Expr],
    inputs: &[Ident],
    outputs: &[Ident],
) -> Result<(), LinFault>
    ensures judged { Answers (λ _. fine) (definition.called (map view_decl world.now) (view_vars vars.old) (view_held held) at (Some (view_process p.now)) (exprs (map view_expr values.now)) inputs.now outputs.now) result }
    ensures kept { vars.new ≡ vars.old }
{
    match counted(at, values.len(), p.parameters.len()) {
        Ok(()) => {}
        Err(fault) => return Err(fault),
    }
    match values_fit(alloc, world, vars, p.parameters.as_slice(), values) {
        Ok(()) => {}
        Err(fault) => return Err(of_seq(fault)),
    }
    hand_all(alloc, held, at, p, inputs, outputs)
}

/// Refuses another number of values than is declared.
pub(crate) fn counted(at: Place, number: usize, wanted: usize) -> Result<(), LinFault>
    ensures { Answers (λ _. fine) (from_seq (fitting.counted at number wanted)) result }
{
    if number == wanted {
        return Ok(());
    }
    Err(LinFault::Seq(SeqFault::ArgumentCount {
        place: at,
        found: number,
        wanted,
    }))
}

/// Checks values in order, each against its type.
fn values_fit(
    alloc: Global,
    world: &World,
    vars: &mut Vars,
    types: &[SeqType],
    values: &[Expr],
) -> Result<(), SeqFault>
    ensures judged { IsVerdict (λ _. fine) (definition.values_fit (map view_decl world.now) (view_vars vars.old) (map view_seq types.now) (exprs (map view_expr values.now))) result }
    ensures kept { vars.new ≡ vars.old }
{
    for i in 0..types.len().min(values.len()) {
        match check_expr(alloc, world, vars, &values[i], &types[i]) {
            Ok(()) => {}
            Err(fault) => return Err(fault),
        }
    }
    Ok(())
}
