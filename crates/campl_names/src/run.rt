//! The process `run` and its services.
ghost use Rattle.std.specs.Prelude.{◌≡◌, ◌+◌, ◌++◌, ◌&&◌, IfOk, map, length, nat_le};
ghost use Rattle.campl_tree.specs.View.{view_seq, seq_types, view_chan, view_process, view_decl};
ghost use Rattle.campl_tree.specs.Plain.ChanType as plain;
ghost use Rattle.campl_names.specs.Judges.{Judges};
ghost use Rattle.campl_types.specs.Names.{is_empty};
ghost use Rattle.campl_types.specs.Run.{most_services, is_type_named, all, has_services_alone, heading_faults, run_faults, service, services_of};
ghost use Rattle.campl_tree.specs.declared.service.Side.TheVariants.{Input, Output};

use crate::world::World;
use campl_tree::{ChanType, Ident, Name, Place, ProcessDecl, SeqType};
use campl_types::NameFault;
use std::alloc::{AllocError, Global};

/// At most so many services.
const MOST_SERVICES: usize = 16;

/// Judges that `run` is there and has services alone.
#[tactic(auto, using(crate::proofs::Judged::judged))]
pub(crate) fn judge_run(alloc: Global, world: &World) -> Result<(), NameFault>
    ensures { Judges (run_faults (map view_decl world.now)) result }
{
    match world.run() {
        Some(p) => judge_heading(alloc, p),
        None => Err(NameFault::NoRun {
            place: Place { line: 1, column: 1 },
        }),
    }
}

/// Judges that a process has services alone.
#[tactic(auto, using(crate::proofs::Judged::judged))]
fn judge_heading(alloc: Global, p: &ProcessDecl) -> Result<(), NameFault>
    ensures { Judges (heading_faults (view_process p.now)) result }
{
    if has_services_alone(alloc, p)? {
        return Ok(());
    }
    Err(NameFault::RunNotService {
        place: p.name.place,
    })
}

/// Whether a process has no variables, consoles as inputs, terminals as outputs, and not too many of both.
#[tactic(auto, using(crate::proofs::Runs::named_texts))]
fn has_services_alone(alloc: Global, p: &ProcessDecl) -> Result<bool, AllocError>
    ensures { IfOk result (λ b. b ≡ has_services_alone (view_process p.now)) }
{
    let console = Name::of(alloc, "Console")?;
    let terminal = Name::of(alloc, "StringTerminal")?;
    Ok(holds_alone(p, &console, &terminal))
}

/// Whether a process has no variables, inputs and outputs of these types alone, and not too many of both.
fn holds_alone(p: &ProcessDecl, console: &Name, terminal: &Name) -> bool
    ensures { result ≡ (is_empty (map view_seq p.now.parameters) && all (is_type_named console.now) (map view_chan p.now.inputs) && all (is_type_named terminal.now) (map view_chan p.now.outputs) && nat_le (length p.now.inputs + length p.now.outputs) most_services) }
{
    has_none(p)
        && all_named(p.inputs.as_slice(), console)
        && all_named(p.outputs.as_slice(), terminal)
        && are_few(p.inputs.len(), p.outputs.len())
}

/// Whether a process has no variables.
#[tactic(auto, using(crate::proofs::Runs::empties))]
fn has_none(p: &ProcessDecl) -> bool
    ensures { result ≡ is_empty (map view_seq p.now.parameters) }
{
    p.parameters.len() == 0
}

/// Whether there are not too many services.
fn are_few(inputs: usize, outputs: usize) -> bool
    ensures { result ≡ nat_le (inputs + outputs) most_services }
{
    match inputs.checked_add(outputs) {
        Some(both) => both <= MOST_SERVICES,
        None => false,
    }
}

/// Whether all types are that of the name, with no arguments.
#[tactic(auto, using(crate::proofs::Runs::loops))]
fn all_named(ts: &[ChanType], name: &Name) -> bool
    ensures { result ≡ all (is_type_named name.now) (map view_chan ts.now) }
{
    for t in ts {
        if !is_named(t, name) {
            return false;
        }
    }
    true
}

/// Whether a type is that of the name, with no arguments.
#[tactic(auto, using(crate::proofs::Trees::chan_views))]
fn is_named(t: &ChanType, name: &Name) -> bool
    ensures { result ≡ is_type_named name.now (view_chan t.now) }
{
    match t {
        ChanType::Put(_, _) => false,
        ChanType::Get(_, _) => false,
        ChanType::Tensor(_, _) => false,
        ChanType::Par(_, _) => false,
        ChanType::TopBot => false,
        ChanType::Neg(_) => false,
        ChanType::Named(at, other, ts) => is_alone(*at, other, ts.as_slice(), name),
    }
}

/// Whether a named type is that of the name, with no arguments.
#[tactic(auto, using(crate::proofs::Runs::alone))]
fn is_alone(at: Place, other: &Name, ts: &[SeqType], name: &Name) -> bool
    ensures { result ≡ is_type_named name.now (plain.Named at other.now (seq_types (map view_seq ts.now))) }
{
    if ts.len() == 0 {
        return name == other;
    }
    false
}

/// The channels of `run`, which are the services of its program, in the order of its heading: those on its
/// input side, and then those on its output side.
#[derive(Clone, Copy)]
pub struct RunServices<'a> {
    pub inputs: &'a [Ident],
    pub outputs: &'a [Ident],
}

impl World {
    /// The services of a program; none where it has no `run`. Takes no memory.
    pub fn services(&self) -> RunServices<'_>
        ensures { map (service Input) result.inputs.now ++ map (service Output) result.outputs.now ≡ services_of (map view_decl self.now) }
    {
        match self.run() {
            Some(p) => RunServices {
                inputs: p.row.inputs.as_slice(),
                outputs: p.row.outputs.as_slice(),
            },
            None => RunServices {
                inputs: &[],
                outputs: &[],
            },
        }
    }
}
