//! Whether the names in types are known, of their kind, and have as many arguments as their declarations
//! have parameters.
ghost use Rattle.std.specs.Prelude.{◌≡◌, [], ◌∷◌, None, map, if◌then◌else◌};
ghost use Rattle.std.specs.Option.{option_copied};
ghost use Rattle.campl_tree.specs.View.{view_seq, seq_types, view_chan, view_decl};
ghost use Rattle.campl_tree.specs.Plain.ChanType as plain;
ghost use Rattle.campl_names.specs.Judges.{Judges};
ghost use Rattle.campl_types.specs.Known.{each, is_local, counted, a_data_type, a_protocol, in_seq, in_seqs, in_chan};
ghost use Rattle.campl_names.specs.Scope.{heading};
ghost use Rattle.campl_types.specs.World.{type_named};
ghost use Rattle.campl_types.specs.declared.fault.NameFault.TheVariants.{WrongKind};

use crate::name_set::NameSet;
use crate::refusing::{unknown, wrong_kind};
use crate::world::{TypeRef, World};
use campl_tree::{ChanType, Name, Place, SeqType};
use campl_types::NameFault;
use std::alloc::Global;

/// Judges a sequential type. A name that stands for the protocol itself is of another kind.
#[cycle(seq)]
#[tactic(auto, using(crate::proofs::Judging::seqs))]
pub(crate) fn judge_seq(
    alloc: Global,
    world: &World,
    parameters: &NameSet,
    local: Option<&Name>,
    t: &SeqType,
) -> Result<(), NameFault>
    ensures { Judges (in_seq (map view_decl world.now) (heading parameters.now (option_copied local.entry)) (view_seq t.now)) result }
{
    match t {
        SeqType::Int => Ok(()),
        SeqType::Char => Ok(()),
        SeqType::Bool => Ok(()),
        SeqType::List(t) => judge_seq(alloc, world, parameters, local, t.get()),
        SeqType::Pair(t, u) => {
            judge_seq(alloc, world, parameters, local, t.get())?;
            judge_seq(alloc, world, parameters, local, u.get())
        }
        SeqType::Named(at, x, ts) => {
            judge_data_name(alloc, world, local, *at, x, ts.len())?;
            judge_seqs(alloc, world, parameters, local, ts.as_slice())
        }
        SeqType::Variable(at, x) => {
            if parameters.has(x) {
                return Ok(());
            }
            unknown(alloc, *at, x)
        }
    }
}

/// Judges sequential types in order.
#[cycle(seq)]
#[tactic(auto, using(crate::proofs::Judged::judged_all))]
fn judge_seqs(
    alloc: Global,
    world: &World,
    parameters: &NameSet,
    local: Option<&Name>,
    ts: &[SeqType],
) -> Result<(), NameFault>
    ensures { Judges (in_seqs (map view_decl world.now) (heading parameters.now (option_copied local.entry)) (seq_types (map view_seq ts.now))) result }
{
    for t in ts {
        judge_seq(alloc, world, parameters, local, t)?;
    }
    Ok(())
}

/// Judges channel types.
#[cycle(chan)]
#[tactic(auto, using(crate::proofs::Judging::chans))]
pub(crate) fn judge_chan(
    alloc: Global,
    world: &World,
    parameters: &NameSet,
    local: Option<&Name>,
    t: &ChanType,
) -> Result<(), NameFault>
    ensures { Judges (in_chan (map view_decl world.now) (heading parameters.now (option_copied local.entry)) (view_chan t.now)) result }
{
    match t {
        ChanType::Put(t, x) => {
            judge_seq(alloc, world, parameters, local, t)?;
            judge_chan(alloc, world, parameters, local, x.get())
        }
        ChanType::Get(t, x) => {
            judge_seq(alloc, world, parameters, local, t)?;
            judge_chan(alloc, world, parameters, local, x.get())
        }
        ChanType::Tensor(x, y) => {
            judge_chan(alloc, world, parameters, local, x.get())?;
            judge_chan(alloc, world, parameters, local, y.get())
        }
        ChanType::Par(x, y) => {
            judge_chan(alloc, world, parameters, local, x.get())?;
            judge_chan(alloc, world, parameters, local, y.get())
        }
        ChanType::TopBot => Ok(()),
        ChanType::Neg(x) => judge_chan(alloc, world, parameters, local, x.get()),
        ChanType::Named(at, x, ts) => {
            judge_named_chan(alloc, world, parameters, local, *at, x, ts.as_slice())
        }
    }
}

/// Judges a protocol's or coprotocol's name and its arguments.
#[tactic(auto, using(crate::proofs::Judging::named_chans))]
fn judge_named_chan(
    alloc: Global,
    world: &World,
    parameters: &NameSet,
    local: Option<&Name>,
    at: Place,
    name: &Name,
    ts: &[SeqType],
) -> Result<(), NameFault>
    ensures { Judges (in_chan (map view_decl world.now) (heading parameters.now (option_copied local.entry)) (plain.Named at name.now (seq_types (map view_seq ts.now)))) result }
{
    judge_protocol_name(alloc, world, local, at, name, ts.len())?;
    judge_seqs(alloc, world, parameters, local, ts)
}

/// Judges sequential types in order.
#[tactic(auto, using(crate::proofs::Judged::judged_all))]
pub(crate) fn judge_each_seq(
    alloc: Global,
    world: &World,
    parameters: &NameSet,
    ts: &[SeqType],
) -> Result<(), NameFault>
    ensures { Judges (each (in_seq (map view_decl world.now) (heading parameters.now None)) (map view_seq ts.now)) result }
{
    for t in ts {
        judge_seq(alloc, world, parameters, None, t)?;
    }
    Ok(())
}

/// Judges channel types in order.
#[tactic(auto, using(crate::proofs::Judged::judged_all))]
pub(crate) fn judge_each_chan(
    alloc: Global,
    world: &World,
    parameters: &NameSet,
    ts: &[ChanType],
) -> Result<(), NameFault>
    ensures { Judges (each (in_chan (map view_decl world.now) (heading parameters.now None)) (map view_chan ts.now)) result }
{
    for t in ts {
        judge_chan(alloc, world, parameters, None, t)?;
    }
    Ok(())
}

/// Whether a name stands for the protocol itself.
fn is_local(local: Option<&Name>, name: &Name) -> bool
    ensures { result ≡ is_local (option_copied local.entry) name.now }
{
    match local {
        Some(own) => own == name,
        None => false,
    }
}

/// Judges the name of a data type with so many arguments.
#[tactic(auto, using(crate::proofs::Judging::types))]
fn judge_data_name(
    alloc: Global,
    world: &World,
    local: Option<&Name>,
    at: Place,
    name: &Name,
    arguments: usize,
) -> Result<(), NameFault>
    ensures { Judges (if is_local (option_copied local.entry) name.now then WrongKind at name.now ∷ [] else a_data_type (type_named (map view_decl world.now) name.now) at name.now arguments) result }
{
    if is_local(local, name) {
        return wrong_kind(alloc, at, name);
    }
    match world.type_named(name) {
        Some(TypeRef::Data(d)) => judge_count(at, arguments, d.parameters.len()),
        Some(TypeRef::Protocol(_)) => wrong_kind(alloc, at, name),
        Some(TypeRef::Coprotocol(_)) => wrong_kind(alloc, at, name),
        None => unknown(alloc, at, name),
    }
}

/// Judges the name of a protocol or coprotocol with so many arguments. The one that stands for the
/// protocol itself has none.
#[tactic(auto, using(crate::proofs::Judging::types))]
fn judge_protocol_name(
    alloc: Global,
    world: &World,
    local: Option<&Name>,
    at: Place,
    name: &Name,
    arguments: usize,
) -> Result<(), NameFault>
    ensures { Judges (if is_local (option_copied local.entry) name.now then counted at arguments 0 else a_protocol (type_named (map view_decl world.now) name.now) at name.now arguments) result }
{
    if is_local(local, name) {
        return judge_count(at, arguments, 0);
    }
    match world.type_named(name) {
        Some(TypeRef::Data(_)) => wrong_kind(alloc, at, name),
        Some(TypeRef::Protocol(d)) => judge_count(at, arguments, d.parameters.len()),
        Some(TypeRef::Coprotocol(d)) => judge_count(at, arguments, d.parameters.len()),
        None => unknown(alloc, at, name),
    }
}

/// Judges the number of arguments.
#[tactic(auto, using(crate::proofs::Judging::types))]
fn judge_count(place: Place, found: usize, wanted: usize) -> Result<(), NameFault>
    ensures { Judges (counted place found wanted) result }
{
    if found == wanted {
        return Ok(());
    }
    Err(NameFault::TypeArguments {
        place,
        found,
        wanted,
    })
}
