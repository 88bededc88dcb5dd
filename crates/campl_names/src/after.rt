//! What remains on a channel after a constructor.
ghost use Rattle.std.specs.Prelude.{◌≡◌, IfOk, map, option_map};
ghost use Rattle.campl_tree.specs.View.{view_seq, seq_types, view_chan, view_decl};
ghost use Rattle.campl_tree.specs.Plain.ChanType as plain;
ghost use Rattle.campl_names.specs.Filling.{view_filling};
ghost use Rattle.campl_types.specs.Polarity.{after, at_whole, line};
ghost use Rattle.campl_types.specs.SameType.{nowhere};
ghost use Rattle.campl_types.specs.Substitution.{types_of};

use crate::filling::Filling;
use crate::prelude::NOWHERE;
use crate::world::{ConstructorRef, World};
use campl_tree::{ChanType, Ident, Name, Place, SeqType};
use sqlite_items::Boxed;
use std::alloc::{AllocError, Global};

/// A protocol or coprotocol at arguments: what the names in its lines stand for.
#[derive(Clone, Copy)]
struct Instance<'a> {
    /// The name that stands for the whole in its lines.
    local: &'a Ident,
    name: &'a Ident,
    arguments: &'a [SeqType],
    filling: &'a Filling,
}

impl World {
    /// The type that remains after a constructor of a protocol or coprotocol that stands at these
    /// arguments: that of its line, with the heading's other name replaced by the whole and each parameter
    /// by its argument. `None` exactly where no protocol or coprotocol declares the constructor. The rule is
    /// in docs/LANGUAGE.md, "Protocols".
    pub fn after(
        &self,
        alloc: Global,
        constructor: &Name,
        arguments: &[SeqType],
    ) -> Result<Option<ChanType>, AllocError>
        ensures { IfOk result (λ t. option_map view_chan t ≡ after (map view_decl self.now) constructor.now (map view_seq arguments.now)) }
    {
        let (local, name, parameters, t) = match self.constructor_named(constructor) {
            Some(ConstructorRef::Protocol(d, _, k)) => {
                (&d.local, &d.name, &d.parameters, &k.channel_type)
            }
            Some(ConstructorRef::Coprotocol(d, _, k)) => {
                (&d.local, &d.name, &d.parameters, &k.channel_type)
            }
            Some(ConstructorRef::Data(_, _, _)) => return Ok(None),
            None => return Ok(None),
        };
        let remains = line_at(alloc, local, name, parameters.as_slice(), arguments, t)?;
        Ok(Some(remains))
    }
}

/// The type of a line of a protocol or coprotocol, of which these are the names, at arguments.
fn line_at(
    alloc: Global,
    local: &Ident,
    name: &Ident,
    parameters: &[Ident],
    arguments: &[SeqType],
    t: &ChanType,
) -> Result<ChanType, AllocError>
    ensures { IfOk result (λ u. view_chan u ≡ line local.now name.now parameters.now (map view_seq arguments.now) (view_chan t.now)) }
{
    let filling = Filling::of(alloc, parameters, arguments)?;
    let instance = Instance {
        local,
        name,
        arguments,
        filling: &filling,
    };
    chan_at(alloc, instance, t)
}

/// A line's type in an instance.
#[tactic(auto, using(crate::proofs::Trees::chan_views))]
fn chan_at(alloc: Global, of: Instance<'_>, t: &ChanType) -> Result<ChanType, AllocError>
    ensures { IfOk result (λ u. view_chan u ≡ at_whole of.entry.local.now.name (plain.Named nowhere of.entry.name.now.name (types_of (map view_seq of.entry.arguments.now))) (view_filling of.entry.filling.now) (view_chan t.now)) }
{
    match t {
        ChanType::Put(t, x) => {
            let value = of.filling.filled(alloc, t)?;
            Ok(ChanType::Put(value, Boxed::new(alloc, chan_at(alloc, of, x.get())?)?))
        }
        ChanType::Get(t, x) => {
            let value = of.filling.filled(alloc, t)?;
            Ok(ChanType::Get(value, Boxed::new(alloc, chan_at(alloc, of, x.get())?)?))
        }
        ChanType::Tensor(x, y) => {
            let left = Boxed::new(alloc, chan_at(alloc, of, x.get())?)?;
            Ok(ChanType::Tensor(left, Boxed::new(alloc, chan_at(alloc, of, y.get())?)?))
        }
        ChanType::Par(x, y) => {
            let left = Boxed::new(alloc, chan_at(alloc, of, x.get())?)?;
            Ok(ChanType::Par(left, Boxed::new(alloc, chan_at(alloc, of, y.get())?)?))
        }
        ChanType::TopBot => Ok(ChanType::TopBot),
        ChanType::Neg(x) => Ok(ChanType::Neg(Boxed::new(alloc, chan_at(alloc, of, x.get())?)?)),
        ChanType::Named(at, x, ts) => named_at(alloc, of, *at, x, ts.as_slice()),
    }
}

/// A named type of a line in an instance: the whole, or another at its own arguments.
#[tactic(auto, using(crate::proofs::Fillings::named))]
fn named_at(
    alloc: Global,
    of: Instance<'_>,
    at: Place,
    name: &Name,
    ts: &[SeqType],
) -> Result<ChanType, AllocError>
    ensures { IfOk result (λ u. view_chan u ≡ at_whole of.entry.local.now.name (plain.Named nowhere of.entry.name.now.name (types_of (map view_seq of.entry.arguments.now))) (view_filling of.entry.filling.now) (plain.Named at name.now (seq_types (map view_seq ts.now)))) }
{
    if *name == of.local.name {
        let arguments = SeqType::copy_all(alloc, of.arguments)?;
        return Ok(ChanType::Named(NOWHERE, of.name.name.copy(alloc)?, arguments));
    }
    let arguments = of.filling.filled_all(alloc, ts)?;
    Ok(ChanType::Named(at, name.copy(alloc)?, arguments))
}
