//! The polarity table.
ghost use Rattle.std.specs.Prelude.{◌≡◌, [], map};
ghost use Rattle.campl_tree.specs.View.{view_chan, view_decl};
ghost use Rattle.campl_tree.specs.declared.service.Side.TheVariants.{Input, Output};
ghost use Rattle.campl_types.specs.Polarity.{act_of, allowed, of_named};
ghost use Rattle.campl_types.specs.World.{type_named};

use crate::world::{TypeRef, World};
use campl_tree::{ChanType, Name, Side};
use campl_types::Act;

impl World {
    /// What a process may do with a channel of this type that it holds on this side. A type that isn't known
    /// allows an identity alone. Takes no memory.
    #[tactic(auto, using(crate::proofs::Trees::chan_views, crate::proofs::Acts::acts))]
    pub fn allowed(&self, t: &ChanType, side: Side) -> Act
        ensures { result ≡ allowed (map view_decl self.now) (view_chan t.now) side }
    {
        match (t, side) {
            (ChanType::Put(_, _), Side::Output) => Act::Put,
            (ChanType::Put(_, _), Side::Input) => Act::Get,
            (ChanType::Get(_, _), Side::Output) => Act::Get,
            (ChanType::Get(_, _), Side::Input) => Act::Put,
            (ChanType::Tensor(_, _), Side::Output) => Act::Fork,
            (ChanType::Tensor(_, _), Side::Input) => Act::Split,
            (ChanType::Par(_, _), Side::Output) => Act::Split,
            (ChanType::Par(_, _), Side::Input) => Act::Fork,
            (ChanType::TopBot, Side::Output) => Act::End,
            (ChanType::TopBot, Side::Input) => Act::End,
            (ChanType::Neg(_), Side::Output) => Act::Link,
            (ChanType::Neg(_), Side::Input) => Act::Link,
            (ChanType::Named(_, x, _), Side::Output) => named_on_output(self, x),
            (ChanType::Named(_, x, _), Side::Input) => named_on_input(self, x),
        }
    }
}

/// What a channel of a named type allows on the output side.
fn named_on_output(world: &World, name: &Name) -> Act
    ensures { result ≡ act_of (of_named (type_named (map view_decl world.now) name.now) Output []) }
{
    match world.type_named(name) {
        Some(TypeRef::Protocol(_)) => Act::Pick,
        Some(TypeRef::Coprotocol(_)) => Act::Offer,
        Some(TypeRef::Data(_)) => Act::Link,
        None => Act::Link,
    }
}

/// What a channel of a named type allows on the input side.
fn named_on_input(world: &World, name: &Name) -> Act
    ensures { result ≡ act_of (of_named (type_named (map view_decl world.now) name.now) Input []) }
{
    match world.type_named(name) {
        Some(TypeRef::Protocol(_)) => Act::Offer,
        Some(TypeRef::Coprotocol(_)) => Act::Pick,
        Some(TypeRef::Data(_)) => Act::Link,
        None => Act::Link,
    }
}
