//! The constructors of a protocol or coprotocol that may be picked or offered.
ghost use Rattle.std.specs.Prelude.{◌≡◌, IfOk, length, map, option_map, slice_get};
ghost use Rattle.std.specs.Option.{option_copied};
ghost use Rattle.campl_tree.specs.View.{view_chan, view_decl};
ghost use Rattle.campl_types.specs.Names.{found};
ghost use Rattle.campl_types.specs.World.{constructor_named};
ghost use Rattle.campl_held.specs.Chosen.{belongs, choice_names, view_choices, view_lines, ChoicesAreDeclared};

use campl_names::{ConstructorRef, TypeRef, World};
use campl_tree::{ChanType, CoprotocolConstructor, Name, ProtocolConstructor, SeqType};
use std::alloc::{AllocError, Global};

/// The constructors of a protocol or coprotocol, which is known by its name and stands at arguments.
#[derive(Clone, Copy)]
pub struct Constructors<'a> {
    pub name: &'a Name,
    pub arguments: &'a [SeqType],
}

/// The lines of a protocol or coprotocol, as declared.
#[derive(Clone, Copy)]
pub enum Lines<'a> {
    Protocol(&'a [ProtocolConstructor]),
    Coprotocol(&'a [CoprotocolConstructor]),
}

impl<'a> Constructors<'a> {
    /// The type that remains behind a constructor, and `None` exactly where it isn't one of these. In a world
    /// where each name is declared once.
    ///
    /// # Errors
    ///
    /// `AllocError` for want of memory.
    #[tactic(auto, using(crate::proofs::Chosen::remaining))]
    pub fn remains(
        self,
        alloc: Global,
        world: &World,
        constructor: &Name,
    ) -> Result<Option<ChanType>, AllocError>
        requires { ChoicesAreDeclared (map view_decl world.now) }
        ensures { IfOk result (λ t. option_map view_chan t ≡ found constructor.now (view_choices (map view_decl world.now) self.entry)) }
    {
        if is_of(world, self.name, constructor) {
            world.after(alloc, constructor, self.arguments)
        } else {
            Ok(None)
        }
    }

    /// The lines in which these constructors are declared, in order.
    pub fn lines(self, world: &'a World) -> Lines<'a>
        ensures { view_lines result ≡ choice_names (view_choices (map view_decl world.now) self.entry) }
    {
        match world.type_named(self.name) {
            Some(TypeRef::Protocol(d)) => Lines::Protocol(d.constructors.as_slice()),
            Some(TypeRef::Coprotocol(d)) => Lines::Coprotocol(d.constructors.as_slice()),
            Some(TypeRef::Data(_)) => Lines::Protocol(&[]),
            None => Lines::Protocol(&[]),
        }
    }
}

impl<'a> Lines<'a> {
    /// The number of constructors.
    pub fn len(self) -> usize
        ensures { result ≡ length (view_lines self.entry) }
    {
        match self {
            Lines::Protocol(lines) => lines.len(),
            Lines::Coprotocol(lines) => lines.len(),
        }
    }

    /// The constructor of a line, counted from 0.
    pub fn name(self, number: usize) -> Option<&'a Name>
        ensures { option_copied result ≡ slice_get (view_lines self.entry) number }
    {
        match self {
            Lines::Protocol(lines) => Some(&lines.get(number)?.name.name),
            Lines::Coprotocol(lines) => Some(&lines.get(number)?.name.name),
        }
    }
}

/// Whether a constructor is one of the protocol or coprotocol of a name.
fn is_of(world: &World, name: &Name, constructor: &Name) -> bool
    ensures { result ≡ belongs name.now (constructor_named (map view_decl world.now) constructor.now) }
{
    match world.constructor_named(constructor) {
        Some(ConstructorRef::Protocol(d, _, _)) => d.name.name == *name,
        Some(ConstructorRef::Coprotocol(d, _, _)) => d.name.name == *name,
        Some(ConstructorRef::Data(_, _, _)) => false,
        None => false,
    }
}
