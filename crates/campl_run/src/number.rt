//! The number of the process `run` in the code.
ghost use Rattle.std.specs.Prelude.{◌≡◌, Some, codes, IfOk, IfSome, map};
ghost use Rattle.campl_tree.specs.View.{view_decl};
ghost use Rattle.campl_code_bodies.specs.BodyCode.{process_number};
ghost use Rattle.campl_run.specs.Numbers.{is_named};

use campl_names::World;
use campl_tree::{Decl, Name};
use std::alloc::{AllocError, Global};

/// The number of `run` among the processes, in the order of the declarations, as code numbers them.
///
/// # Errors
///
/// `AllocError` where memory wants. Where there is no `run` it is answered too, but each accepted source has one.
#[tactic(auto, using(crate::proofs::Counting::letters))]
pub fn number_of_run(alloc: Global, world: &World) -> Result<u32, AllocError>
    ensures { IfOk result (λ number. process_number (map view_decl world.now) (codes "run") ≡ Some number) }
{
    match Name::of(alloc, "run") {
        Err(error) => Err(error),
        Ok(name) => number_of(world.declarations(), &name).ok_or(AllocError),
    }
}

// The number of the process of a name, where there is one.
fn number_of(declarations: &[Decl], name: &Name) -> Option<u32>
    ensures { IfSome result (λ number. process_number (map view_decl declarations.now) name.now ≡ Some number) }
{
    let mut number: u32 = 0;
    for declaration in declarations {
        match is_named(declaration, name) {
            None => {}
            Some(true) => return Some(number),
            Some(false) => number = number.checked_add(1)?,
        }
    }
    None
}

// Of a process, whether it has the name.
fn is_named(declaration: &Decl, name: &Name) -> Option<bool>
    ensures { result ≡ is_named name.now (view_decl declaration.now) }
{
    match declaration {
        Decl::Data(_) => None,
        Decl::Protocol(_) => None,
        Decl::Coprotocol(_) => None,
        Decl::Function(_) => None,
        Decl::Process(process) => Some(*name == process.name.name),
    }
}
