//! The code of a source.
ghost use Rattle.std.specs.Prelude.{◌≡◌, IfOk, map};
ghost use Rattle.campl_tree.specs.View.{view_decl};
ghost use Rattle.campl_eval.specs.View.{code_of};
ghost use Rattle.campl_gen.specs.Generated.{world_code};

use campl_gen::generate;
use campl_names::World;
use campl_program::Program;
use std::alloc::{AllocError, Global};

/// The program of a source. An error means that memory is out.
pub fn program_of(alloc: Global, world: &World) -> Result<Program, AllocError>
    ensures { IfOk result (λ program. code_of program ≡ world_code (map view_decl world.now)) }
{
    let code = match generate(alloc, world) {
        Ok(code) => code,
        Err(error) => return Err(error),
    };
    match Program::assemble(alloc, code) {
        Ok(program) => Ok(program),
        Err(error) => Err(error),
    }
}
