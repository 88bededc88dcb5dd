//! Whether a program is well declared.
ghost use Rattle.std.specs.Prelude.{◌≡◌, ◌++◌, [], IfOk, drop, map};
ghost use Rattle.campl_tree.specs.View.{view_decl, view_program};
ghost use Rattle.campl_names.specs.Judges.{Judges};
ghost use Rattle.campl_types.specs.Known.{each, in_decl};
ghost use Rattle.campl_types.specs.Run.{run_faults};
ghost use Rattle.campl_types.specs.WellDeclared.{name_faults};
ghost use Rattle.campl_types.specs.World.{world_of};

use crate::judge_decls::judge_decls;
use crate::prelude::with_prelude;
use crate::run::judge_run;
use crate::world::World;
use campl_tree::{Decl, Program};
use campl_types::NameFault;
use std::alloc::Global;

/// The world of a program that is well declared, or its first fault.
///
/// Names that are declared twice come first, those of the prelude among the declared. Then come, in source
/// order, names that aren't known, that are of another kind than their place wants, and numbers of type
/// arguments that differ from those of parameters; then that `run` is missing, and last that it has more
/// than services. `OutOfMemory` comes where memory ends.
#[tactic(auto, using(crate::proofs::Wholes::declaring))]
pub fn declare(alloc: Global, program: Program) -> Result<World, NameFault>
    ensures judged { Judges (name_faults (view_program program)) result }
    ensures world { IfOk result (λ w. map view_decl w ≡ world_of (view_program program)) }
{
    let declarations = with_prelude(alloc, program)?;
    let world = World::of(alloc, declarations)?;
    judge_world(alloc, world)
}

/// The world, where nothing that its declarations use is at fault.
fn judge_world(alloc: Global, world: World) -> Result<World, NameFault>
    ensures judged { Judges (each (in_decl (map view_decl world)) (map view_decl (drop 2 world)) ++ run_faults (map view_decl world)) result }
    ensures world { IfOk result (λ w. w ≡ world) }
{
    match judge_uses(alloc, &world) {
        Ok(()) => Ok(world),
        Err(fault) => Err(fault),
    }
}

/// Judges what the declarations behind the prelude use, and then `run`.
#[tactic(auto, using(crate::proofs::Judged::judged))]
fn judge_uses(alloc: Global, world: &World) -> Result<(), NameFault>
    ensures { Judges (each (in_decl (map view_decl world.now)) (map view_decl (drop 2 world.now)) ++ run_faults (map view_decl world.now)) result }
{
    judge_decls(alloc, world, behind_prelude(world.declarations()))?;
    judge_run(alloc, world)
}

/// The declarations behind those of the prelude.
#[tactic(auto, using(crate::proofs::Wholes::rests))]
fn behind_prelude(declarations: &[Decl]) -> &[Decl]
    ensures { result.now ≡ drop 2 declarations.now }
{
    if declarations.len() < 2 {
        return &[];
    }
    &declarations[2..]
}
