//! The code of a whole source.
ghost use Rattle.std.specs.Prelude.{◌≡◌, ◌++◌, IfOk, OnOk, length, map};
ghost use Rattle.campl_tree.specs.View.{view_decl};
ghost use Rattle.campl_code_bodies.specs.Bodies.{processes_of};
ghost use Rattle.campl_instructions.specs.View.{view_block, view_code, view_decision};
ghost use Rattle.campl_gen.specs.Blocks.{blocks_from, decisions_from};
ghost use Rattle.campl_gen.specs.Generated.{world_code};

use crate::processes::put_processes;
use campl_gen_bodies::{Known, Making};
use campl_gen_functions::generate_functions;
use campl_instructions::{Block, Decision, RawCode};
use campl_names::World;
use sqlite_items::Items;
use std::alloc::{AllocError, Global};

/// The code of a world: the blocks of its functions and of its processes, each kind in the order of the declarations, and the
/// decisions that they name. For the world of an accepted source it makes exactly the source's runs ([`law_generated_runs`]).
///
/// Blocks, decisions, constructors, variables and channels go by numbers from 0, and places are those of a block
/// (`docs/LANGUAGE.md`, "Code").
///
/// # Errors
///
/// `AllocError` where memory wants, or where a number is 2^32 or more.
///
/// [`law_generated_runs`]: crate::law_generated_runs
#[tactic(auto, using(crate::proofs::Blocks::wholes))]
pub fn generate(alloc: Global, world: &World) -> Result<RawCode, AllocError>
    ensures { IfOk result (λ code. view_code code ≡ world_code (map view_decl world.now)) }
{
    let (functions, decisions) = match generate_functions(alloc, world) {
        Ok(made) => made,
        Err(error) => return Err(error),
    };
    match generate_processes(alloc, world, decisions) {
        Ok((processes, decisions)) => Ok(RawCode {
            functions,
            processes,
            decisions,
        }),
        Err(error) => Err(error),
    }
}

// The blocks of a world's processes, and their decisions behind the others.
fn generate_processes(
    alloc: Global,
    world: &World,
    decisions: Items<Decision>,
) -> Result<(Items<Block>, Items<Decision>), AllocError>
    ensures blocks { IfOk result (λ made. map view_block made.0 ≡ blocks_from (map view_decl world.now) (processes_of (map view_decl world.now)) (length (map view_decision decisions))) }
    ensures decisions { IfOk result (λ made. map view_decision made.1 ≡ map view_decision decisions ++ decisions_from (map view_decl world.now) (processes_of (map view_decl world.now)) (length (map view_decision decisions))) }
{
    let mut making = Making::new(alloc, decisions);
    let mut blocks = Items::new(alloc);
    match put_world(alloc, world, &mut making, &mut blocks) {
        Ok(()) => Ok((blocks, making.into_decisions())),
        Err(error) => Err(error),
    }
}

fn put_world(
    alloc: Global,
    world: &World,
    making: &mut Making,
    blocks: &mut Items<Block>,
) -> Result<(), AllocError>
    ensures blocks { OnOk result (map view_block blocks.new ≡ map view_block blocks.old ++ blocks_from (map view_decl world.now) (processes_of (map view_decl world.now)) (length (map view_decision making.old.decisions))) }
    ensures decisions { OnOk result (map view_decision making.new.decisions ≡ map view_decision making.old.decisions ++ decisions_from (map view_decl world.now) (processes_of (map view_decl world.now)) (length (map view_decision making.old.decisions))) }
{
    let known = Known::new(alloc, world)?;
    put_processes(alloc, &known, making, world.declarations(), blocks)
}
