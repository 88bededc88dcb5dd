//! Whether a program is accepted.
ghost use Rattle.std.specs.Prelude.{◌≡◌, ℕ, List, IfOk, MatchResult, map};
ghost use Rattle.campl_tree.specs.View.{view_decl, view_program};
ghost use Rattle.campl_tree.specs.Plain.Decl.{Program as Seen};
ghost use Rattle.campl_types.specs.WellDeclared.{IsWellDeclared};
ghost use Rattle.campl_types.specs.World.{world_of};
ghost use Rattle.campl_meaning.specs.Lawful.{IsAccepted};
ghost use Rattle.campl_held.specs.Chosen.{ChoicesAreDeclared};
ghost use Rattle.campl_cli.specs.Source.{IsAcceptedText, IsRefusedFor, IsSourceFault, IsToldOfTree, IsWorldOf};
ghost use Rattle.campl_cli.specs.declared.fault.SourceFault.{SourceFault};

use crate::functions::judge_functions;
use crate::names::judge_names;
use crate::processes::judge_processes;
use crate::refusal::Refusal;
use crate::source::tree_of;
use campl_names::World;
use campl_text::Text;
use campl_tree::Program;
use std::alloc::Global;

/// Judges a program: its names, then its functions, and then its processes.
///
/// # Errors
///
/// The refusal for its first fault, or `OutOfMemory` where memory wants.
pub fn judge(alloc: Global, program: Program) -> Result<(), Refusal>
    ensures { MatchResult result (λ _. IsAccepted (view_program program)) (IsRefusedFor (IsToldOfTree (view_program program))) }
{
    match judged(alloc, program) {
        Ok(_) => Ok(()),
        Err(refusal) => Err(refusal),
    }
}

/// The world of a program that is accepted; else as [`judge`].
pub fn judged(alloc: Global, program: Program) -> Result<World, Refusal>
    ensures judged { MatchResult result (λ _. IsAccepted (view_program program)) (IsRefusedFor (IsToldOfTree (view_program program))) }
    ensures world { IfOk result (λ world. map view_decl world ≡ world_of (view_program program)) }
{
    let world = match judge_names(alloc, program) {
        Ok(world) => world,
        Err(refusal) => return Err(refusal),
    };
    match judge_world(alloc, &world) {
        Ok(()) => Ok(world),
        Err(refusal) => Err(refusal),
    }
}

/// The world of an accepted text.
///
/// # Errors
///
/// The refusal for the text's first fault, or `OutOfMemory` where memory wants.
pub fn world_of_text(alloc: Global, text: &Text) -> Result<World, Refusal>
    ensures { MatchResult result (λ world. IsWorldOf text.now (map view_decl world)) (IsRefusedFor (IsSourceFault text.now)) }
{
    match tree_of(alloc, text) {
        Ok(program) => judged(alloc, program),
        Err(fault) => Err(Refusal::of_text(fault)),
    }
}

/// Whether a text is accepted; else as [`world_of_text`].
pub fn judge_text(alloc: Global, text: &Text) -> Result<(), Refusal>
    ensures { MatchResult result (λ _. IsAcceptedText text.now) (IsRefusedFor (IsSourceFault text.now)) }
{
    match tree_of(alloc, text) {
        Ok(program) => judge(alloc, program),
        Err(fault) => Err(Refusal::of_text(fault)),
    }
}

// Judges the world of a well declared program: its functions, and then its processes.
fn judge_world(alloc: Global, world: &World) -> Result<(), Refusal>
    requires { ChoicesAreDeclared (map view_decl world.now) }
    ensures { (program : Seen) → IsWellDeclared program → map view_decl world.now ≡ world_of program
        → MatchResult result (λ _. IsAccepted program) (IsRefusedFor (IsToldOfTree program)) }
{
    match judge_functions(alloc, world) {
        Ok(()) => judge_processes(alloc, world),
        Err(refusal) => Err(refusal),
    }
}

/// A text that is accepted has no first fault, and no text has two.
pub fn one_verdict()
    ensures no_fault { (text : List ℕ) (fault : SourceFault) → IsAcceptedText text → ¬ (IsSourceFault text fault) }
    ensures one_fault { (text : List ℕ) (fault other : SourceFault) → IsSourceFault text fault → IsSourceFault text other → fault ≡ other }
{}
