//! The code of a source, as it is listed.
ghost use Rattle.std.specs.Prelude.{◌≡◌, MatchResult, string_bytes};
ghost use Rattle.campl_tree.specs.View.{view_program};
ghost use Rattle.campl_code.specs.Listing as listed;
ghost use Rattle.campl_code_bodies.specs.SourceCode.{source_code};
ghost use Rattle.campl_instructions.specs.View.{view_code};
ghost use Rattle.campl_meaning.specs.Lawful.{IsAccepted};
ghost use Rattle.campl_cli.specs.Source.{IsRefusedFor, IsSourceFault, IsToldOfTree};
ghost use Rattle.campl_cli.specs.Told.{ListsText};

use crate::acceptance::judged;
use crate::refusal::Refusal;
use crate::source::tree_of;
use campl_assembly::listing;
use campl_gen::generate;
use campl_instructions::RawCode;
use campl_text::Text;
use campl_tree::Program;
use std::alloc::Global;

/// The listing of the code of an accepted text.
///
/// # Errors
///
/// The refusal for the text's first fault, or `OutOfMemory` where memory wants.
pub fn listing_of(alloc: Global, text: &Text) -> Result<String, Refusal>
    ensures { MatchResult result (λ listing. ListsText text.now (string_bytes listing)) (IsRefusedFor (IsSourceFault text.now)) }
{
    match tree_of(alloc, text) {
        Ok(program) => listing_of_program(alloc, program),
        Err(fault) => Err(Refusal::of_text(fault)),
    }
}

fn listing_of_program(alloc: Global, program: Program) -> Result<String, Refusal>
    ensures { MatchResult result
        (λ listing. IsAccepted (view_program program) × (string_bytes listing ≡ listed.listing (source_code (view_program program))))
        (IsRefusedFor (IsToldOfTree (view_program program))) }
{
    let code = match code_of(alloc, program) {
        Ok(code) => code,
        Err(refusal) => return Err(refusal),
    };
    match listing(alloc, &code) {
        Ok(listing) => Ok(listing),
        Err(_) => Err(Refusal::OutOfMemory),
    }
}

/// The code of an accepted program.
///
/// # Errors
///
/// The refusal for the program's first fault, or `OutOfMemory` where memory wants.
pub fn code_of(alloc: Global, program: Program) -> Result<RawCode, Refusal>
    ensures { MatchResult result
        (λ code. IsAccepted (view_program program) × (view_code code ≡ source_code (view_program program)))
        (IsRefusedFor (IsToldOfTree (view_program program))) }
{
    let world = match judged(alloc, program) {
        Ok(world) => world,
        Err(refusal) => return Err(refusal),
    };
    match generate(alloc, &world) {
        Ok(code) => Ok(code),
        Err(_) => Err(Refusal::OutOfMemory),
    }
}
