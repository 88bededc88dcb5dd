//! Whether the functions of a program are typed.
ghost use Rattle.std.specs.Prelude.{◌≡◌, MatchResult, map};
ghost use Rattle.campl_tree.specs.View.{view_decl};
ghost use Rattle.campl_types.specs.WellDeclared.{IsWellDeclared};
ghost use Rattle.campl_types.specs.World.{world_of};
ghost use Rattle.campl_types.specs.Sequential.{FunctionsAreTyped};
ghost use Rattle.campl_tree.specs.Plain.Decl.{Program as Seen};
ghost use Rattle.campl_cli.specs.Source.{IsRefusedFor, IsToldOfFunctions, refusal_of_typing};

use crate::fault::{Detail, FaultKind, SourceFault};
use crate::kind::FunctionKind;
use crate::refusal::Refusal;
use campl_names::World;
use campl_seqcheck::{SeqFault, check_functions};
use campl_tree::Place;
use std::alloc::Global;

/// Judges the functions of the world of a well declared program.
pub fn judge_functions(alloc: Global, world: &World) -> Result<(), Refusal>
    ensures { (program : Seen) → IsWellDeclared program → map view_decl world.now ≡ world_of program
        → MatchResult result (λ _. FunctionsAreTyped (world_of program) program) (IsRefusedFor (IsToldOfFunctions program)) }
{
    match check_functions(alloc, world, world.declarations()) {
        Ok(()) => Ok(()),
        Err(fault) => Err(refusal_of_function(fault)),
    }
}

/// The refusal for a fault of functions.
pub(crate) fn refusal_of_function(fault: SeqFault) -> Refusal
    ensures { result ≡ refusal_of_typing fault }
{
    match fault {
        SeqFault::TypeDiffers {
            place,
            found,
            wanted,
        } => refused(
            FunctionKind::TypeDiffers,
            place,
            Detail::Differing(found, wanted),
        ),
        SeqFault::NeedsType { place } => refused(FunctionKind::NeedsType, place, Detail::Nothing),
        SeqFault::NotExhaustive { place, missing } => {
            refused(FunctionKind::NotExhaustive, place, Detail::Missing(missing))
        }
        SeqFault::ArgumentCount {
            place,
            found,
            wanted,
        } => refused(
            FunctionKind::ArgumentCount,
            place,
            Detail::Counted { found, wanted },
        ),
        SeqFault::NameTwiceInPattern { place, name } => {
            refused(FunctionKind::NameTwiceInPattern, place, Detail::Named(name))
        }
        SeqFault::OutOfMemory => Refusal::OutOfMemory,
    }
}

// The refusal for functions that are wrong so, at this place.
fn refused(kind: FunctionKind, place: Place, detail: Detail) -> Refusal
    ensures { result ≡ Refusal.Source (record { kind = FaultKind.Function kind; place = place; detail = detail }) }
{
    Refusal::Source(SourceFault {
        kind: FaultKind::Function(kind),
        place,
        detail,
    })
}
