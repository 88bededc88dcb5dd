//! Whether the names of a tree are well declared.
ghost use Rattle.std.specs.Prelude.{◌≡◌, IfOk, MatchResult, map};
ghost use Rattle.campl_tree.specs.View.{view_decl, view_program};
ghost use Rattle.campl_types.specs.WellDeclared.{IsWellDeclared};
ghost use Rattle.campl_types.specs.World.{world_of};
ghost use Rattle.campl_cli.specs.Source.{IsRefusedFor, IsToldOfNames, refusal_of_naming};

use crate::fault::{Detail, FaultKind, SourceFault};
use crate::kind::NameKind;
use crate::refusal::Refusal;
use campl_names::{World, declare};
use campl_tree::{Place, Program};
use campl_types::NameFault;
use std::alloc::Global;

/// The world of a program whose names are well declared.
pub fn judge_names(alloc: Global, program: Program) -> Result<World, Refusal>
    ensures judged { MatchResult result (λ _. IsWellDeclared (view_program program)) (IsRefusedFor (IsToldOfNames (view_program program))) }
    ensures world { IfOk result (λ world. map view_decl world ≡ world_of (view_program program)) }
{
    match declare(alloc, program) {
        Ok(world) => Ok(world),
        Err(fault) => Err(refusal_of(fault)),
    }
}

// The refusal for a fault of names.
fn refusal_of(fault: NameFault) -> Refusal
    ensures { result ≡ refusal_of_naming fault }
{
    match fault {
        NameFault::Twice { place, name } => refused(NameKind::Twice, place, Detail::Named(name)),
        NameFault::Unknown { place, name } => refused(
            NameKind::Unknown,
            place,
            Detail::Named(name),
        ),
        NameFault::WrongKind { place, name } => refused(
            NameKind::WrongKind,
            place,
            Detail::Named(name),
        ),
        NameFault::TypeArguments {
            place,
            found,
            wanted,
        } => refused(
            NameKind::TypeArguments,
            place,
            Detail::Counted { found, wanted },
        ),
        NameFault::NoRun { place } => refused(NameKind::NoRun, place, Detail::Nothing),
        NameFault::RunNotService { place } => refused(
            NameKind::RunNotService,
            place,
            Detail::Nothing,
        ),
        NameFault::OutOfMemory => Refusal::OutOfMemory,
    }
}

// The refusal for names that are wrong so, at this place.
fn refused(kind: NameKind, place: Place, detail: Detail) -> Refusal
    ensures { result ≡ Refusal.Source (record { kind = FaultKind.Name kind; place = place; detail = detail }) }
{
    Refusal::Source(SourceFault {
        kind: FaultKind::Name(kind),
        place,
        detail,
    })
}
