//! Refusals of one name.
ghost use Rattle.std.specs.Prelude.{[], ◌∷◌};
ghost use Rattle.campl_names.specs.Judges.{Judges};
ghost use Rattle.campl_types.specs.declared.fault.NameFault.TheVariants as fault;

use campl_tree::{Name, Place};
use campl_types::NameFault;
use std::alloc::Global;

/// Refuses a name that its space has already.
#[tactic(auto, using(crate::proofs::Judged::judged))]
pub(crate) fn twice(alloc: Global, place: Place, name: &Name) -> Result<(), NameFault>
    ensures { Judges (fault.Twice place name.now ∷ []) result }
{
    let name = name.copy(alloc)?;
    Err(NameFault::Twice { place, name })
}

/// Refuses a name that isn't known.
#[tactic(auto, using(crate::proofs::Judged::judged))]
pub(crate) fn unknown(alloc: Global, place: Place, name: &Name) -> Result<(), NameFault>
    ensures { Judges (fault.Unknown place name.now ∷ []) result }
{
    let name = name.copy(alloc)?;
    Err(NameFault::Unknown { place, name })
}

/// Refuses a name of another kind.
#[tactic(auto, using(crate::proofs::Judged::judged))]
pub(crate) fn wrong_kind(alloc: Global, place: Place, name: &Name) -> Result<(), NameFault>
    ensures { Judges (fault.WrongKind place name.now ∷ []) result }
{
    let name = name.copy(alloc)?;
    Err(NameFault::WrongKind { place, name })
}
