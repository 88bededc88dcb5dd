//! Sets of the names in headers.
ghost use Rattle.std.specs.Prelude.{◌≡◌, [], ◌++◌, IfOk, OnOk, map};
ghost use Rattle.campl_tree.specs.View.{view_part, parts as part_list};
ghost use Rattle.campl_types.specs.World.{names_of};
ghost use Rattle.campl_names.specs.Scope.{with_names};
ghost use Rattle.campl_plug_heads.specs.Heads.{all_names};

use campl_names::NameSet;
use campl_tree::{Ident, Part};
use std::alloc::{AllocError, Global};

/// Puts names into a set.
fn add_names(alloc: Global, set: &mut NameSet, xs: &[Ident]) -> Result<(), AllocError>
    ensures { OnOk result (set.new ≡ with_names set.old (names_of xs.now)) }
{
    for x in xs {
        set.add(alloc, &x.name)?;
    }
    Ok(())
}

/// The set of names.
fn name_set(alloc: Global, xs: &[Ident]) -> Result<NameSet, AllocError>
    ensures { IfOk result (λ s. s ≡ with_names [] (names_of xs.now)) }
{
    let mut set = NameSet::new(alloc);
    add_names(alloc, &mut set, xs)?;
    Ok(set)
}

/// The set of the inputs of a part.
#[tactic(auto, using(crate::proofs::Names::headers))]
pub(crate) fn inputs_of(alloc: Global, part: &Part) -> Result<NameSet, AllocError>
    ensures { IfOk result (λ s. s ≡ with_names [] (names_of (view_part part.now).0.inputs)) }
{
    name_set(alloc, part.inputs.as_slice())
}

/// The set of the outputs of a part.
#[tactic(auto, using(crate::proofs::Names::headers))]
pub(crate) fn outputs_of(alloc: Global, part: &Part) -> Result<NameSet, AllocError>
    ensures { IfOk result (λ s. s ≡ with_names [] (names_of (view_part part.now).0.outputs)) }
{
    name_set(alloc, part.outputs.as_slice())
}

/// Puts the names of a header into a set, outputs first.
#[tactic(auto, using(crate::proofs::Names::headers))]
fn add_header(alloc: Global, set: &mut NameSet, part: &Part) -> Result<(), AllocError>
    ensures { OnOk result (set.new ≡ with_names set.old (names_of (view_part part.now).0.outputs ++ names_of (view_part part.now).0.inputs)) }
{
    add_names(alloc, set, part.outputs.as_slice())?;
    add_names(alloc, set, part.inputs.as_slice())
}

/// The set of the names in the header of a part.
pub(crate) fn names_of_part(alloc: Global, part: &Part) -> Result<NameSet, AllocError>
    ensures { IfOk result (λ s. s ≡ with_names [] (names_of (view_part part.now).0.outputs ++ names_of (view_part part.now).0.inputs)) }
{
    let mut set = NameSet::new(alloc);
    add_header(alloc, &mut set, part)?;
    Ok(set)
}

/// The set of all names in headers.
#[tactic(auto, using(crate::proofs::Turns::all))]
pub(crate) fn all_names(alloc: Global, parts: &[Part]) -> Result<NameSet, AllocError>
    ensures { IfOk result (λ s. s ≡ with_names [] (all_names (part_list (map view_part parts.now)))) }
{
    let mut set = NameSet::new(alloc);
    for i in 0..parts.len() {
        add_header(alloc, &mut set, &parts[i])?;
    }
    Ok(set)
}
