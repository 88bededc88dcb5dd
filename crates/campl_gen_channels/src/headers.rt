//! The names in the headers of a plug's parts.
ghost use Rattle.std.specs.Prelude.{◌≡◌, [], IfOk, OnOk, map};
ghost use Rattle.campl_tree.specs.View.{view_part, parts as part_list};
ghost use Rattle.campl_types.specs.Names.{Name as Plain, is_among};
ghost use Rattle.campl_types.specs.World.{names_of};
ghost use Rattle.campl_names.specs.Scope.{with_names};
ghost use Rattle.campl_peel.specs.Plugging.{stands_in, stands_among, side_in};
ghost use Rattle.campl_gen_channels.specs.Orders.{view_part_at};

use crate::order::is_named;
use campl_names::NameSet;
use campl_tree::{Ident, Name, Part, Side};
use std::alloc::{AllocError, Global};

/// The set of the names in the header of a part.
///
/// # Errors
///
/// `AllocError` where memory wants.
#[tactic(auto, using(crate::proofs::InHeaders::headers))]
pub fn header_names(alloc: Global, part: &Part) -> Result<NameSet, AllocError>
    ensures { IfOk result (λ names. (x : Plain) → is_among x names ≡ stands_in (view_part part.now).0 x) }
{
    let mut names = NameSet::new(alloc);
    add_names(alloc, &mut names, part.inputs.as_slice())?;
    add_names(alloc, &mut names, part.outputs.as_slice())?;
    Ok(names)
}

// Puts names into a set.
fn add_names(alloc: Global, set: &mut NameSet, names: &[Ident]) -> Result<(), AllocError>
    ensures { OnOk result (set.new ≡ with_names set.old (names_of names.now)) }
{
    for x in names {
        set.add(alloc, &x.name)?;
    }
    Ok(())
}

/// Whether a name stands in the header of a part.
#[tactic(auto, using(crate::proofs::InHeaders::headers))]
pub fn stands_in(part: &Part, name: &Name) -> bool
    ensures { result ≡ stands_in (view_part part.now).0 name.now }
{
    is_named(part.inputs.as_slice(), name) || is_named(part.outputs.as_slice(), name)
}

/// Whether a name stands in the header of one of these parts.
pub fn stands_among(parts: &[&Part], name: &Name) -> bool
    ensures { result ≡ stands_among (part_list (map view_part_at parts.now)) name.now }
{
    for i in 0..parts.len() {
        if stands_in(parts[i], name) {
            return true;
        }
    }
    false
}

/// The side on which the header of a part has a name that stands in it.
#[tactic(auto, using(crate::proofs::InHeaders::headers))]
pub fn side_in(part: &Part, name: &Name) -> Side
    ensures { result ≡ side_in (view_part part.now).0 name.now }
{
    if is_named(part.outputs.as_slice(), name) {
        Side::Output
    } else {
        Side::Input
    }
}
