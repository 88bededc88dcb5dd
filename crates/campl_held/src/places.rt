//! Where each name stands.
ghost use Rattle.std.specs.Prelude.{◌≡◌, ℕ, List, None, Some, OnOk, OnErr, cond};
ghost use Rattle.std.specs.Map.{lookup};
ghost use Rattle.campl_types.specs.Names.{same_name};

use campl_tree::Name;
use indexmap::IndexMap;
use std::alloc::AllocError;

/// Takes a name out, and answers where it stood.
pub fn forget(places: &mut IndexMap<Name, usize>, name: &Name) -> Option<usize>
    ensures was { result ≡ lookup (same_name name.now) places.old.entries }
    ensures rest { (x : List ℕ) → lookup (same_name x) places.new.entries ≡ cond (same_name name.now x) None (lookup (same_name x) places.old.entries) }
{
    places.swap_remove(name)
}

/// Lets a name stand at a place.
pub fn note(places: &mut IndexMap<Name, usize>, name: Name, at: usize) -> Result<(), AllocError>
    ensures noted { OnOk result ((x : List ℕ) → lookup (same_name x) places.new.entries ≡ cond (same_name name x) (Some at) (lookup (same_name x) places.old.entries)) }
    ensures err { OnErr result ((x : List ℕ) → lookup (same_name x) places.new.entries ≡ lookup (same_name x) places.old.entries) }
{
    match places.insert(name, at) {
        Ok(_) => Ok(()),
        Err(_) => Err(AllocError),
    }
}
