//! A row as its tests.
ghost use Rattle.std.specs.Prelude.{◌≡◌, OnOk, IfOk};
ghost use Rattle.std.specs.Prelude.{◌++◌, ◌∷◌, []};
ghost use Rattle.campl_code.specs.Compiled.{never};
ghost use Rattle.campl_instructions.specs.View.{view_head};
ghost use Rattle.campl_match.specs.Flattened.{with_test, with_spot};
ghost use Rattle.campl_match.specs.View.{view_flat};

use crate::asked::Asked;
use campl_instructions::{Head, Spot};
use sqlite_items::Items;
use std::alloc::{AllocError, Global};

/// A row: its number, its tests, and the places of its variables in order.
#[derive(Drop)]
pub(crate) struct Flat {
    pub number: u32,
    pub tests: Items<Asked>,
    pub spots: Items<Spot>,
}

impl Flat {
    /// A further test.
    pub(crate) fn ask(&mut self, alloc: Global, spot: &[u32], head: Head) -> Result<(), AllocError>
        ensures { OnOk result (view_flat self.new ≡ with_test (spot.now, view_head head) (view_flat self.old)) }
    {
        match Items::from_slice(alloc, spot) {
            Ok(spot) => self.tests.push(Asked { spot, head }),
            Err(error) => Err(error),
        }
    }

    /// The place of a further variable.
    pub(crate) fn bind(&mut self, alloc: Global, spot: &[u32]) -> Result<(), AllocError>
        ensures { OnOk result (view_flat self.new ≡ with_spot spot.now (view_flat self.old)) }
    {
        match Items::from_slice(alloc, spot) {
            Ok(spot) => self.spots.push(spot),
            Err(error) => Err(error),
        }
    }
}

/// The place of a part, from 0, of the value at a place.
pub(crate) fn below(alloc: Global, spot: &[u32], n: usize) -> Result<Spot, AllocError>
    ensures { IfOk result (λ below. below ≡ spot.now ++ n ∷ []) }
{
    let n = narrow(n)?;
    let mut below = Items::from_slice(alloc, spot)?;
    below.push(n)?;
    Ok(below)
}

/// A number as code has it.
pub(crate) fn narrow(n: usize) -> Result<u32, AllocError>
    ensures { IfOk result (λ m. m ≡ n) }
{
    match u32::try_from(n) {
        Ok(n) => Ok(n),
        Err(_) => Err(AllocError),
    }
}
