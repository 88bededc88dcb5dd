//! The free names of a body.
ghost use Rattle.std.specs.Prelude.{◌≡◌, IfOk};
ghost use Rattle.campl_tree.specs.View.{view_body};
ghost use Rattle.campl_types.specs.Free.{is_free};
ghost use Rattle.campl_types.specs.Names.{Name, is_among};

use crate::bodies::gather_body;
use campl_names::NameSet;
use campl_tree::Body;
use std::alloc::{AllocError, Global};

/// The names of channels that are free in a body: those that a command or a header names and no command round that
/// place binds. One walk, with a look-up for each name.
///
/// # Errors
///
/// `AllocError` for want of memory.
#[tactic(auto, using(crate::proofs::Gathered::whole))]
pub fn free_names(alloc: Global, body: &Body) -> Result<NameSet, AllocError>
    ensures { IfOk result (λ names. (n : Name) → is_among n names ≡ is_free n (view_body body.now)) }
{
    let mut bound = NameSet::new(alloc);
    let mut found = NameSet::new(alloc);
    gather_body(alloc, &mut bound, &mut found, body)?;
    Ok(found)
}
