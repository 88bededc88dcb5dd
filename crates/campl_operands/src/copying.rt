//! Copies of values.
ghost use Rattle.std.specs.Prelude.{◌≡◌, IfOk};

use campl_value::Value;
use std::alloc::{AllocError, Global};

/// The same values, each of which shares its parts with its copy. An error means that memory is out.
pub fn copies(alloc: Global, values: &[Value]) -> Result<Vec<Value>, AllocError>
    ensures { IfOk result (λ copies. copies.items ≡ values.now) }
{
    let mut copies = Vec::new(alloc);
    for value in values {
        match value.copy() {
            Err(error) => return Err(error),
            Ok(copy) => copies.push(copy)?,
        }
    }
    Ok(copies)
}
