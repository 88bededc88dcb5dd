//! Sides compared.
ghost use Rattle.std.specs.Prelude.{◌≡◌};
ghost use Rattle.campl_linear.specs.Channels.{same_side};

use campl_tree::Side;

/// Whether two sides are the same.
pub(crate) fn same_side(r: Side, s: Side) -> bool
    ensures { result ≡ same_side r s }
{
    match (r, s) {
        (Side::Input, Side::Input) => true,
        (Side::Output, Side::Output) => true,
        (Side::Input, Side::Output) => false,
        (Side::Output, Side::Input) => false,
    }
}
