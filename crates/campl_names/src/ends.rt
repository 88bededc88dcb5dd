//! Which two ends fit together.
ghost use Rattle.std.specs.Prelude.{◌≡◌, ◌||◌, ◌↔◌, IsTrue};
ghost use Rattle.campl_tree.specs.View.{view_chan};
ghost use Rattle.campl_tree.specs.Plain.ChanType as plain;
ghost use Rattle.campl_types.specs.SameTest as test;
ghost use Rattle.campl_types.specs.Polarity.{ArePartners};

use crate::same::same_chan;
use campl_tree::{ChanType, Side};

/// Whether two ends fit together: they have one type on opposite sides, or on one side a type and the
/// same type behind `Neg`, either way round. Takes no memory.
#[tactic(auto, using(crate::proofs::TwoEnds::across, crate::proofs::TwoEnds::beside))]
pub fn partners(a: &ChanType, a_side: Side, b: &ChanType, b_side: Side) -> bool
    ensures { IsTrue result ↔ ArePartners (view_chan a.now) a_side (view_chan b.now) b_side }
{
    match (a_side, b_side) {
        (Side::Input, Side::Output) | (Side::Output, Side::Input) => same_chan(a, b),
        (Side::Input, Side::Input) => one_negates(a, b),
        (Side::Output, Side::Output) => one_negates(a, b),
    }
}

/// Whether one of the types is the other behind `Neg`.
fn one_negates(a: &ChanType, b: &ChanType) -> bool
    ensures { result
        ≡ (test.same_chan (view_chan a.now) (plain.Neg (view_chan b.now))
        || test.same_chan (view_chan b.now) (plain.Neg (view_chan a.now))) }
{
    is_negation(a, b) || is_negation(b, a)
}

/// Whether the first type is the second behind `Neg`.
#[tactic(auto, using(crate::proofs::Trees::chan_views))]
fn is_negation(a: &ChanType, b: &ChanType) -> bool
    ensures { result ≡ test.same_chan (view_chan a.now) (plain.Neg (view_chan b.now)) }
{
    match a {
        ChanType::Neg(inner) => same_chan(inner.get(), b),
        _ => false,
    }
}
