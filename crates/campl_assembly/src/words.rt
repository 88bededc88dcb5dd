//! The words of operands.
ghost use Rattle.std.specs.Prelude.{◌≡◌, chars};
ghost use Rattle.campl_code.specs.Listing as listing;
ghost use Rattle.campl_instructions.specs.View.{view_operation};

use campl_instructions::Operation;
use campl_tree::{Arithmetic, Comparison, Side};

#[tactic(auto, using(crate::proofs::Spelled::operators))]
pub(crate) fn arithmetic_word(operator: Arithmetic) -> &'static str
    ensures { chars result.now ≡ listing.arithmetic_word operator }
{
    match operator {
        Arithmetic::Add => "add",
        Arithmetic::Subtract => "sub",
        Arithmetic::Multiply => "mul",
        Arithmetic::Divide => "div",
        Arithmetic::Remainder => "mod",
    }
}

#[tactic(auto, using(crate::proofs::Spelled::operators))]
pub(crate) fn comparison_word(operator: Comparison) -> &'static str
    ensures { chars result.now ≡ listing.comparison_word operator }
{
    match operator {
        Comparison::Equal => "eq",
        Comparison::Different => "ne",
        Comparison::Less => "lt",
        Comparison::AtMost => "le",
        Comparison::Greater => "gt",
        Comparison::AtLeast => "ge",
    }
}

#[tactic(auto, using(crate::proofs::Spelled::operands))]
pub(crate) fn operation_word(operation: Operation) -> &'static str
    ensures { chars result.now ≡ listing.operation_word (view_operation operation) }
{
    match operation {
        Operation::Calculate(operator) => arithmetic_word(operator),
        Operation::Compare(operator) => comparison_word(operator),
        Operation::Negate => "neg",
        Operation::Append => "append",
        Operation::CodeOf => "code",
        Operation::CharOf => "char",
    }
}

#[tactic(auto, using(crate::proofs::Spelled::operands))]
pub(crate) fn truth_word(truth: bool) -> &'static str
    ensures { chars result.now ≡ listing.truth_word truth }
{
    if truth { "True" } else { "False" }
}

#[tactic(auto, using(crate::proofs::Spelled::operands))]
pub(crate) fn side_word(side: Side) -> &'static str
    ensures { chars result.now ≡ listing.side_word side }
{
    match side {
        Side::Input => "in",
        Side::Output => "out",
    }
}
