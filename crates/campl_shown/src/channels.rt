//! Channel types as they are written.
ghost use Rattle.std.specs.Prelude.{◌≡◌, ◌++◌, [], codes, chars, if◌then◌else◌, IfOk, OnOk};
ghost use Rattle.campl_tree.specs.View.{view_chan};
ghost use Rattle.campl_shown.specs.Types.{chan_text, operand};

use crate::shown::Shown;
use crate::types::{push_arguments, push_type};
use crate::variables::Names;
use campl_tree::ChanType;
use std::alloc::{AllocError, Global};

/// A type as it is written, with one space round `|`, `(*)` and `(+)`, and with parentheses only round an
/// operand of `(*)` or `(+)` that is such a type itself.
pub fn chan_text(alloc: Global, t: &ChanType) -> Result<Shown, AllocError>
    ensures { IfOk result (λ s. s ≡ chan_text (view_chan t.now)) }
{
    let mut text = Shown::new(alloc);
    push_chan(&mut text, t, false)?;
    Ok(text)
}

/// Puts a type behind a text, as an operand or by itself.
#[cycle(channels)]
#[tactic(auto, using(crate::proofs::Pieces::channels))]
fn push_chan(text: &mut Shown, t: &ChanType, is_operand: bool) -> Result<(), AllocError>
    ensures { OnOk result (text.new ≡ text.old ++ (if is_operand then operand (view_chan t.now) else chan_text (view_chan t.now))) }
{
    match t {
        ChanType::Put(t, x) => {
            text.push_str("Put(")?;
            push_type(text, &Names, t)?;
            push_rest(text, x.get())
        }
        ChanType::Get(t, x) => {
            text.push_str("Get(")?;
            push_type(text, &Names, t)?;
            push_rest(text, x.get())
        }
        ChanType::Tensor(x, y) => {
            push_left(text, x.get(), is_operand)?;
            push_right(text, " (*) ", y.get(), is_operand)
        }
        ChanType::Par(x, y) => {
            push_left(text, x.get(), is_operand)?;
            push_right(text, " (+) ", y.get(), is_operand)
        }
        ChanType::TopBot => text.push_str("TopBot"),
        ChanType::Neg(x) => {
            text.push_str("Neg(")?;
            push_chan(text, x.get(), false)?;
            text.push_char(')')
        }
        ChanType::Named(_, x, ts) => {
            text.push_chars(x.as_slice())?;
            push_arguments(text, &Names, ts.as_slice())
        }
    }
}

/// Puts what stands behind the value's type behind a text.
#[cycle(channels)]
#[tactic(auto, using(crate::proofs::Pieces::pieces))]
fn push_rest(text: &mut Shown, t: &ChanType) -> Result<(), AllocError>
    ensures { OnOk result (text.new ≡ text.old ++ (codes " | " ++ chan_text (view_chan t.now) ++ codes ")")) }
{
    text.push_str(" | ")?;
    push_chan(text, t, false)?;
    text.push_char(')')
}

/// Puts the left operand of a type behind a text, which begins in a parenthesis where the whole does.
#[cycle(channels)]
#[tactic(auto, using(crate::proofs::Pieces::pieces))]
fn push_left(text: &mut Shown, t: &ChanType, in_parentheses: bool) -> Result<(), AllocError>
    ensures { OnOk result (text.new ≡ text.old ++ ((if in_parentheses then codes "(" else []) ++ operand (view_chan t.now))) }
{
    if in_parentheses {
        text.push_char('(')?;
    }
    push_chan(text, t, true)
}

/// Puts a type's sign and its right operand behind a text, and the parenthesis in which the whole ends.
#[cycle(channels)]
#[tactic(auto, using(crate::proofs::Pieces::pieces))]
fn push_right(
    text: &mut Shown,
    sign: &str,
    t: &ChanType,
    in_parentheses: bool,
) -> Result<(), AllocError>
    ensures { OnOk result (text.new ≡ text.old ++ (chars sign.now ++ operand (view_chan t.now) ++ (if in_parentheses then codes ")" else []))) }
{
    text.push_str(sign)?;
    push_chan(text, t, true)?;
    if in_parentheses {
        text.push_char(')')?;
    }
    Ok(())
}
