//! Sequential types as they are written.
ghost use Rattle.std.specs.Prelude.{◌≡◌, ◌++◌, codes, IfOk, OnOk, map};
ghost use Rattle.campl_tree.specs.View.{view_seq, seq_types};
ghost use Rattle.campl_names.specs.Filling.{view_filling};
ghost use Rattle.campl_shown.specs.Types.{written, arguments, type_text, type_text_at};

use crate::shown::Shown;
use crate::variables::{Names, Types, Variables};
use campl_names::Filling;
use campl_tree::SeqType;
use std::alloc::{AllocError, Global};

/// A type as it is written, with one space behind a comma, and variables by their names.
pub fn type_text(alloc: Global, t: &SeqType) -> Result<Shown, AllocError>
    ensures { IfOk result (λ s. s ≡ type_text (view_seq t.now)) }
{
    let mut text = Shown::new(alloc);
    push_type(&mut text, &Names, t)?;
    Ok(text)
}

/// The same, but each variable as what it stands for, and `_` where it stands for nothing.
pub fn type_text_at(alloc: Global, filling: &Filling, t: &SeqType) -> Result<Shown, AllocError>
    ensures { IfOk result (λ s. s ≡ type_text_at (view_filling filling.now) (view_seq t.now)) }
{
    let mut text = Shown::new(alloc);
    push_type(&mut text, &Types { filling }, t)?;
    Ok(text)
}

/// Puts a type behind a text.
#[cycle(types)]
#[tactic(auto, using(crate::proofs::Pieces::types))]
pub(crate) fn push_type<V: Variables>(
    text: &mut Shown,
    variables: &V,
    t: &SeqType,
) -> Result<(), AllocError>
    ensures { OnOk result (text.new ≡ text.old ++ written (V.spelling variables.now) (view_seq t.now)) }
{
    match t {
        SeqType::Int => text.push_str("Int"),
        SeqType::Char => text.push_str("Char"),
        SeqType::Bool => text.push_str("Bool"),
        SeqType::List(t) => push_list(text, variables, t.get()),
        SeqType::Pair(t, u) => {
            text.push_char('(')?;
            push_type(text, variables, t.get())?;
            push_next(text, variables, u.get())?;
            text.push_char(')')
        }
        SeqType::Named(_, x, ts) => {
            text.push_chars(x.as_slice())?;
            push_arguments(text, variables, ts.as_slice())
        }
        SeqType::Variable(_, x) => variables.push(text, x),
    }
}

/// Puts the type of lists behind a text.
#[cycle(types)]
#[tactic(auto, using(crate::proofs::Pieces::pieces))]
fn push_list<V: Variables>(text: &mut Shown, variables: &V, t: &SeqType) -> Result<(), AllocError>
    ensures { OnOk result (text.new ≡ text.old ++ (codes "[" ++ written (V.spelling variables.now) (view_seq t.now) ++ codes "]")) }
{
    text.push_char('[')?;
    push_type(text, variables, t)?;
    text.push_char(']')
}

/// Puts arguments behind a text, in parentheses where there are any.
#[cycle(types)]
#[tactic(auto, using(crate::proofs::Pieces::arguments))]
pub(crate) fn push_arguments<V: Variables>(
    text: &mut Shown,
    variables: &V,
    ts: &[SeqType],
) -> Result<(), AllocError>
    ensures { OnOk result (text.new ≡ text.old ++ arguments (V.spelling variables.now) (seq_types (map view_seq ts.now))) }
{
    let [first, more @ ..] = ts else {
        return Ok(());
    };
    text.push_char('(')?;
    push_type(text, variables, first)?;
    for t in more {
        push_next(text, variables, t)?;
    }
    text.push_char(')')
}

/// Puts a comma and a type behind a text.
#[cycle(types)]
#[tactic(auto, using(crate::proofs::Pieces::pieces))]
fn push_next<V: Variables>(text: &mut Shown, variables: &V, t: &SeqType) -> Result<(), AllocError>
    ensures { OnOk result (text.new ≡ text.old ++ (codes ", " ++ written (V.spelling variables.now) (view_seq t.now))) }
{
    text.push_str(", ")?;
    push_type(text, variables, t)
}
