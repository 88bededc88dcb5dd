//! The receipt with which a body begins.
ghost use Rattle.std.specs.Prelude.{◌≡◌};
ghost use Rattle.campl_tree.specs.View.{view_action, view_last, view_body};
ghost use Rattle.campl_types.specs.declared.act.Act as act;
ghost use Rattle.campl_rows.specs.Receipts.{receipt_of, action_receipt, view_receipt, is_at};

use campl_tree::{Action, Body, Last, Name};
use campl_types::Act;

/// What a body receives first, and the name of the channel on which it does.
#[derive(Clone, Copy)]
pub(crate) enum Receipt<'a> {
    /// A value, by `get`.
    Value(&'a Name),
    /// Two channels, by `split`.
    Channels(&'a Name),
    /// A constructor, by `hcase`.
    Constructor(&'a Name),
    /// It begins with another command.
    Nothing,
}

/// The receipt with which a body begins.
pub(crate) fn receipt_of(body: &Body) -> Receipt<'_>
    ensures { view_receipt result ≡ receipt_of (view_body body.now) }
{
    match body.actions.as_slice().first() {
        Some(action) => action_receipt(action),
        None => last_receipt(&body.last),
    }
}

/// The receipt that a command is.
fn action_receipt(action: &Action) -> Receipt<'_>
    ensures { view_receipt result ≡ action_receipt (view_action action.now) }
{
    match action {
        Action::Get(_, _, x) => Receipt::Value(&x.name),
        Action::Split(_, x, _, _) => Receipt::Channels(&x.name),
        Action::Put(_, _, _) => Receipt::Nothing,
        Action::Hput(_, _, _) => Receipt::Nothing,
        Action::Close(_, _) => Receipt::Nothing,
    }
}

/// The receipt that a last command is.
#[tactic(auto, using(crate::proofs::Received::lasts))]
fn last_receipt(last: &Last) -> Receipt<'_>
    ensures { view_receipt result ≡ receipt_of (view_last last.now) }
{
    match last {
        Last::Hcase(_, x, _) => Receipt::Constructor(&x.name),
        Last::Halt(_, _) => Receipt::Nothing,
        Last::Fork(_, _, _, _) => Receipt::Nothing,
        Last::Plug(_, _, _) => Receipt::Nothing,
        Last::Race(_, _) => Receipt::Nothing,
        Last::Case(_, _, _) => Receipt::Nothing,
        Last::Identity(_, _, _, _) => Receipt::Nothing,
        Last::Call(_, _, _, _, _) => Receipt::Nothing,
    }
}

impl<'a> Receipt<'a> {
    /// Whether it is this act, on the channel of this name.
    pub(crate) fn is_at(self, act: Act, x: &Name) -> bool
        ensures { result ≡ is_at act x.now (view_receipt self.entry) }
    {
        match self {
            Receipt::Value(y) => matches!(act, Act::Get) && *x == *y,
            Receipt::Channels(y) => matches!(act, Act::Split) && *x == *y,
            Receipt::Constructor(y) => matches!(act, Act::Offer) && *x == *y,
            Receipt::Nothing => false,
        }
    }
}
