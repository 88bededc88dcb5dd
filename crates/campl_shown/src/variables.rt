//! How the variables of types are written.
ghost use Rattle.std.specs.Prelude.{◌≡◌, ◌++◌, List, ℕ, OnOk};
ghost use Rattle.campl_shown.specs.Types.{or_unknown};
ghost use Rattle.campl_names.specs.Filling.{view_filling};
ghost use Rattle.campl_types.specs.Names.{found};

use crate::shown::Shown;
use crate::types::push_type;
use campl_names::Filling;
use campl_tree::Name;
use std::alloc::AllocError;

/// A way to write variables.
pub(crate) trait Variables {
    ghost spelling: { Self → List ℕ → List ℕ };

    /// Puts a variable behind a text.
    fn push(&self, text: &mut Shown, name: &Name) -> Result<(), AllocError>
        ensures { OnOk result (text.new ≡ text.old ++ spelling self.now name.now) };
}

/// Variables as their names.
#[derive(Clone, Copy)]
pub(crate) struct Names;

impl Variables for Names {
    ghost spelling = { λ _ x. x };

    fn push(&self, text: &mut Shown, name: &Name) -> Result<(), AllocError> {
        text.push_chars(name.as_slice())
    }
}

/// Variables as what they stand for, and `_` where they stand for nothing.
#[derive(Clone, Copy)]
pub(crate) struct Types<'a> {
    pub(crate) filling: &'a Filling,
}

impl Variables for Types<'_> {
    ghost spelling = { λ v x. or_unknown (found x (view_filling v.filling.now)) };

    #[tactic(auto, using(crate::proofs::Pieces::standing))]
    fn push(&self, text: &mut Shown, name: &Name) -> Result<(), AllocError> {
        match self.filling.find(name) {
            Some(t) => push_type(text, &Names, t),
            None => text.push_char('_'),
        }
    }
}
