//! Tests.
ghost use Rattle.std.specs.Prelude.{◌≡◌};
ghost use Rattle.campl_types.specs.Names.{same_name};
ghost use Rattle.campl_code.specs.Compiled.{same_asked, is_against};
ghost use Rattle.campl_code.specs.Decisions.{same_head};
ghost use Rattle.campl_instructions.specs.View.{view_head};
ghost use Rattle.campl_match.specs.View.{view_asked};

use campl_instructions::{Head, Spot};

/// A test: whether the value at a place has a head.
#[derive(Drop)]
pub(crate) struct Asked {
    pub spot: Spot,
    pub head: Head,
}

impl Asked {
    /// Whether two tests are the same.
    pub(crate) fn same(&self, other: &Asked) -> bool
        ensures { result ≡ same_asked (view_asked self.now) (view_asked other.now) }
    {
        self.is_at(other) && same_head(&self.head, &other.head)
    }

    /// Whether the other test is at the same place, for another head.
    pub(crate) fn is_against(&self, other: &Asked) -> bool
        ensures { result ≡ is_against (view_asked self.now) (view_asked other.now) }
    {
        if self.is_at(other) {
            !same_head(&self.head, &other.head)
        } else {
            false
        }
    }

    /// Whether both are at the same place.
    fn is_at(&self, other: &Asked) -> bool
        ensures { result ≡ same_name self.now.spot other.now.spot }
    {
        self.spot.as_slice() == other.spot.as_slice()
    }
}

fn same_head(a: &Head, b: &Head) -> bool
    ensures { result ≡ same_head (view_head a.now) (view_head b.now) }
{
    match (a, b) {
        (Head::Int(n), Head::Int(m)) => *n == *m,
        (Head::Char(c), Head::Char(d)) => *c == *d,
        (Head::Truth(b), Head::Truth(c)) => *b == *c,
        (Head::Nil, Head::Nil) => true,
        (Head::Cell, Head::Cell) => true,
        (Head::Pair, Head::Pair) => true,
        (Head::Built(c, n), Head::Built(d, m)) => *c == *d && *n == *m,
        _ => false,
    }
}
