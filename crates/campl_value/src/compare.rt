// The order of values of the comparable types.
ghost use Rattle.std.specs.Prelude.{◌≡◌, ℕ, List, Some};
ghost use Rattle.std.specs.Cmp.Lexicographic.{slice_cmp};
ghost use Rattle.std.specs.Ordering.{nat_cmp};
ghost use Rattle.campl_value.specs.Compare.{compared, texts_compared};
ghost use Rattle.campl_value.specs.Text.{text_of};

use crate::text::{Front, front_of};
use crate::value::{Look, Value};
use std::cmp::Ordering;

impl Value {
    /// The order of this and `other` where both are integers, characters, truths or texts: `false`
    /// before `true`, and texts by the scalar values of their characters, a prefix first. Two texts are
    /// looked at up to the first characters that differ. `None` where what is looked at isn't two
    /// values of one of these types. It takes no memory.
    pub fn compare(&self, other: &Value) -> Option<Ordering>
        ensures value { result ≡ compared self.now other.now }
        ensures texts { (xs ys : List ℕ) → self.now ≡ text_of xs → other.now ≡ text_of ys
            → result ≡ Some (slice_cmp nat_cmp xs ys) }
    {
        match (self.look(), other.look()) {
            (Look::Int(a), Look::Int(b)) => Some(a.cmp(&b)),
            (Look::Char(a), Look::Char(b)) => Some(a.cmp(&b)),
            (Look::Truth(a), Look::Truth(b)) => Some(a.cmp(&b)),
            _ => compare_texts(self, other),
        }
    }
}

fn compare_texts(left: &Value, right: &Value) -> Option<Ordering>
    ensures { result ≡ texts_compared left.now right.now }
{
    let mut left = left.part();
    let mut right = right.part();
    loop {
        match (front_of(&left), front_of(&right)) {
            (Front::End, Front::End) => return Some(Ordering::Equal),
            (Front::End, Front::Letter(..)) => return Some(Ordering::Less),
            (Front::Letter(..), Front::End) => return Some(Ordering::Greater),
            (Front::Letter(a, behind_a), Front::Letter(b, behind_b)) => {
                if a != b {
                    return Some(a.cmp(&b));
                }
                left = behind_a;
                right = behind_b;
            }
            (Front::NoText, _) | (_, Front::NoText) => return None,
        }
    }
}
