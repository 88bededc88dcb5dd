//! Spots of a source: where a character stands, counted in bytes, in lines and in columns.
ghost use Rattle.std.specs.Prelude.{◌≡◌, ◌+◌, ◌<◌, ◌^◌, length};
ghost use Rattle.std.specs.Char.{len_utf8};
ghost use Rattle.campl_lex.specs.Spot.{after, past, bytes, first_spot};

use campl_tree::Place;

/// A spot of a source: how many bytes stand before it, and its place.
#[derive(Clone, Copy, Debug, PartialEq, Eq)]
pub struct Spot {
    pub at: u32,
    pub place: Place,
}

/// The first spot of a source.
pub fn first_spot() -> Spot
    ensures { result ≡ first_spot }
{
    Spot {
        at: 0,
        place: Place { line: 1, column: 1 },
    }
}

/// The place behind a character.
pub fn after(place: Place, letter: char) -> Place
    requires line { place.line + 1 < 2 ^ 32 }
    requires column { place.column + 1 < 2 ^ 32 }
    ensures { result ≡ after place letter }
{
    if letter == '\n' {
        Place {
            line: place.line + 1,
            column: 1,
        }
    } else {
        Place {
            line: place.line,
            column: place.column + 1,
        }
    }
}

/// The spot behind characters.
pub fn past(spot: Spot, text: &[char]) -> Spot
    requires at { spot.at + bytes text.now < 2 ^ 32 }
    requires line { spot.place.line + length text.now < 2 ^ 32 }
    requires column { spot.place.column + length text.now < 2 ^ 32 }
    ensures { result ≡ past spot text.now }
{
    let mut at = spot.at;
    let mut place = spot.place;
    for letter in text {
        at += letter.len_utf8() as u32;
        place = after(place, *letter);
    }
    Spot { at, place }
}
