//! What the characters of a literal stand for.
ghost use Rattle.std.specs.Prelude.{◌≡◌, ◌∷◌, ◌<◌, [], IfOk, IfSome, MatchOption, length, chars};
ghost use Rattle.campl_lex.specs.Meaning.{unescaped, between};

use campl_lex::{Front, escape};
use sqlite_items::Items;
use std::alloc::{AllocError, Global};

/// What stands between the first character and the last.
pub fn between(text: &str) -> &str
    ensures { chars result.now ≡ between (chars text.now) }
{
    let mut letters = text.chars();
    letters.next();
    letters.next_back();
    letters.as_str()
}

/// The first character that a text stands for, and the text behind what spells it.
pub fn first_letter(text: &str) -> Option<(char, &str)>
    ensures letters { MatchOption result (chars text.now ≡ []) (λ p. unescaped 0 (chars text.now) ≡ p.0 ∷ unescaped 0 (chars p.1.now)) }
    ensures shorter { IfSome result (λ p. length (chars p.1.now) < length (chars text.now)) }
{
    let (letter, behind) = text.split_front()?;
    if letter == '\\'
        && let Some((found, _, rest)) = escape(behind)
    {
        return Some((found, rest));
    }
    Some((letter, behind))
}

/// The characters that a text stands for.
pub fn unescaped(alloc: Global, text: &str) -> Result<Items<char>, AllocError>
    ensures { IfOk result (λ found. found ≡ unescaped 0 (chars text.now)) }
{
    let mut found = Items::new(alloc);
    let mut rest = text;
    while let Some((letter, behind)) = first_letter(rest) {
        found.push(letter)?;
        rest = behind;
    }
    Ok(found)
}
