//! Escapes.
ghost use Rattle.std.specs.Prelude.{◌≡◌};
ghost use Rattle.std.specs.List.{prefix_len};
ghost use Rattle.campl_lex.specs.Literal.{short_escape, is_hex_digit};
ghost use Rattle.campl_lex.specs.Meaning.{braced, unicode, escape, Finds};

use crate::front::Front;

/// What a character behind a backslash stands for by itself.
fn short_escape(letter: char) -> Option<char>
    ensures { result ≡ short_escape letter }
{
    match letter {
        'n' => Some('\n'),
        'r' => Some('\r'),
        't' => Some('\t'),
        '\\' | '"' | '\'' => Some(letter),
        _ => None,
    }
}

/// The escape of digits in braces that begins behind a `{`.
fn braced<F: Front>(text: F) -> Option<(char, usize, F)>
    ensures { Finds F.letters 2 (braced (prefix_len is_hex_digit (F.letters text)) (F.letters text)) (F.letters text) result }
{
    let mut value: u32 = 0;
    let mut rest = text;
    for count in 0usize..7 {
        let (letter, behind) = rest.split_front()?;
        if letter == '}' {
            return if count == 0 {
                None
            } else {
                Some((char::from_u32(value)?, count + 3, behind))
            };
        }
        value = value * 16 + letter.to_digit(16)?;
        rest = behind;
    }
    None
}

/// The same from behind its `u`.
fn unicode<F: Front>(text: F) -> Option<(char, usize, F)>
    ensures { Finds F.letters 1 (unicode (F.letters text)) (F.letters text) result }
{
    let (letter, behind) = text.split_front()?;
    if letter == '{' { braced(behind) } else { None }
}

/// The escape that begins behind a backslash: its character, how many characters spell it behind the backslash, and those behind it.
pub fn escape<F: Front>(text: F) -> Option<(char, usize, F)>
    ensures { Finds F.letters 0 (escape (F.letters text)) (F.letters text) result }
{
    let (letter, behind) = text.split_front()?;
    if let Some(found) = short_escape(letter) {
        return Some((found, 1, behind));
    }
    if letter == 'u' { unicode(behind) } else { None }
}
