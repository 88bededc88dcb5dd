//! Runs of characters: names, digits, comments.
ghost use Rattle.std.specs.Prelude.{◌≡◌, ◌≤◌, ◌==◌, not, length, nat_le, slice_index_or};
ghost use Rattle.std.specs.List.{prefix_len};
ghost use Rattle.std.specs.Char.{is_ascii_digit};
ghost use Rattle.std.specs.Str.{bytes_eq};
ghost use Rattle.campl_lex.specs.Spelling.{begins_name, goes_on, number_of};
ghost use Rattle.campl_lex.specs.Limits.{greatest_number};

use crate::limits::NUMBER_MAX;

/// Whether a name may begin with the character.
pub fn begins_name(letter: char) -> bool
    ensures { result ≡ begins_name letter }
{
    unicode_ident::is_xid_start(letter) || letter == '_'
}

/// Whether a name may go on with the character.
pub fn goes_on(letter: char) -> bool
    ensures { result ≡ goes_on letter }
{
    unicode_ident::is_xid_continue(letter) || letter == '\''
}

/// Whether the characters are this ASCII word.
pub fn same(text: &[char], word: &str) -> bool
    ensures { result ≡ bytes_eq text.now word.now }
{
    let word = word.as_bytes();
    if text.len() != word.len() {
        return false;
    }
    for (i, letter) in text.iter().enumerate() {
        if *letter as u32 != u32::from(word[i]) {
            return false;
        }
    }
    true
}

/// The character at an index, U+0000 past the end.
pub fn peek(text: &[char], index: usize) -> char
    ensures { result ≡ slice_index_or text.now index 0 }
{
    match text.get(index) {
        Some(letter) => *letter,
        None => '\0',
    }
}

/// How many characters a name goes on with.
pub fn name_len(text: &[char]) -> usize
    ensures value { result ≡ prefix_len goes_on text.now }
    ensures within { result ≤ length text.now }
{
    for (i, letter) in text.iter().enumerate() {
        if !goes_on(*letter) {
            return i;
        }
    }
    text.len()
}

/// How many digits a number goes on with.
pub fn digits_len(text: &[char]) -> usize
    ensures value { result ≡ prefix_len is_ascii_digit text.now }
    ensures within { result ≤ length text.now }
{
    for (i, letter) in text.iter().enumerate() {
        if !letter.is_ascii_digit() {
            return i;
        }
    }
    text.len()
}

/// How many characters stand before the end of the line.
pub fn line_len(text: &[char]) -> usize
    ensures value { result ≡ prefix_len (λ c. not (c == 10)) text.now }
    ensures within { result ≤ length text.now }
{
    for (i, letter) in text.iter().enumerate() {
        if *letter == '\n' {
            return i;
        }
    }
    text.len()
}

/// Whether digits are a number within the limit.
pub fn number_fits(digits: &[char]) -> bool
    ensures { result ≡ nat_le (number_of digits.now) greatest_number }
{
    let mut value: u128 = 0;
    for digit in digits {
        value = value * 10 + u128::from((*digit as u32).saturating_sub(48));
        if value > u128::from(NUMBER_MAX) {
            return false;
        }
    }
    true
}
