//! Numbers in words.
ghost use Rattle.std.specs.Prelude.{◌≡◌, ◌≤◌, ◌^◌, MatchOption, option_map, true};
ghost use Rattle.std.specs.Str.{all_ascii_digits};
ghost use Rattle.std.specs.Str.Parse.{digits_value};
ghost use Rattle.campl_orders.specs.Numbers.{is_numeral, number_in, number_or};

/// The most digits of a number.
const DIGITS_MAX: usize = 20;

/// The number that a word writes, where it is from `low` to `high`.
pub fn number_in(word: &str, low: u32, high: u32) -> Option<u32>
    ensures { result ≡ number_in low high word.now }
{
    if !is_numeral(word) {
        return None;
    }
    let Some(value) = value_of(word) else {
        return None;
    };
    if low <= value && value <= high {
        Some(value)
    } else {
        None
    }
}

// The value of digits, where it is below 2^32.
fn value_of(digits: &str) -> Option<u32>
    requires { is_numeral digits.now ≡ true }
    ensures { MatchOption result (2 ^ 32 ≤ digits_value 10 digits.now) (λ value. value ≡ digits_value 10 digits.now) }
{
    match digits.parse::<u32>() {
        Ok(value) => Some(value),
        Err(_) => None,
    }
}

/// The same, or `usual` where there is no word.
pub fn number_or(word: Option<&str>, low: u32, high: u32, usual: u32) -> Option<u32>
    ensures { result ≡ number_or low high usual (option_map (λ w. w.now) word.entry) }
{
    match word {
        Some(word) => number_in(word, low, high),
        None => Some(usual),
    }
}

// Whether a word is one to twenty digits.
fn is_numeral(word: &str) -> bool
    ensures { result ≡ is_numeral word.now }
{
    let count = word.len();
    0 < count && count <= DIGITS_MAX && are_digits(word.as_bytes())
}

// Whether each byte is a digit.
fn are_digits(bytes: &[u8]) -> bool
    ensures { result ≡ all_ascii_digits bytes.now }
{
    for byte in bytes {
        if !byte.is_ascii_digit() {
            return false;
        }
    }
    true
}
