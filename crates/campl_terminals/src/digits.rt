//! The number that digits spell.
ghost use Rattle.std.specs.Prelude.{◌≡◌, ◌≤◌, ◌+◌, ◌-◌, ◌*◌, min};
ghost use Rattle.campl_lex.specs.Limits.{greatest_number};
ghost use Rattle.campl_grammar.specs.Terminal.{digits};

use campl_lex::NUMBER_MAX;

/// The number with one more digit, or `NUMBER_MAX` where it is above that.
fn with_digit(value: u64, digit: u8) -> u64
    ensures { result ≡ min (value * 10 + (digit - 48)) greatest_number }
{
    let digit = u64::from(digit.saturating_sub(b'0'));
    value
        .saturating_mul(10)
        .saturating_add(digit)
        .min(NUMBER_MAX)
}

/// The number that digits are, or `NUMBER_MAX` where it is above that.
#[tactic(auto, unfolding(campl_grammar::specs::Terminal::digits))]
pub fn digits(text: &[u8]) -> u64
    ensures value { result ≡ digits text.now }
    ensures within { result ≤ greatest_number }
{
    let mut value = 0;
    for digit in text {
        value = with_digit(value, *digit);
    }
    value
}
