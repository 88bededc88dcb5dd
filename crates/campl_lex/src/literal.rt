//! Literals: what stands between their quotes.
ghost use Rattle.std.specs.Prelude.{◌≡◌, ◌+◌, ◌<◌, ◌≤◌, length};
ghost use Rattle.campl_lex.specs.Reading.{scan, stop_of, item_len, escape_len};

use crate::unescape::escape;

/// Why a literal goes on no further.
#[derive(Clone, Copy, Debug, PartialEq, Eq)]
pub enum Stop {
    /// Its closing quote.
    Quote,
    /// The end of the line or of the text.
    LineEnd,
    Tab,
    /// A backslash that begins no escape.
    Backslash,
}

/// What stands in a literal up to where it stops.
#[derive(Clone, Copy, Debug, PartialEq, Eq)]
pub struct Body {
    pub stop: Stop,
    /// How many characters it takes.
    pub length: usize,
    /// How many characters it stands for.
    pub count: usize,
}

/// The length of the escape behind a backslash; 0 where it is none.
#[tactic(auto, using(crate::proofs::Scanning::escape_within))]
fn escape_len(text: &[char]) -> usize
    ensures value { result ≡ escape_len text.now }
    ensures within { result ≤ length text.now }
{
    match escape(text) {
        Some((_, length, _)) => length,
        None => 0,
    }
}

/// Why a literal of this quote stops before these characters, if it does.
fn stop_of(quote: char, text: &[char]) -> Option<Stop>
    ensures { result ≡ stop_of quote text.now }
{
    let [first, rest @ ..] = text else {
        return Some(Stop::LineEnd);
    };
    if *first == '\t' {
        Some(Stop::Tab)
    } else if *first == '\n' {
        Some(Stop::LineEnd)
    } else if *first == quote {
        Some(Stop::Quote)
    } else if *first == '\\' && escape_len(rest) == 0 {
        Some(Stop::Backslash)
    } else {
        None
    }
}

/// How many characters spell the first one that a literal goes on with.
fn item_len(text: &[char]) -> usize
    requires { 0 < length text.now }
    ensures value { result ≡ item_len text.now }
    ensures moves { 0 < result }
    ensures within { result ≤ length text.now }
{
    match text {
        ['\\', rest @ ..] => escape_len(rest) + 1,
        _ => 1,
    }
}

/// What stands in a literal of this quote up to where it stops.
pub fn scan(quote: char, text: &[char]) -> Body
    ensures body { result ≡ scan quote 0 text.now }
    ensures within { result.length ≤ length text.now }
    ensures count { result.count ≤ result.length }
{
    let mut length = 0;
    let mut count = 0;
    loop {
        let rest = &text[length..];
        if let Some(stop) = stop_of(quote, rest) {
            return Body {
                stop,
                length,
                count,
            };
        }
        length += item_len(rest);
        count += 1;
    }
}
