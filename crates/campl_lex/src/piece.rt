//! The piece at the front of a text: white space, a comment, a token or a fault.
ghost use Rattle.std.specs.Prelude.{◌≡◌, ◌+◌, ◌<◌, ◌≤◌, ◌^◌, IfOk, length};
ghost use Rattle.campl_lex.specs.Tokens.{begins_with, begins_comment, is_white};
ghost use Rattle.campl_lex.specs.Reading.{right, closed_literal, literal, name_piece, number_piece, symbol_piece, blank, piece};

use crate::fault::LexFault;
use crate::kinds::{name_kind, symbol_kind, symbol_len};
use crate::letters::{begins_name, digits_len, line_len, name_len, number_fits};
use crate::limits::{NAME_MAX, TEXT_MAX};
use crate::literal::{Body, Stop, scan};
use crate::token::TokenKind;
use campl_tree::Place;

/// A piece of a text: how many characters it takes, and what token it is. White space and comments are none.
#[derive(Clone, Copy, Debug, PartialEq, Eq)]
pub struct Piece {
    pub kind: Option<TokenKind>,
    pub length: usize,
}

/// The place as many columns further on its line.
fn right(place: Place, columns: usize) -> Place
    requires { place.column + columns < 2 ^ 32 }
    ensures { result ≡ right place columns }
{
    Place {
        line: place.line,
        column: place.column + columns as u32,
    }
}

fn closed_literal(place: Place, quote: char, body: Body) -> Result<Piece, LexFault>
    requires { body.length < 2 ^ 32 }
    ensures { result ≡ closed_literal place quote body }
{
    let kind = if quote == '\'' {
        if body.count != 1 {
            return Err(LexFault::OpenString { place });
        }
        TokenKind::Character
    } else {
        if body.count > TEXT_MAX {
            return Err(LexFault::TextTooLong { place });
        }
        TokenKind::Text
    };
    Ok(Piece {
        kind: Some(kind),
        length: body.length + 2,
    })
}

/// The literal behind a quote.
fn literal(place: Place, quote: char, rest: &[char]) -> Result<Piece, LexFault>
    requires { place.column + length rest.now + 1 < 2 ^ 32 }
    ensures { result ≡ literal place quote rest.now }
{
    let body = scan(quote, rest);
    match body.stop {
        Stop::Tab => Err(LexFault::Tab {
            place: right(place, body.length + 1),
        }),
        Stop::Backslash => Err(LexFault::BadEscape {
            place: right(place, body.length + 1),
        }),
        Stop::LineEnd => Err(LexFault::OpenString { place }),
        Stop::Quote => closed_literal(place, quote, body),
    }
}

fn name_piece(place: Place, word: &[char]) -> Result<Piece, LexFault>
    ensures { result ≡ name_piece place word.now }
{
    if word.len() > NAME_MAX {
        return Err(LexFault::NameTooLong { place });
    }
    Ok(Piece {
        kind: Some(name_kind(word)),
        length: word.len(),
    })
}

fn number_piece(place: Place, digits: &[char]) -> Result<Piece, LexFault>
    ensures { result ≡ number_piece place digits.now }
{
    if !number_fits(digits) {
        return Err(LexFault::NumberTooLarge { place });
    }
    Ok(Piece {
        kind: Some(TokenKind::Number),
        length: digits.len(),
    })
}

/// The longest symbol at the front of a text.
fn symbol_piece(place: Place, text: &[char]) -> Result<Piece, LexFault>
    ensures { result ≡ symbol_piece place text.now }
{
    let [first, rest @ ..] = text else {
        return Err(LexFault::BadCharacter { place });
    };
    let length = symbol_len(*first, rest);
    if length == 0 {
        return Err(LexFault::BadCharacter { place });
    }
    Ok(Piece {
        kind: Some(symbol_kind(&text[..length])),
        length,
    })
}

fn is_white(first: char, rest: &[char]) -> bool
    ensures { result ≡ is_white first rest.now }
{
    first == ' ' || first == '\n' || first == '\r' && begins_with('\n', rest)
}

fn begins_with(letter: char, text: &[char]) -> bool
    ensures { result ≡ begins_with letter text.now }
{
    match text {
        [] => false,
        [first, ..] => *first == letter,
    }
}

fn begins_comment(text: &[char]) -> bool
    ensures { result ≡ begins_comment text.now }
{
    match text {
        [] => false,
        [first, rest @ ..] => *first == '-' && begins_with('-', rest),
    }
}

/// What stands at the front of a text that isn't empty.
pub fn first_piece(place: Place, text: &[char]) -> Result<Piece, LexFault>
    requires { place.column + length text.now < 2 ^ 32 }
    ensures piece { result ≡ piece place text.now }
    ensures moves { IfOk result (λ found. 0 < found.length) }
    ensures within { IfOk result (λ found. found.length ≤ length text.now) }
{
    classified(place, text)
}

#[tactic(auto, unfolding(crate::specs::Reading::piece))]
fn classified(place: Place, text: &[char]) -> Result<Piece, LexFault>
    requires { place.column + length text.now < 2 ^ 32 }
    ensures { result ≡ piece place text.now }
{
    let [first, rest @ ..] = text else {
        return Err(LexFault::BadCharacter { place });
    };
    let first = *first;
    if first == '\t' {
        return Err(LexFault::Tab { place });
    }
    if is_white(first, rest) {
        return Ok(blank(1));
    }
    if begins_comment(text) {
        return Ok(blank(line_len(rest) + 1));
    }
    if begins_name(first) {
        name_piece(place, &text[..name_len(rest) + 1])
    } else if first.is_ascii_digit() {
        number_piece(place, &text[..digits_len(rest) + 1])
    } else if first == '"' || first == '\'' {
        literal(place, first, rest)
    } else {
        symbol_piece(place, text)
    }
}

/// White space, or a comment.
fn blank(length: usize) -> Piece
    ensures { result ≡ blank length }
{
    Piece { kind: None, length }
}
