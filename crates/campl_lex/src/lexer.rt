//! Tokens of a text.
ghost use Rattle.std.specs.Prelude.{◌≡◌, ◌≢◌, ℕ, List, Result, ◌+◌, ◌++◌, ◌<◌, ◌≤◌, ◌^◌, Ok, Err, IfOk, IfErr, OnOk, MatchResult, length, chars};
ghost use Rattle.std.specs.List.{All};
ghost use Rattle.std.specs.Str.{encode_utf8_all};
ghost use Rattle.campl_lex.specs.Spot.{first_spot, first_place, place_past, bytes};
ghost use Rattle.campl_lex.specs.Reading.{lexed, tokens_of};
ghost use Rattle.campl_lex.specs.Layout.{Answers, IsWritten};
ghost use Rattle.campl_lex.specs.Tokens.{Lexes, Tells, IsSlice};
ghost use Rattle.campl_lex.specs.declared.token.Token.{Token};
ghost use Rattle.campl_lex.specs.declared.fault.LexFault.{LexFault};
ghost use Rattle.campl_lex.specs.declared.fault.LexFault.TheVariants.{OutOfMemory};

use crate::fault::LexFault;
use crate::piece::first_piece;
use crate::spot::{Spot, after, first_spot, past};
use crate::token::{Token, TokenKind};
use campl_text::Text;
use campl_tree::Place;
use std::alloc::{AllocError, Global};

/// The tokens of a text, in order, each the longest that begins at its place; or the text's first fault.
///
/// White space and comments are left out. Spans count bytes. `BadColumn` doesn't come.
pub fn lex(alloc: Global, text: &Text) -> Result<Vec<Token>, LexFault>
    ensures tells { Tells (chars text.now) result }
    ensures finds { (wanted : Result (List Token) LexFault) → Lexes first_spot (chars text.now) wanted → Answers wanted result }
    ensures written { IfOk result (λ tokens. All (IsWritten text.now) tokens.items) }
    ensures slices { IfOk result (λ tokens. All (IsSlice text.now) tokens.items) }
{
    let letters = letters(alloc, text)?;
    tokens_of(alloc, &letters)
}

/// A text has one list of tokens or one first fault, and never both.
pub fn one_answer()
    ensures { (text : List ℕ) (x y : Result (List Token) LexFault) → Lexes first_spot text x → Lexes first_spot text y → x ≡ y }
{}

/// The characters of a text.
fn letters(alloc: Global, text: &Text) -> Result<Vec<char>, AllocError>
    ensures letters { IfOk result (λ v. v.items ≡ chars text.now) }
    ensures bytes { bytes (chars text.now) ≡ length text.now }
    ensures small { length text.now ≤ 4294967294 }
    ensures encoded { encode_utf8_all (chars text.now) ≡ text.now }
{
    text.as_str().chars().collect(alloc)
}

/// Adds the token of this kind from a spot to before another, if it is one.
fn push_token(
    tokens: &mut Vec<Token>,
    kind: Option<TokenKind>,
    spot: Spot,
    behind: Spot,
) -> Result<(), LexFault>
    ensures ok { OnOk result (tokens.new.items ≡ tokens.old.items ++ tokens_of kind spot behind) }
    ensures err { IfErr result (λ fault. fault ≡ OutOfMemory) }
{
    if let Some(kind) = kind {
        tokens.push(Token {
            kind,
            start: spot.at,
            stop: behind.at,
            place: spot.place,
        })?;
    }
    Ok(())
}

/// The tokens of characters.
fn tokens_of(alloc: Global, text: &[char]) -> Result<Vec<Token>, LexFault>
    requires { bytes text.now ≤ 4294967294 }
    ensures { Answers (lexed 0 first_spot text.now) result }
{
    let mut tokens = Vec::new(alloc);
    let mut spot = first_spot();
    let mut rest = text;
    while !rest.is_empty() {
        let piece = first_piece(spot.place, rest)?;
        let behind = past(spot, &rest[..piece.length]);
        push_token(&mut tokens, piece.kind, spot, behind)?;
        spot = behind;
        rest = &rest[piece.length..];
    }
    Ok(tokens)
}

/// The place behind a text, where a next character would stand. It takes no memory.
pub fn end_of(text: &Text) -> Place
    ensures { result ≡ place_past first_place (chars text.now) }
{
    end_place(text.as_str())
}

fn end_place(text: &str) -> Place
    requires { length text.now ≤ 4294967294 }
    ensures { result ≡ place_past first_place (chars text.now) }
{
    let mut place = first_spot().place;
    for letter in text.chars() {
        place = after(place, letter);
    }
    place
}
