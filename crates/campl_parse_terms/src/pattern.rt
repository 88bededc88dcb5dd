//! Patterns.
ghost use Rattle.std.specs.Prelude.{◌≡◌};
ghost use Rattle.campl_gram.specs.Reading.{next_in, adds};
ghost use Rattle.campl_grammar.specs.Terminal.{terminals};
ghost use Rattle.campl_grammar.specs.Tables.{starts};
ghost use Rattle.campl_grammar.specs.Rules.{read, piece, some_patterns as some_patterns_piece};
ghost use Rattle.campl_grammar.specs.Names as name;
ghost use Rattle.campl_parse_terms.specs.Patterns.{literal_pattern as literal_pattern_piece};
ghost use Rattle.campl_parse_terms.specs.Reads.{Reads};

use crate::cursor::Cursor;
use crate::error::ParseError;
use crate::{made, read};
use campl_lex::TokenKind;
use campl_tree::Pattern;
use sqlite_items::{Boxed, Items};
use std::alloc::Global;

/// Whether a pattern of one word may begin with the next word, or a negative number.
fn starts_simple(cursor: &Cursor<'_>) -> bool
    ensures { result ≡ next_in terminals (starts name.simple_pattern) cursor.now }
{
    let kinds = [
        TokenKind::Wildcard,
        TokenKind::Lower,
        TokenKind::Number,
        TokenKind::Minus,
        TokenKind::Character,
        TokenKind::Text,
        TokenKind::True,
        TokenKind::False,
    ];
    cursor.at_any(&kinds)
}

/// Whether a pattern may begin with the next word.
fn starts_pattern(cursor: &Cursor<'_>) -> bool
    ensures { result ≡ next_in terminals (starts name.patterns) cursor.now }
{
    let kinds = [
        TokenKind::Wildcard,
        TokenKind::Lower,
        TokenKind::Number,
        TokenKind::Minus,
        TokenKind::Character,
        TokenKind::Text,
        TokenKind::True,
        TokenKind::False,
        TokenKind::Upper,
        TokenKind::LeftBracket,
        TokenKind::LeftParen,
    ];
    cursor.at_any(&kinds)
}

/// A number, a negative number, a character, a text or a truth value.
fn literal_pattern(
    alloc: Global,
    cursor: &mut Cursor<'_>,
    depth: u32,
) -> Result<Pattern, ParseError>
    ensures { Reads (piece literal_pattern_piece depth cursor.old) result cursor.new }
{
    if let Some(word) = read!(cursor.take(TokenKind::Number, depth)) {
        return Ok(Pattern::Number(word.place(), word.number()));
    }
    if let Some(minus) = read!(cursor.take(TokenKind::Minus, depth)) {
        let word = read!(cursor.expect(TokenKind::Number, depth));
        return Ok(Pattern::Negative(minus.place(), word.number()));
    }
    if let Some(word) = read!(cursor.take(TokenKind::Character, depth)) {
        return Ok(Pattern::Character(word.place(), word.character()));
    }
    if let Some(word) = read!(cursor.take(TokenKind::Text, depth)) {
        return Ok(Pattern::Text(word.place(), made!(word.text(alloc))));
    }
    if let Some(word) = read!(cursor.take(TokenKind::True, depth)) {
        return Ok(Pattern::True(word.place()));
    }
    let word = read!(cursor.expect(TokenKind::False, depth));
    Ok(Pattern::False(word.place()))
}

/// A pattern without parts.
#[tactic(auto, using(campl_grammar::proofs::ByRule::reads_simple_pattern))]
fn simple_pattern(alloc: Global, cursor: &mut Cursor<'_>, depth: u32) -> Result<Pattern, ParseError>
    ensures { Reads (read name.simple_pattern depth cursor.old) result cursor.new }
{
    if let Some(word) = read!(cursor.take(TokenKind::Wildcard, depth)) {
        return Ok(Pattern::Wildcard(word.place()));
    }
    if let Some(word) = read!(cursor.take(TokenKind::Lower, depth)) {
        return Ok(Pattern::Variable(word.place(), made!(word.name(alloc))));
    }
    literal_pattern(alloc, cursor, depth)
}

/// A pattern that isn't `p : q`.
#[cycle(pattern)]
#[tactic(auto, using(campl_grammar::proofs::ByRule::reads_patom))]
fn patom(alloc: Global, cursor: &mut Cursor<'_>, depth: u32) -> Result<Pattern, ParseError>
    ensures { Reads (read name.patom depth cursor.old) result cursor.new }
{
    if starts_simple(cursor) {
        return simple_pattern(alloc, cursor, depth);
    }
    if cursor.at(TokenKind::Upper) {
        return constructor_pattern(alloc, cursor, depth);
    }
    if cursor.at(TokenKind::LeftBracket) {
        return list_pattern(alloc, cursor, depth);
    }
    grouped_pattern(alloc, cursor, depth)
}

/// A constructor and, in parentheses, its parts.
#[cycle(pattern)]
#[tactic(auto, using(campl_grammar::proofs::ByRule::reads_constructor_pattern, campl_gram::proofs::Lists::adds_none))]
fn constructor_pattern(
    alloc: Global,
    cursor: &mut Cursor<'_>,
    depth: u32,
) -> Result<Pattern, ParseError>
    ensures { Reads (read name.constructor_pattern depth cursor.old) result cursor.new }
{
    let word = read!(cursor.expect(TokenKind::Upper, depth));
    let name = made!(word.name(alloc));
    let parts = Items::new(alloc);
    if read!(cursor.take(TokenKind::LeftParen, depth)).is_none() {
        return Ok(Pattern::Constructor(word.place(), name, parts));
    }
    let parts = read!(patterns(alloc, cursor, depth + 1, parts));
    read!(cursor.expect(TokenKind::RightParen, depth + 1));
    Ok(Pattern::Constructor(word.place(), name, parts))
}

/// Patterns in brackets.
#[cycle(pattern)]
#[tactic(auto, using(campl_grammar::proofs::ByRule::reads_list_pattern))]
fn list_pattern(alloc: Global, cursor: &mut Cursor<'_>, depth: u32) -> Result<Pattern, ParseError>
    ensures { Reads (read name.list_pattern depth cursor.old) result cursor.new }
{
    let place = cursor.place();
    read!(cursor.expect(TokenKind::LeftBracket, depth));
    let parts = read!(some_patterns(alloc, cursor, depth + 1));
    read!(cursor.expect(TokenKind::RightBracket, depth + 1));
    Ok(Pattern::List(place, parts))
}

/// A pattern in parentheses, or a pair.
#[cycle(pattern)]
#[tactic(auto, using(campl_grammar::proofs::ByRule::reads_grouped_pattern))]
fn grouped_pattern(
    alloc: Global,
    cursor: &mut Cursor<'_>,
    depth: u32,
) -> Result<Pattern, ParseError>
    ensures { Reads (read name.grouped_pattern depth cursor.old) result cursor.new }
{
    let place = cursor.place();
    read!(cursor.expect(TokenKind::LeftParen, depth));
    let left = read!(pattern(alloc, cursor, depth + 1));
    if read!(cursor.take(TokenKind::Comma, depth + 1)).is_none() {
        read!(cursor.expect(TokenKind::RightParen, depth + 1));
        return Ok(left);
    }
    let right = read!(pattern(alloc, cursor, depth + 2));
    read!(cursor.expect(TokenKind::RightParen, depth + 1));
    let left = made!(Boxed::new(alloc, left));
    Ok(Pattern::Pair(place, left, made!(Boxed::new(alloc, right))))
}

/// A pattern.
#[cycle(pattern)]
#[tactic(auto, using(campl_grammar::proofs::ByRule::reads_pattern))]
pub fn pattern(alloc: Global, cursor: &mut Cursor<'_>, depth: u32) -> Result<Pattern, ParseError>
    ensures { Reads (read name.pattern depth cursor.old) result cursor.new }
{
    let place = cursor.place();
    let left = read!(patom(alloc, cursor, depth));
    if read!(cursor.take(TokenKind::Colon, depth)).is_none() {
        return Ok(left);
    }
    let right = read!(pattern(alloc, cursor, depth + 1));
    let left = made!(Boxed::new(alloc, left));
    Ok(Pattern::Cons(place, left, made!(Boxed::new(alloc, right))))
}

/// Adds patterns with commas between them.
#[cycle(pattern)]
#[tactic(auto, using(campl_grammar::proofs::ByRule::reads_patterns, campl_gram::proofs::Lists::adds_one))]
fn patterns(
    alloc: Global,
    cursor: &mut Cursor<'_>,
    depth: u32,
    mut found: Items<Pattern>,
) -> Result<Items<Pattern>, ParseError>
    ensures { Reads (adds found (read name.patterns depth cursor.old)) result cursor.new }
{
    made!(found.push(read!(pattern(alloc, cursor, depth))));
    match read!(cursor.take(TokenKind::Comma, depth)) {
        Some(_) => patterns(alloc, cursor, depth + 1, found),
        None => Ok(found),
    }
}

/// Patterns with commas between them, or none.
#[cycle(pattern)]
#[tactic(auto, using(campl_gram::proofs::Lists::adds_none))]
pub fn some_patterns(
    alloc: Global,
    cursor: &mut Cursor<'_>,
    depth: u32,
) -> Result<Items<Pattern>, ParseError>
    ensures { Reads (piece some_patterns_piece depth cursor.old) result cursor.new }
{
    let found = Items::new(alloc);
    if !starts_pattern(cursor) {
        return Ok(found);
    }
    patterns(alloc, cursor, depth, found)
}
