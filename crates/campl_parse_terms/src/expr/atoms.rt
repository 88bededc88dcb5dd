//! Expressions without operators around them.
ghost use Rattle.std.specs.Prelude.{◌≡◌};
ghost use Rattle.campl_grammar.specs.Names as name;
ghost use Rattle.campl_grammar.specs.Rules.{read};
ghost use Rattle.campl_parse_terms.specs.Expressions.{ends_pair};
ghost use Rattle.campl_parse_terms.specs.Reads.{Reads};

use crate::cursor::Cursor;
use crate::error::ParseError;
use crate::expr::literals::{simple, starts_simple};
use crate::expr::{boxed_expr, expr, exprs, some_exprs};
use crate::{made, read};
use campl_lex::TokenKind;
use campl_tree::{Expr, Place};
use sqlite_items::{Boxed, Items};
use std::alloc::Global;

/// An expression without operators around it.
#[cycle(expr)]
#[tactic(auto, using(campl_grammar::proofs::ByRule::reads_atom))]
pub fn atom(alloc: Global, cursor: &mut Cursor<'_>, depth: u32) -> Result<Expr, ParseError>
    ensures { Reads (read name.atom depth cursor.old) result cursor.new }
{
    if starts_simple(cursor) {
        return simple(alloc, cursor, depth);
    }
    if cursor.at(TokenKind::Lower) {
        return variable(alloc, cursor, depth);
    }
    if cursor.at(TokenKind::Code) {
        return code(alloc, cursor, depth);
    }
    if cursor.at(TokenKind::Char) {
        return character(alloc, cursor, depth);
    }
    if cursor.at(TokenKind::Upper) {
        return constructor(alloc, cursor, depth);
    }
    if cursor.at(TokenKind::LeftBracket) {
        return listed(alloc, cursor, depth);
    }
    grouped(alloc, cursor, depth)
}

/// A variable, or a function's call.
#[cycle(expr)]
#[tactic(auto, using(campl_grammar::proofs::ByRule::reads_variable))]
fn variable(alloc: Global, cursor: &mut Cursor<'_>, depth: u32) -> Result<Expr, ParseError>
    ensures { Reads (read name.variable depth cursor.old) result cursor.new }
{
    let word = read!(cursor.expect(TokenKind::Lower, depth));
    let name = made!(word.name(alloc));
    if read!(cursor.take(TokenKind::LeftParen, depth)).is_none() {
        return Ok(Expr::Variable(word.place(), name));
    }
    let arguments = read!(some_exprs(alloc, cursor, depth + 1));
    read!(cursor.expect(TokenKind::RightParen, depth + 1));
    Ok(Expr::Call(word.place(), name, arguments))
}

/// `code(a)`.
#[cycle(expr)]
#[tactic(auto, using(campl_grammar::proofs::ByRule::reads_code))]
fn code(alloc: Global, cursor: &mut Cursor<'_>, depth: u32) -> Result<Expr, ParseError>
    ensures { Reads (read name.code depth cursor.old) result cursor.new }
{
    let place = read!(cursor.expect(TokenKind::Code, depth)).place();
    read!(cursor.expect(TokenKind::LeftParen, depth));
    let inner = read!(boxed_expr(alloc, cursor, depth + 1));
    read!(cursor.expect(TokenKind::RightParen, depth + 1));
    Ok(Expr::CodeOf(place, inner))
}

/// `char(a)`.
#[cycle(expr)]
#[tactic(auto, using(campl_grammar::proofs::ByRule::reads_character))]
fn character(alloc: Global, cursor: &mut Cursor<'_>, depth: u32) -> Result<Expr, ParseError>
    ensures { Reads (read name.character depth cursor.old) result cursor.new }
{
    let place = read!(cursor.expect(TokenKind::Char, depth)).place();
    read!(cursor.expect(TokenKind::LeftParen, depth));
    let inner = read!(boxed_expr(alloc, cursor, depth + 1));
    read!(cursor.expect(TokenKind::RightParen, depth + 1));
    Ok(Expr::CharOf(place, inner))
}

/// A constructor with its parts.
#[cycle(expr)]
#[tactic(auto, using(campl_grammar::proofs::ByRule::reads_constructor, campl_gram::proofs::Lists::adds_none))]
fn constructor(alloc: Global, cursor: &mut Cursor<'_>, depth: u32) -> Result<Expr, ParseError>
    ensures { Reads (read name.constructor depth cursor.old) result cursor.new }
{
    let word = read!(cursor.expect(TokenKind::Upper, depth));
    let name = made!(word.name(alloc));
    let none = Items::new(alloc);
    if read!(cursor.take(TokenKind::LeftParen, depth)).is_none() {
        return Ok(Expr::Constructor(word.place(), name, none));
    }
    let parts = read!(exprs(alloc, cursor, depth + 1, none));
    read!(cursor.expect(TokenKind::RightParen, depth + 1));
    Ok(Expr::Constructor(word.place(), name, parts))
}

/// `[a, b]`.
#[cycle(expr)]
#[tactic(auto, using(campl_grammar::proofs::ByRule::reads_listed))]
fn listed(alloc: Global, cursor: &mut Cursor<'_>, depth: u32) -> Result<Expr, ParseError>
    ensures { Reads (read name.listed depth cursor.old) result cursor.new }
{
    let place = cursor.place();
    read!(cursor.expect(TokenKind::LeftBracket, depth));
    let items = read!(some_exprs(alloc, cursor, depth + 1));
    read!(cursor.expect(TokenKind::RightBracket, depth + 1));
    Ok(Expr::List(place, items))
}

/// A pair, or an expression in parentheses.
#[cycle(expr)]
#[tactic(auto, using(campl_grammar::proofs::ByRule::reads_grouped))]
fn grouped(alloc: Global, cursor: &mut Cursor<'_>, depth: u32) -> Result<Expr, ParseError>
    ensures { Reads (read name.grouped depth cursor.old) result cursor.new }
{
    let place = cursor.place();
    read!(cursor.expect(TokenKind::LeftParen, depth));
    let first = read!(expr(alloc, cursor, depth + 1));
    if cursor.at(TokenKind::Comma) {
        return pair(alloc, cursor, depth + 1, place, first);
    }
    read!(cursor.expect(TokenKind::RightParen, depth + 1));
    Ok(first)
}

/// What stands in the parentheses of a pair behind its first part.
#[cycle(expr)]
fn pair(
    alloc: Global,
    cursor: &mut Cursor<'_>,
    depth: u32,
    place: Place,
    first: Expr,
) -> Result<Expr, ParseError>
    ensures { Reads (ends_pair place first depth cursor.old) result cursor.new }
{
    read!(cursor.expect(TokenKind::Comma, depth));
    let second = read!(boxed_expr(alloc, cursor, depth + 1));
    read!(cursor.expect(TokenKind::RightParen, depth));
    Ok(Expr::Pair(place, made!(Boxed::new(alloc, first)), second))
}
