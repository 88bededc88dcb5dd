//! Lists of names, and what a process names for a value.
ghost use Rattle.std.specs.Prelude.{◌≡◌};
ghost use Rattle.campl_gram.specs.Reading.{adds, next_in};
ghost use Rattle.campl_grammar.specs.Terminal.{terminals};
ghost use Rattle.campl_grammar.specs.Tables.{starts};
ghost use Rattle.campl_grammar.specs.Rules.{read, piece, some_vars as some_vars_piece};
ghost use Rattle.campl_grammar.specs.Names as name;
ghost use Rattle.campl_parse_terms.specs.Pieces.{names_behind as names_behind_piece};
ghost use Rattle.campl_parse_terms.specs.Reads.{Reads};

use crate::cursor::Cursor;
use crate::error::ParseError;
use crate::{made, read};
use campl_lex::TokenKind;
use campl_tree::{Binder, Ident};
use sqlite_items::Items;
use std::alloc::Global;

/// Names in parentheses, or nothing.
#[tactic(auto, using(campl_grammar::proofs::ByRule::reads_parameters, campl_gram::proofs::Lists::adds_none))]
pub fn parameters(
    alloc: Global,
    cursor: &mut Cursor<'_>,
    depth: u32,
) -> Result<Items<Ident>, ParseError>
    ensures { Reads (read name.parameters depth cursor.old) result cursor.new }
{
    let none = Items::new(alloc);
    if read!(cursor.take(TokenKind::LeftParen, depth)).is_none() {
        return Ok(none);
    }
    let found = read!(idents(alloc, cursor, depth + 1, none));
    read!(cursor.expect(TokenKind::RightParen, depth + 1));
    Ok(found)
}

/// Names with commas between them, or none.
#[tactic(auto, using(campl_grammar::proofs::ByRule::reads_names, campl_gram::proofs::Lists::adds_none))]
pub fn names(alloc: Global, cursor: &mut Cursor<'_>, depth: u32) -> Result<Items<Ident>, ParseError>
    ensures { Reads (read name.names depth cursor.old) result cursor.new }
{
    let found = Items::new(alloc);
    if !cursor.at(TokenKind::Lower) {
        return Ok(found);
    }
    idents(alloc, cursor, depth, found)
}

/// A word of this kind, and names with commas between them, or none.
pub fn names_behind(
    alloc: Global,
    cursor: &mut Cursor<'_>,
    kind: TokenKind,
    depth: u32,
) -> Result<Items<Ident>, ParseError>
    ensures { Reads (piece (names_behind_piece kind) depth cursor.old) result cursor.new }
{
    read!(cursor.expect(kind, depth));
    names(alloc, cursor, depth)
}

/// Adds names with commas between them.
#[tactic(auto, using(campl_grammar::proofs::ByRule::reads_idents, campl_gram::proofs::Lists::adds_one))]
pub fn idents(
    alloc: Global,
    cursor: &mut Cursor<'_>,
    depth: u32,
    mut found: Items<Ident>,
) -> Result<Items<Ident>, ParseError>
    ensures { Reads (adds found (read name.idents depth cursor.old)) result cursor.new }
{
    made!(found.push(read!(cursor.lower(alloc, depth))));
    match read!(cursor.take(TokenKind::Comma, depth)) {
        Some(_) => idents(alloc, cursor, depth + 1, found),
        None => Ok(found),
    }
}

/// Whether a name or `_` is the next word.
fn starts_var(cursor: &Cursor<'_>) -> bool
    ensures { result ≡ next_in terminals (starts name.var) cursor.now }
{
    cursor.at_any(&[TokenKind::Lower, TokenKind::Wildcard])
}

/// Names or `_` with commas between them, or none.
#[tactic(auto, using(campl_gram::proofs::Lists::adds_none))]
pub fn some_vars(
    alloc: Global,
    cursor: &mut Cursor<'_>,
    depth: u32,
) -> Result<Items<Binder>, ParseError>
    ensures { Reads (piece some_vars_piece depth cursor.old) result cursor.new }
{
    let found = Items::new(alloc);
    if !starts_var(cursor) {
        return Ok(found);
    }
    vars(alloc, cursor, depth, found)
}

/// Adds names or `_` with commas between them.
#[tactic(auto, using(campl_grammar::proofs::ByRule::reads_vars, campl_gram::proofs::Lists::adds_one))]
fn vars(
    alloc: Global,
    cursor: &mut Cursor<'_>,
    depth: u32,
    mut found: Items<Binder>,
) -> Result<Items<Binder>, ParseError>
    ensures { Reads (adds found (read name.vars depth cursor.old)) result cursor.new }
{
    made!(found.push(read!(var(alloc, cursor, depth))));
    match read!(cursor.take(TokenKind::Comma, depth)) {
        Some(_) => vars(alloc, cursor, depth + 1, found),
        None => Ok(found),
    }
}

/// A name, or `_`.
#[tactic(auto, using(campl_grammar::proofs::ByRule::reads_var))]
pub fn var(alloc: Global, cursor: &mut Cursor<'_>, depth: u32) -> Result<Binder, ParseError>
    ensures { Reads (read name.var depth cursor.old) result cursor.new }
{
    if let Some(word) = read!(cursor.take(TokenKind::Lower, depth)) {
        return Ok(Binder::Variable(word.place(), made!(word.name(alloc))));
    }
    let word = read!(cursor.expect(TokenKind::Wildcard, depth));
    Ok(Binder::Wildcard(word.place()))
}
