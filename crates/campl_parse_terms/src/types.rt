//! Types of values and of channels.
ghost use Rattle.std.specs.Prelude.{◌≡◌, ◌≤◌, OnOk};
ghost use Rattle.campl_gram.specs.Reading.{adds, next_in};
ghost use Rattle.campl_grammar.specs.Terminal.{terminals};
ghost use Rattle.campl_grammar.specs.Names as name;
ghost use Rattle.campl_grammar.specs.Tables.{starts};
ghost use Rattle.campl_grammar.specs.Rules.{read, piece, some_stypes as some_stypes_piece, some_ctypes as some_ctypes_piece};
ghost use Rattle.campl_parse_terms.specs.Pieces.{list_type as list_type_piece, named_or_grouped as named_or_grouped_piece, tensor as tensor_piece, par as par_piece, of_left};
ghost use Rattle.campl_parse_terms.specs.Reads.{Reads};

use crate::cursor::Cursor;
use crate::error::ParseError;
use crate::{made, read};
use campl_lex::TokenKind;
use campl_tree::{ChanType, SeqType};
use sqlite_items::{Boxed, Items};
use std::alloc::Global;

/// Whether the type of a value may begin with the next word.
fn starts_stype(cursor: &Cursor<'_>) -> bool
    ensures { result ≡ next_in terminals (starts name.stype) cursor.now }
{
    let kinds = [
        TokenKind::IntType,
        TokenKind::CharType,
        TokenKind::BoolType,
        TokenKind::LeftBracket,
        TokenKind::Lower,
        TokenKind::Upper,
        TokenKind::LeftParen,
    ];
    cursor.at_any(&kinds)
}

/// Types of values with commas between them, or none.
#[tactic(auto, using(campl_gram::proofs::Lists::adds_none))]
pub fn some_stypes(
    alloc: Global,
    cursor: &mut Cursor<'_>,
    depth: u32,
) -> Result<Items<SeqType>, ParseError>
    ensures { Reads (piece some_stypes_piece depth cursor.old) result cursor.new }
{
    let found = Items::new(alloc);
    if !starts_stype(cursor) {
        return Ok(found);
    }
    stypes(alloc, cursor, depth, found)
}

/// Adds types of values with commas between them.
#[cycle(stype)]
#[tactic(auto, using(campl_grammar::proofs::ByRule::reads_stypes, campl_gram::proofs::Lists::adds_one))]
fn stypes(
    alloc: Global,
    cursor: &mut Cursor<'_>,
    depth: u32,
    mut found: Items<SeqType>,
) -> Result<Items<SeqType>, ParseError>
    ensures { Reads (adds found (read name.stypes depth cursor.old)) result cursor.new }
{
    made!(found.push(read!(stype(alloc, cursor, depth))));
    match read!(cursor.take(TokenKind::Comma, depth)) {
        Some(_) => stypes(alloc, cursor, depth + 1, found),
        None => Ok(found),
    }
}

/// The type of a value.
#[cycle(stype)]
#[tactic(auto, using(campl_grammar::proofs::ByRule::reads_stype))]
pub fn stype(alloc: Global, cursor: &mut Cursor<'_>, depth: u32) -> Result<SeqType, ParseError>
    ensures { Reads (read name.stype depth cursor.old) result cursor.new }
{
    if read!(cursor.take(TokenKind::IntType, depth)).is_some() {
        return Ok(SeqType::Int);
    }
    if read!(cursor.take(TokenKind::CharType, depth)).is_some() {
        return Ok(SeqType::Char);
    }
    if read!(cursor.take(TokenKind::BoolType, depth)).is_some() {
        return Ok(SeqType::Bool);
    }
    if cursor.at(TokenKind::LeftBracket) {
        return list_type(alloc, cursor, depth);
    }
    named_or_grouped(alloc, cursor, depth)
}

/// A list's type.
#[cycle(stype)]
fn list_type(alloc: Global, cursor: &mut Cursor<'_>, depth: u32) -> Result<SeqType, ParseError>
    ensures { Reads (piece list_type_piece depth cursor.old) result cursor.new }
{
    read!(cursor.expect(TokenKind::LeftBracket, depth));
    let inner = read!(stype(alloc, cursor, depth + 1));
    read!(cursor.expect(TokenKind::RightBracket, depth + 1));
    Ok(SeqType::List(made!(Boxed::new(alloc, inner))))
}

/// A type parameter, a data type at its arguments, a pair's type, or a type in parentheses.
#[cycle(stype)]
fn named_or_grouped(
    alloc: Global,
    cursor: &mut Cursor<'_>,
    depth: u32,
) -> Result<SeqType, ParseError>
    ensures { Reads (piece named_or_grouped_piece depth cursor.old) result cursor.new }
{
    if let Some(word) = read!(cursor.take(TokenKind::Lower, depth)) {
        return Ok(SeqType::Variable(word.place(), made!(word.name(alloc))));
    }
    if let Some(word) = read!(cursor.take(TokenKind::Upper, depth)) {
        let name = made!(word.name(alloc));
        let arguments = read!(type_arguments(alloc, cursor, depth));
        return Ok(SeqType::Named(word.place(), name, arguments));
    }
    grouped_type(alloc, cursor, depth)
}

/// A pair's type, or a type in parentheses.
#[cycle(stype)]
#[tactic(auto, using(campl_grammar::proofs::ByRule::reads_grouped_type))]
fn grouped_type(alloc: Global, cursor: &mut Cursor<'_>, depth: u32) -> Result<SeqType, ParseError>
    ensures { Reads (read name.grouped_type depth cursor.old) result cursor.new }
{
    read!(cursor.expect(TokenKind::LeftParen, depth));
    let first = read!(stype(alloc, cursor, depth + 1));
    if read!(cursor.take(TokenKind::Comma, depth + 1)).is_none() {
        read!(cursor.expect(TokenKind::RightParen, depth + 1));
        return Ok(first);
    }
    let second = read!(stype(alloc, cursor, depth + 2));
    read!(cursor.expect(TokenKind::RightParen, depth + 1));
    Ok(SeqType::Pair(
        made!(Boxed::new(alloc, first)),
        made!(Boxed::new(alloc, second)),
    ))
}

/// Types of values in parentheses, or nothing.
#[cycle(stype)]
#[tactic(auto, using(campl_grammar::proofs::ByRule::reads_type_arguments, campl_gram::proofs::Lists::adds_none))]
pub fn type_arguments(
    alloc: Global,
    cursor: &mut Cursor<'_>,
    depth: u32,
) -> Result<Items<SeqType>, ParseError>
    ensures { Reads (read name.type_arguments depth cursor.old) result cursor.new }
{
    let none = Items::new(alloc);
    if read!(cursor.take(TokenKind::LeftParen, depth)).is_none() {
        return Ok(none);
    }
    let found = read!(stypes(alloc, cursor, depth + 1, none));
    read!(cursor.expect(TokenKind::RightParen, depth + 1));
    Ok(found)
}

/// Whether the type of a channel may begin with the next word.
fn starts_ctype(cursor: &Cursor<'_>) -> bool
    ensures { result ≡ next_in terminals (starts name.ctype) cursor.now }
{
    let kinds = [
        TokenKind::PutType,
        TokenKind::GetType,
        TokenKind::NegType,
        TokenKind::TopBot,
        TokenKind::Upper,
        TokenKind::LeftParen,
    ];
    cursor.at_any(&kinds)
}

/// Types of channels with commas between them, or none.
#[tactic(auto, using(campl_gram::proofs::Lists::adds_none))]
pub fn some_ctypes(
    alloc: Global,
    cursor: &mut Cursor<'_>,
    depth: u32,
) -> Result<Items<ChanType>, ParseError>
    ensures { Reads (piece some_ctypes_piece depth cursor.old) result cursor.new }
{
    let found = Items::new(alloc);
    if !starts_ctype(cursor) {
        return Ok(found);
    }
    ctypes(alloc, cursor, depth, found)
}

/// Adds types of channels with commas between them.
#[tactic(auto, using(campl_grammar::proofs::ByRule::reads_ctypes, campl_gram::proofs::Lists::adds_one))]
fn ctypes(
    alloc: Global,
    cursor: &mut Cursor<'_>,
    depth: u32,
    mut found: Items<ChanType>,
) -> Result<Items<ChanType>, ParseError>
    ensures { Reads (adds found (read name.ctypes depth cursor.old)) result cursor.new }
{
    made!(found.push(read!(ctype(alloc, cursor, depth))));
    match read!(cursor.take(TokenKind::Comma, depth)) {
        Some(_) => ctypes(alloc, cursor, depth + 1, found),
        None => Ok(found),
    }
}

/// The type of a channel.
#[cycle(ctype)]
#[tactic(auto, using(campl_grammar::proofs::ByRule::reads_ctype))]
pub fn ctype(alloc: Global, cursor: &mut Cursor<'_>, depth: u32) -> Result<ChanType, ParseError>
    ensures { Reads (read name.ctype depth cursor.old) result cursor.new }
{
    let left = read!(catom(alloc, cursor, depth));
    if cursor.at(TokenKind::Tensor) {
        return tensor(alloc, cursor, depth, left);
    }
    if cursor.at(TokenKind::Par) {
        return par(alloc, cursor, depth, left);
    }
    Ok(left)
}

/// `(*)` and its right operand, behind this left one.
#[cycle(ctype)]
fn tensor(
    alloc: Global,
    cursor: &mut Cursor<'_>,
    depth: u32,
    left: ChanType,
) -> Result<ChanType, ParseError>
    ensures { Reads (of_left left (piece tensor_piece depth cursor.old)) result cursor.new }
{
    read!(cursor.expect(TokenKind::Tensor, depth));
    let right = read!(catom(alloc, cursor, depth + 1));
    Ok(ChanType::Tensor(
        made!(Boxed::new(alloc, left)),
        made!(Boxed::new(alloc, right)),
    ))
}

/// `(+)` and its right operand, behind this left one.
#[cycle(ctype)]
fn par(
    alloc: Global,
    cursor: &mut Cursor<'_>,
    depth: u32,
    left: ChanType,
) -> Result<ChanType, ParseError>
    ensures { Reads (of_left left (piece par_piece depth cursor.old)) result cursor.new }
{
    read!(cursor.expect(TokenKind::Par, depth));
    let right = read!(catom(alloc, cursor, depth + 1));
    Ok(ChanType::Par(
        made!(Boxed::new(alloc, left)),
        made!(Boxed::new(alloc, right)),
    ))
}

/// The type of a channel without an operator at its top.
#[cycle(ctype)]
#[tactic(auto, using(campl_grammar::proofs::ByRule::reads_catom))]
fn catom(alloc: Global, cursor: &mut Cursor<'_>, depth: u32) -> Result<ChanType, ParseError>
    ensures { Reads (read name.catom depth cursor.old) result cursor.new }
{
    if cursor.at(TokenKind::PutType) {
        return put_type(alloc, cursor, depth);
    }
    if cursor.at(TokenKind::GetType) {
        return get_type(alloc, cursor, depth);
    }
    if cursor.at(TokenKind::NegType) {
        return neg_type(alloc, cursor, depth);
    }
    if read!(cursor.take(TokenKind::TopBot, depth)).is_some() {
        return Ok(ChanType::TopBot);
    }
    if cursor.at(TokenKind::Upper) {
        return named_type(alloc, cursor, depth);
    }
    grouped_ctype(alloc, cursor, depth)
}

/// A protocol or coprotocol at its arguments.
#[tactic(auto, using(campl_grammar::proofs::ByRule::reads_named_type))]
fn named_type(alloc: Global, cursor: &mut Cursor<'_>, depth: u32) -> Result<ChanType, ParseError>
    ensures { Reads (read name.named_type depth cursor.old) result cursor.new }
{
    let word = read!(cursor.expect(TokenKind::Upper, depth));
    let name = made!(word.name(alloc));
    let arguments = read!(type_arguments(alloc, cursor, depth));
    Ok(ChanType::Named(word.place(), name, arguments))
}

/// The type of a channel in parentheses.
#[cycle(ctype)]
#[tactic(auto, using(campl_grammar::proofs::ByRule::reads_grouped_ctype))]
fn grouped_ctype(alloc: Global, cursor: &mut Cursor<'_>, depth: u32) -> Result<ChanType, ParseError>
    ensures { Reads (read name.grouped_ctype depth cursor.old) result cursor.new }
{
    read!(cursor.expect(TokenKind::LeftParen, depth));
    let inner = read!(ctype(alloc, cursor, depth + 1));
    read!(cursor.expect(TokenKind::RightParen, depth + 1));
    Ok(inner)
}

/// `Put(A | X)`
#[cycle(ctype)]
#[tactic(auto, using(campl_grammar::proofs::ByRule::reads_put_type))]
fn put_type(alloc: Global, cursor: &mut Cursor<'_>, depth: u32) -> Result<ChanType, ParseError>
    ensures { Reads (read name.put_type depth cursor.old) result cursor.new }
{
    read!(cursor.expect(TokenKind::PutType, depth));
    read!(cursor.expect(TokenKind::LeftParen, depth));
    let value = read!(stype(alloc, cursor, depth + 1));
    read!(cursor.expect(TokenKind::Bar, depth + 1));
    let rest = read!(ctype(alloc, cursor, depth + 1));
    read!(cursor.expect(TokenKind::RightParen, depth + 1));
    Ok(ChanType::Put(value, made!(Boxed::new(alloc, rest))))
}

/// `Get(A | X)`
#[cycle(ctype)]
#[tactic(auto, using(campl_grammar::proofs::ByRule::reads_get_type))]
fn get_type(alloc: Global, cursor: &mut Cursor<'_>, depth: u32) -> Result<ChanType, ParseError>
    ensures { Reads (read name.get_type depth cursor.old) result cursor.new }
{
    read!(cursor.expect(TokenKind::GetType, depth));
    read!(cursor.expect(TokenKind::LeftParen, depth));
    let value = read!(stype(alloc, cursor, depth + 1));
    read!(cursor.expect(TokenKind::Bar, depth + 1));
    let rest = read!(ctype(alloc, cursor, depth + 1));
    read!(cursor.expect(TokenKind::RightParen, depth + 1));
    Ok(ChanType::Get(value, made!(Boxed::new(alloc, rest))))
}

/// `Neg(X)`
#[cycle(ctype)]
#[tactic(auto, using(campl_grammar::proofs::ByRule::reads_neg_type))]
fn neg_type(alloc: Global, cursor: &mut Cursor<'_>, depth: u32) -> Result<ChanType, ParseError>
    ensures { Reads (read name.neg_type depth cursor.old) result cursor.new }
{
    read!(cursor.expect(TokenKind::NegType, depth));
    read!(cursor.expect(TokenKind::LeftParen, depth));
    let inner = read!(ctype(alloc, cursor, depth + 1));
    read!(cursor.expect(TokenKind::RightParen, depth + 1));
    Ok(ChanType::Neg(made!(Boxed::new(alloc, inner))))
}
