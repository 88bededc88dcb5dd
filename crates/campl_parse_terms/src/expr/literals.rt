//! Expressions of one word, and the words with which expressions begin.
ghost use Rattle.std.specs.Prelude.{◌≡◌};
ghost use Rattle.campl_gram.specs.Reading.{next_in};
ghost use Rattle.campl_grammar.specs.Names as name;
ghost use Rattle.campl_grammar.specs.Rules.{read};
ghost use Rattle.campl_grammar.specs.Tables.{starts};
ghost use Rattle.campl_grammar.specs.Terminal.{terminals};
ghost use Rattle.campl_parse_terms.specs.Reads.{Reads};

use crate::cursor::Cursor;
use crate::error::ParseError;
use crate::{made, read};
use campl_lex::TokenKind;
use campl_tree::Expr;
use std::alloc::Global;

/// Whether an expression may begin with the next word.
pub fn starts_expr(cursor: &Cursor<'_>) -> bool
    ensures { result ≡ next_in terminals (starts name.expr) cursor.now }
{
    let kinds = [
        TokenKind::Case,
        TokenKind::If,
        TokenKind::Minus,
        TokenKind::Number,
        TokenKind::Character,
        TokenKind::Text,
        TokenKind::True,
        TokenKind::False,
        TokenKind::Lower,
        TokenKind::Code,
        TokenKind::Char,
        TokenKind::Upper,
        TokenKind::LeftBracket,
        TokenKind::LeftParen,
    ];
    cursor.at_any(&kinds)
}

/// Whether the next word alone is an expression.
pub fn starts_simple(cursor: &Cursor<'_>) -> bool
    ensures { result ≡ next_in terminals (starts name.simple) cursor.now }
{
    let kinds = [
        TokenKind::Number,
        TokenKind::Character,
        TokenKind::Text,
        TokenKind::True,
        TokenKind::False,
    ];
    cursor.at_any(&kinds)
}

/// A number, a character, a text or a truth value.
#[tactic(auto, using(campl_grammar::proofs::ByRule::reads_simple))]
pub fn simple(alloc: Global, cursor: &mut Cursor<'_>, depth: u32) -> Result<Expr, ParseError>
    ensures { Reads (read name.simple depth cursor.old) result cursor.new }
{
    if let Some(word) = read!(cursor.take(TokenKind::Number, depth)) {
        return Ok(Expr::Number(word.place(), word.number()));
    }
    if let Some(word) = read!(cursor.take(TokenKind::Character, depth)) {
        return Ok(Expr::Character(word.place(), word.character()));
    }
    if let Some(word) = read!(cursor.take(TokenKind::Text, depth)) {
        return Ok(Expr::Text(word.place(), made!(word.text(alloc))));
    }
    if let Some(word) = read!(cursor.take(TokenKind::True, depth)) {
        return Ok(Expr::True(word.place()));
    }
    let word = read!(cursor.expect(TokenKind::False, depth));
    Ok(Expr::False(word.place()))
}
