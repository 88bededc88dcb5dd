//! Expressions with an operator between or before their parts.
ghost use Rattle.std.specs.Prelude.{◌≡◌};
ghost use Rattle.campl_grammar.specs.Names as name;
ghost use Rattle.campl_grammar.specs.Rules.{read, piece};
ghost use Rattle.campl_parse_terms.specs.Expressions.{calculates, joins, cons_tail, append_tail};
ghost use Rattle.campl_parse_terms.specs.Reads.{Reads};

use crate::cursor::Cursor;
use crate::error::ParseError;
use crate::expr::atoms::atom;
use crate::expr::operators::{
    addition, comparison, multiplication, starts_comparison, starts_factors, starts_terms,
};
use crate::{made, read};
use campl_lex::TokenKind;
use campl_tree::{Expr, Place};
use sqlite_items::Boxed;
use std::alloc::Global;

/// `a || b`, or what binds closer.
#[cycle(expr)]
#[tactic(auto, using(campl_grammar::proofs::ByRule::reads_disjunction))]
pub fn disjunction(alloc: Global, cursor: &mut Cursor<'_>, depth: u32) -> Result<Expr, ParseError>
    ensures { Reads (read name.disjunction depth cursor.old) result cursor.new }
{
    let place = cursor.place();
    let left = read!(conjunction(alloc, cursor, depth));
    if read!(cursor.take(TokenKind::Or, depth)).is_none() {
        return Ok(left);
    }
    let right = read!(disjunction(alloc, cursor, depth + 1));
    Ok(Expr::Or(
        place,
        made!(Boxed::new(alloc, left)),
        made!(Boxed::new(alloc, right)),
    ))
}

/// `a && b`, or what binds closer.
#[cycle(expr)]
#[tactic(auto, using(campl_grammar::proofs::ByRule::reads_conjunction))]
fn conjunction(alloc: Global, cursor: &mut Cursor<'_>, depth: u32) -> Result<Expr, ParseError>
    ensures { Reads (read name.conjunction depth cursor.old) result cursor.new }
{
    let place = cursor.place();
    let left = read!(cmp(alloc, cursor, depth));
    if read!(cursor.take(TokenKind::And, depth)).is_none() {
        return Ok(left);
    }
    let right = read!(conjunction(alloc, cursor, depth + 1));
    Ok(Expr::And(
        place,
        made!(Boxed::new(alloc, left)),
        made!(Boxed::new(alloc, right)),
    ))
}

/// A comparison, or what binds closer.
#[cycle(expr)]
#[tactic(auto, using(campl_grammar::proofs::ByRule::reads_cmp))]
fn cmp(alloc: Global, cursor: &mut Cursor<'_>, depth: u32) -> Result<Expr, ParseError>
    ensures { Reads (read name.cmp depth cursor.old) result cursor.new }
{
    let place = cursor.place();
    let left = read!(joined(alloc, cursor, depth));
    if !starts_comparison(cursor) {
        return Ok(left);
    }
    let operator = read!(comparison(cursor, depth));
    let right = read!(joined(alloc, cursor, depth + 1));
    Ok(Expr::Compare(
        place,
        made!(Boxed::new(alloc, left)),
        operator,
        made!(Boxed::new(alloc, right)),
    ))
}

/// `a : b` or `a ++ b`, or what binds closer.
#[cycle(expr)]
#[tactic(auto, using(campl_grammar::proofs::ByRule::reads_joined))]
fn joined(alloc: Global, cursor: &mut Cursor<'_>, depth: u32) -> Result<Expr, ParseError>
    ensures { Reads (read name.joined depth cursor.old) result cursor.new }
{
    let place = cursor.place();
    let left = read!(sum(alloc, cursor, depth));
    if cursor.at(TokenKind::Colon) {
        return cons(alloc, cursor, depth, place, left);
    }
    if cursor.at(TokenKind::Append) {
        return append(alloc, cursor, depth, place, left);
    }
    Ok(left)
}

/// `:` and what stands behind it.
#[cycle(expr)]
fn cons(
    alloc: Global,
    cursor: &mut Cursor<'_>,
    depth: u32,
    place: Place,
    left: Expr,
) -> Result<Expr, ParseError>
    ensures { Reads (joins place left (piece cons_tail depth cursor.old)) result cursor.new }
{
    read!(cursor.expect(TokenKind::Colon, depth));
    let right = read!(joined(alloc, cursor, depth + 1));
    Ok(Expr::Cons(
        place,
        made!(Boxed::new(alloc, left)),
        made!(Boxed::new(alloc, right)),
    ))
}

/// `++` and what stands behind it.
#[cycle(expr)]
fn append(
    alloc: Global,
    cursor: &mut Cursor<'_>,
    depth: u32,
    place: Place,
    left: Expr,
) -> Result<Expr, ParseError>
    ensures { Reads (joins place left (piece append_tail depth cursor.old)) result cursor.new }
{
    read!(cursor.expect(TokenKind::Append, depth));
    let right = read!(joined(alloc, cursor, depth + 1));
    Ok(Expr::Append(
        place,
        made!(Boxed::new(alloc, left)),
        made!(Boxed::new(alloc, right)),
    ))
}

/// Sums and differences, from left to right.
#[cycle(expr)]
#[tactic(auto, using(campl_grammar::proofs::ByRule::reads_sum))]
fn sum(alloc: Global, cursor: &mut Cursor<'_>, depth: u32) -> Result<Expr, ParseError>
    ensures { Reads (read name.sum depth cursor.old) result cursor.new }
{
    let place = cursor.place();
    let first = read!(prod(alloc, cursor, depth));
    terms(alloc, cursor, depth, place, first)
}

/// What stands before, and what is added to it or taken from it.
#[cycle(expr)]
#[tactic(auto, using(campl_grammar::proofs::ByRule::reads_terms, crate::proofs::Expressions::calculates_one))]
fn terms(
    alloc: Global,
    cursor: &mut Cursor<'_>,
    depth: u32,
    place: Place,
    left: Expr,
) -> Result<Expr, ParseError>
    ensures { Reads (calculates place left (read name.terms depth cursor.old)) result cursor.new }
{
    if !starts_terms(cursor) {
        return Ok(left);
    }
    let operator = read!(addition(cursor, depth));
    let right = read!(prod(alloc, cursor, depth + 1));
    let left = Expr::Calculate(
        place,
        made!(Boxed::new(alloc, left)),
        operator,
        made!(Boxed::new(alloc, right)),
    );
    terms(alloc, cursor, depth + 1, place, left)
}

/// Products and quotients, from left to right.
#[cycle(expr)]
#[tactic(auto, using(campl_grammar::proofs::ByRule::reads_prod))]
fn prod(alloc: Global, cursor: &mut Cursor<'_>, depth: u32) -> Result<Expr, ParseError>
    ensures { Reads (read name.prod depth cursor.old) result cursor.new }
{
    let place = cursor.place();
    let first = read!(unary(alloc, cursor, depth));
    factors(alloc, cursor, depth, place, first)
}

/// What stands before, and by what it is multiplied or divided.
#[cycle(expr)]
#[tactic(auto, using(campl_grammar::proofs::ByRule::reads_factors, crate::proofs::Expressions::calculates_one))]
fn factors(
    alloc: Global,
    cursor: &mut Cursor<'_>,
    depth: u32,
    place: Place,
    left: Expr,
) -> Result<Expr, ParseError>
    ensures { Reads (calculates place left (read name.factors depth cursor.old)) result cursor.new }
{
    if !starts_factors(cursor) {
        return Ok(left);
    }
    let operator = read!(multiplication(cursor, depth));
    let right = read!(unary(alloc, cursor, depth + 1));
    let left = Expr::Calculate(
        place,
        made!(Boxed::new(alloc, left)),
        operator,
        made!(Boxed::new(alloc, right)),
    );
    factors(alloc, cursor, depth + 1, place, left)
}

/// `- a`, or an atom.
#[cycle(expr)]
#[tactic(auto, using(campl_grammar::proofs::ByRule::reads_unary))]
fn unary(alloc: Global, cursor: &mut Cursor<'_>, depth: u32) -> Result<Expr, ParseError>
    ensures { Reads (read name.unary depth cursor.old) result cursor.new }
{
    let Some(minus) = read!(cursor.take(TokenKind::Minus, depth)) else {
        return atom(alloc, cursor, depth);
    };
    let inner = read!(unary(alloc, cursor, depth + 1));
    Ok(Expr::Negate(minus.place(), made!(Boxed::new(alloc, inner))))
}
