//! Expressions.
//!
//! Nesting is counted by calls one deeper. It doesn't count `case` words that follow one another, so these are a loop.
ghost use Rattle.std.specs.Prelude.{◌≡◌, ◌≤◌, Ok, suc};
ghost use Rattle.campl_gram.specs.Reading.{adds};
ghost use Rattle.campl_grammar.specs.Names as name;
ghost use Rattle.campl_grammar.specs.Rules.{read, piece, some_exprs as some_exprs_piece};
ghost use Rattle.campl_parse_terms.specs.Expressions.{without_case as without_case_piece, ends_case, ends_cases, of_rows};
ghost use Rattle.campl_parse_terms.specs.Reads.{Reads};

mod atoms;
mod binary;
mod cases;
mod literals;
mod operators;

use self::binary::disjunction;
use self::cases::begin_cases;
use self::literals::starts_expr;
use crate::cursor::Cursor;
use crate::error::ParseError;
use crate::lines::block_behind;
use crate::pattern::pattern;
use crate::{made, read};
use campl_lex::TokenKind;
use campl_tree::{Expr, ExprRow, Place};
use sqlite_items::{Boxed, Items};
use std::alloc::Global;

/// Expressions with commas between them, or none.
#[cycle(expr)]
#[tactic(auto, using(campl_gram::proofs::Lists::adds_none))]
pub fn some_exprs(
    alloc: Global,
    cursor: &mut Cursor<'_>,
    depth: u32,
) -> Result<Items<Expr>, ParseError>
    ensures { Reads (piece some_exprs_piece depth cursor.old) result cursor.new }
{
    let found = Items::new(alloc);
    if !starts_expr(cursor) {
        return Ok(found);
    }
    exprs(alloc, cursor, depth, found)
}

/// Adds expressions with commas between them.
#[cycle(expr)]
#[tactic(auto, using(campl_grammar::proofs::ByRule::reads_exprs, campl_gram::proofs::Lists::adds_one))]
pub fn exprs(
    alloc: Global,
    cursor: &mut Cursor<'_>,
    depth: u32,
    mut found: Items<Expr>,
) -> Result<Items<Expr>, ParseError>
    ensures { Reads (adds found (read name.exprs depth cursor.old)) result cursor.new }
{
    made!(found.push(read!(expr(alloc, cursor, depth))));
    match read!(cursor.take(TokenKind::Comma, depth)) {
        Some(_) => exprs(alloc, cursor, depth + 1, found),
        None => Ok(found),
    }
}

/// An expression.
#[cycle(expr)]
#[tactic(auto, using(crate::proofs::Cases::ends_err))]
pub fn expr(alloc: Global, cursor: &mut Cursor<'_>, depth: u32) -> Result<Expr, ParseError>
    ensures { Reads (read name.expr depth cursor.old) result cursor.new }
{
    // A scrutinee isn't nested: `case case ..` may go on without end, so there is no recursion on it.
    let places = read!(begin_cases(alloc, cursor, depth));
    let innermost = read!(without_case(alloc, cursor, depth));
    end_cases(alloc, cursor, depth, places, innermost)
}

/// An expression that doesn't begin with `case`.
#[cycle(expr)]
fn without_case(alloc: Global, cursor: &mut Cursor<'_>, depth: u32) -> Result<Expr, ParseError>
    ensures { Reads (piece without_case_piece depth cursor.old) result cursor.new }
{
    if cursor.at(TokenKind::If) {
        return if_expr(alloc, cursor, depth);
    }
    disjunction(alloc, cursor, depth)
}

/// The rows of each `case` that is open, from the last place on. The last has this scrutinee, and each is that of the one before.
#[cycle(expr)]
fn end_cases(
    alloc: Global,
    cursor: &mut Cursor<'_>,
    depth: u32,
    mut places: Items<Place>,
    innermost: Expr,
) -> Result<Expr, ParseError>
    ensures { Reads (ends_cases places depth (Ok innermost, cursor.old)) result cursor.new }
{
    let mut value = innermost;
    'cases: while let Some(place) = places.pop() {
        value = end_case(alloc, cursor, depth, place, value)?;
    }
    Ok(value)
}

/// `of` and the rows of the `case` at this place.
#[cycle(expr)]
fn end_case(
    alloc: Global,
    cursor: &mut Cursor<'_>,
    depth: u32,
    place: Place,
    scrutinee: Expr,
) -> Result<Expr, ParseError>
    ensures { Reads (ends_case place depth (Ok scrutinee, cursor.old)) result cursor.new }
{
    let rows = read!(erows(alloc, cursor, depth));
    Ok(Expr::Case(place, made!(Boxed::new(alloc, scrutinee)), rows))
}

/// `of` and rows in braces.
#[cycle(expr)]
fn erows(alloc: Global, cursor: &mut Cursor<'_>, depth: u32) -> Result<Items<ExprRow>, ParseError>
    ensures { Reads (piece of_rows depth cursor.old) result cursor.new }
{
    block_behind(
        alloc,
        cursor,
        TokenKind::Of,
        depth,
        |cursor: &mut Cursor<'_>| -> Result<ExprRow, ParseError>
            requires { depth ≤ 200 }
            ensures { Reads (read name.erow (suc depth) cursor.old) result cursor.new }
        { erow(alloc, cursor, depth + 1) },
    )
}

/// A pattern, and the value where it fits.
#[cycle(expr)]
#[tactic(auto, using(campl_grammar::proofs::ByRule::reads_erow))]
fn erow(alloc: Global, cursor: &mut Cursor<'_>, depth: u32) -> Result<ExprRow, ParseError>
    ensures { Reads (read name.erow depth cursor.old) result cursor.new }
{
    let pattern = read!(pattern(alloc, cursor, depth));
    read!(cursor.expect(TokenKind::Arrow, depth));
    let value = read!(expr(alloc, cursor, depth));
    Ok(ExprRow { pattern, value })
}

/// `if a then b else c`.
#[cycle(expr)]
#[tactic(auto, using(campl_grammar::proofs::ByRule::reads_if_expr))]
fn if_expr(alloc: Global, cursor: &mut Cursor<'_>, depth: u32) -> Result<Expr, ParseError>
    ensures { Reads (read name.if_expr depth cursor.old) result cursor.new }
{
    let place = read!(cursor.expect(TokenKind::If, depth)).place();
    let test = read!(boxed_expr(alloc, cursor, depth + 1));
    read!(cursor.expect(TokenKind::Then, depth + 1));
    let yes = read!(boxed_expr(alloc, cursor, depth + 1));
    read!(cursor.expect(TokenKind::Else, depth + 1));
    let no = read!(boxed_expr(alloc, cursor, depth + 1));
    Ok(Expr::If(place, test, yes, no))
}

/// An expression, as a part of another.
#[cycle(expr)]
pub fn boxed_expr(
    alloc: Global,
    cursor: &mut Cursor<'_>,
    depth: u32,
) -> Result<Boxed<Expr>, ParseError>
    ensures { Reads (read name.expr depth cursor.old) result cursor.new }
{
    let inner = read!(expr(alloc, cursor, depth));
    Ok(made!(Boxed::new(alloc, inner)))
}
