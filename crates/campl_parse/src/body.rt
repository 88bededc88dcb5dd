//! What a process does.
ghost use Rattle.std.specs.Prelude.{◌≡◌, ◌≤◌, MatchResult, suc};
ghost use Rattle.campl_gram.specs.Grammar.{nt};
ghost use Rattle.campl_grammar.specs.Rules.{read, piece, in_braces};
ghost use Rattle.campl_grammar.specs.Names as name;
ghost use Rattle.campl_tree.specs.declared.process.Last.TheVariants.{Fork};
ghost use Rattle.campl_parse.specs.Bodies.{arrow_body as arrow_body_piece, fork_rows as fork_rows_piece};
ghost use Rattle.campl_parse_terms.specs.Reads.{Reads};
ghost use Rattle.campl_parse_terms.specs.declared.error.ParseError.TheVariants.{OutOfMemory};

use crate::action::actions;
use crate::named::named;
use crate::plug::links;
use campl_lex::TokenKind;
use campl_parse_terms::cursor::Cursor;
use campl_parse_terms::error::ParseError;
use campl_parse_terms::expr::expr;
use campl_parse_terms::lines::block;
use campl_parse_terms::names::{names, names_behind};
use campl_parse_terms::pattern::pattern;
use campl_parse_terms::{made, read};
use campl_tree::{Body, Branch, CaseRow, HcaseRow, Ident, Last, Part, Place};
use sqlite_items::{Boxed, Items};
use std::alloc::Global;

/// The commands of a process.
#[cycle(body)]
#[tactic(auto, using(campl_grammar::proofs::ByRule::reads_body))]
pub fn body(alloc: Global, cursor: &mut Cursor<'_>, depth: u32) -> Result<Body, ParseError>
    ensures { Reads (read name.body depth cursor.old) result cursor.new }
{
    if read!(cursor.take(TokenKind::Do, depth)).is_none() {
        let last = read!(last(alloc, cursor, depth));
        let actions = Items::new(alloc);
        return Ok(Body { actions, last });
    }
    read!(cursor.expect(TokenKind::LeftBrace, depth));
    let actions = read!(actions(alloc, cursor, depth + 1));
    let last = read!(last(alloc, cursor, depth + 1));
    read!(cursor.expect(TokenKind::RightBrace, depth + 1));
    Ok(Body { actions, last })
}

/// `->` and a body.
#[cycle(body)]
pub fn arrow_body(alloc: Global, cursor: &mut Cursor<'_>, depth: u32) -> Result<Body, ParseError>
    ensures { Reads (piece arrow_body_piece depth cursor.old) result cursor.new }
{
    read!(cursor.expect(TokenKind::Arrow, depth));
    body(alloc, cursor, depth)
}

/// The last command of a body.
#[cycle(body)]
#[tactic(auto, using(campl_grammar::proofs::ByRule::reads_last))]
fn last(alloc: Global, cursor: &mut Cursor<'_>, depth: u32) -> Result<Last, ParseError>
    ensures { Reads (read name.last depth cursor.old) result cursor.new }
{
    if cursor.at(TokenKind::Halt) {
        return halt(alloc, cursor, depth);
    }
    if cursor.at(TokenKind::Hcase) {
        return hcase(alloc, cursor, depth);
    }
    if cursor.at(TokenKind::Fork) {
        return fork(alloc, cursor, depth);
    }
    if cursor.at(TokenKind::Plug) {
        return plug(alloc, cursor, depth);
    }
    if cursor.at(TokenKind::Race) {
        return race(alloc, cursor, depth);
    }
    if cursor.at(TokenKind::Case) {
        return choice(alloc, cursor, depth);
    }
    named(alloc, cursor, depth)
}

/// `halt`, and a channel where one is named.
#[tactic(auto, using(campl_grammar::proofs::ByRule::reads_halt))]
fn halt(alloc: Global, cursor: &mut Cursor<'_>, depth: u32) -> Result<Last, ParseError>
    ensures { Reads (read name.halt depth cursor.old) result cursor.new }
{
    let place = read!(cursor.expect(TokenKind::Halt, depth)).place();
    if !cursor.at(TokenKind::Lower) {
        return Ok(Last::Halt(place, None));
    }
    let channel = read!(cursor.lower(alloc, depth));
    Ok(Last::Halt(place, Some(channel)))
}

/// `hcase x of` and its rows
#[cycle(body)]
#[tactic(auto, using(campl_grammar::proofs::ByRule::reads_hcase))]
fn hcase(alloc: Global, cursor: &mut Cursor<'_>, depth: u32) -> Result<Last, ParseError>
    ensures { Reads (read name.hcase depth cursor.old) result cursor.new }
{
    let place = read!(cursor.expect(TokenKind::Hcase, depth)).place();
    let channel = read!(cursor.lower_before(alloc, TokenKind::Of, depth));
    let rows = read!(hrows(alloc, cursor, depth));
    Ok(Last::Hcase(place, channel, rows))
}

/// `fork x as` and its two rows
#[cycle(body)]
#[tactic(auto, using(campl_grammar::proofs::ByRule::reads_fork))]
fn fork(alloc: Global, cursor: &mut Cursor<'_>, depth: u32) -> Result<Last, ParseError>
    ensures { Reads (read name.fork depth cursor.old) result cursor.new }
{
    let place = read!(cursor.expect(TokenKind::Fork, depth)).place();
    let channel = read!(cursor.lower_before(alloc, TokenKind::As, depth));
    let (first, second) = read!(fork_rows(alloc, cursor, depth));
    forked(alloc, place, channel, first, second)
}

/// The two rows of a `fork` in braces.
#[cycle(body)]
fn fork_rows(
    alloc: Global,
    cursor: &mut Cursor<'_>,
    depth: u32,
) -> Result<(Branch, Branch), ParseError>
    ensures { Reads (piece fork_rows_piece depth cursor.old) result cursor.new }
{
    read!(cursor.expect(TokenKind::LeftBrace, depth));
    let first = read!(branch(alloc, cursor, depth + 1));
    read!(cursor.expect(TokenKind::Semicolon, depth + 1));
    let second = read!(branch(alloc, cursor, depth + 1));
    read!(cursor.expect(TokenKind::RightBrace, depth + 1));
    Ok((first, second))
}

/// A `fork` with these rows.
fn forked(
    alloc: Global,
    place: Place,
    channel: Ident,
    first: Branch,
    second: Branch,
) -> Result<Last, ParseError>
    ensures { MatchResult result (λ last. last ≡ Fork place channel first second) (λ e. e ≡ OutOfMemory) }
{
    let first = made!(Boxed::new(alloc, first));
    let second = made!(Boxed::new(alloc, second));
    Ok(Last::Fork(place, channel, first, second))
}

/// `plug`, its channels and its parts
#[cycle(body)]
#[tactic(auto, using(campl_grammar::proofs::ByRule::reads_plug, campl_gram::proofs::Lists::adds_none))]
fn plug(alloc: Global, cursor: &mut Cursor<'_>, depth: u32) -> Result<Last, ParseError>
    ensures { Reads (read name.plug depth cursor.old) result cursor.new }
{
    let place = read!(cursor.expect(TokenKind::Plug, depth)).place();
    let channels = read!(links(alloc, cursor, depth, Items::new(alloc)));
    read!(cursor.expect(TokenKind::Of, depth));
    let parts = read!(parts(alloc, cursor, depth));
    Ok(Last::Plug(place, channels, parts))
}

/// `race` and its rows
#[cycle(body)]
#[tactic(auto, using(campl_grammar::proofs::ByRule::reads_race))]
fn race(alloc: Global, cursor: &mut Cursor<'_>, depth: u32) -> Result<Last, ParseError>
    ensures { Reads (read name.race depth cursor.old) result cursor.new }
{
    let place = read!(cursor.expect(TokenKind::Race, depth)).place();
    let rows = read!(branches(alloc, cursor, depth));
    Ok(Last::Race(place, rows))
}

/// `case e of` and its rows
#[cycle(body)]
#[tactic(auto, using(campl_grammar::proofs::ByRule::reads_choice))]
fn choice(alloc: Global, cursor: &mut Cursor<'_>, depth: u32) -> Result<Last, ParseError>
    ensures { Reads (read name.choice depth cursor.old) result cursor.new }
{
    let place = read!(cursor.expect(TokenKind::Case, depth)).place();
    let value = read!(expr(alloc, cursor, depth));
    read!(cursor.expect(TokenKind::Of, depth));
    let rows = read!(crows(alloc, cursor, depth));
    Ok(Last::Case(place, value, rows))
}

/// The rows of an `hcase` in braces.
#[cycle(body)]
fn hrows(alloc: Global, cursor: &mut Cursor<'_>, depth: u32) -> Result<Items<HcaseRow>, ParseError>
    ensures { Reads (piece (in_braces (nt name.hrows)) depth cursor.old) result cursor.new }
{
    block(
        alloc,
        cursor,
        depth,
        |cursor: &mut Cursor<'_>| -> Result<HcaseRow, ParseError>
            requires { depth ≤ 200 }
            ensures { Reads (read name.hrow (suc depth) cursor.old) result cursor.new }
        { hrow(alloc, cursor, depth + 1) },
    )
}

/// A row of an `hcase`.
#[cycle(body)]
#[tactic(auto, using(campl_grammar::proofs::ByRule::reads_hrow))]
fn hrow(alloc: Global, cursor: &mut Cursor<'_>, depth: u32) -> Result<HcaseRow, ParseError>
    ensures { Reads (read name.hrow depth cursor.old) result cursor.new }
{
    let constructor = read!(cursor.upper(alloc, depth));
    read!(cursor.expect(TokenKind::Arrow, depth));
    let body = read!(body(alloc, cursor, depth));
    Ok(HcaseRow { constructor, body })
}

/// The rows of a `race` in braces.
#[cycle(body)]
fn branches(alloc: Global, cursor: &mut Cursor<'_>, depth: u32) -> Result<Items<Branch>, ParseError>
    ensures { Reads (piece (in_braces (nt name.branches)) depth cursor.old) result cursor.new }
{
    block(
        alloc,
        cursor,
        depth,
        |cursor: &mut Cursor<'_>| -> Result<Branch, ParseError>
            requires { depth ≤ 200 }
            ensures { Reads (read name.branch (suc depth) cursor.old) result cursor.new }
        { branch(alloc, cursor, depth + 1) },
    )
}

/// A row of a `race` or of a `fork`.
#[cycle(body)]
#[tactic(auto, using(campl_grammar::proofs::ByRule::reads_branch))]
fn branch(alloc: Global, cursor: &mut Cursor<'_>, depth: u32) -> Result<Branch, ParseError>
    ensures { Reads (read name.branch depth cursor.old) result cursor.new }
{
    let channel = read!(cursor.lower(alloc, depth));
    read!(cursor.expect(TokenKind::Arrow, depth));
    let body = read!(body(alloc, cursor, depth));
    Ok(Branch { channel, body })
}

/// The parts of a `plug` in braces.
#[cycle(body)]
fn parts(alloc: Global, cursor: &mut Cursor<'_>, depth: u32) -> Result<Items<Part>, ParseError>
    ensures { Reads (piece (in_braces (nt name.parts)) depth cursor.old) result cursor.new }
{
    block(
        alloc,
        cursor,
        depth,
        |cursor: &mut Cursor<'_>| -> Result<Part, ParseError>
            requires { depth ≤ 200 }
            ensures { Reads (read name.part (suc depth) cursor.old) result cursor.new }
        { part(alloc, cursor, depth + 1) },
    )
}

/// A part of a `plug`.
#[cycle(body)]
#[tactic(auto, using(campl_grammar::proofs::ByRule::reads_part))]
fn part(alloc: Global, cursor: &mut Cursor<'_>, depth: u32) -> Result<Part, ParseError>
    ensures { Reads (read name.part depth cursor.old) result cursor.new }
{
    let place = cursor.place();
    let inputs = read!(names(alloc, cursor, depth));
    let outputs = read!(names_behind(alloc, cursor, TokenKind::FatArrow, depth));
    let body = read!(arrow_body(alloc, cursor, depth));
    Ok(Part {
        place,
        inputs,
        outputs,
        body,
    })
}

/// The rows of a `case` in braces.
#[cycle(body)]
fn crows(alloc: Global, cursor: &mut Cursor<'_>, depth: u32) -> Result<Items<CaseRow>, ParseError>
    ensures { Reads (piece (in_braces (nt name.crows)) depth cursor.old) result cursor.new }
{
    block(
        alloc,
        cursor,
        depth,
        |cursor: &mut Cursor<'_>| -> Result<CaseRow, ParseError>
            requires { depth ≤ 200 }
            ensures { Reads (read name.crow (suc depth) cursor.old) result cursor.new }
        { crow(alloc, cursor, depth + 1) },
    )
}

/// A row of a `case`.
#[cycle(body)]
#[tactic(auto, using(campl_grammar::proofs::ByRule::reads_crow))]
fn crow(alloc: Global, cursor: &mut Cursor<'_>, depth: u32) -> Result<CaseRow, ParseError>
    ensures { Reads (read name.crow depth cursor.old) result cursor.new }
{
    let pattern = read!(pattern(alloc, cursor, depth));
    read!(cursor.expect(TokenKind::Arrow, depth));
    let body = read!(body(alloc, cursor, depth));
    Ok(CaseRow { pattern, body })
}
