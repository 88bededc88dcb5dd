//! Commands behind which a process goes on.
ghost use Rattle.std.specs.Prelude.{◌≡◌};
ghost use Rattle.campl_gram.specs.Reading.{next_in};
ghost use Rattle.campl_grammar.specs.Terminal.{terminals};
ghost use Rattle.campl_grammar.specs.Tables.{starts};
ghost use Rattle.campl_grammar.specs.Rules.{read, piece};
ghost use Rattle.campl_parse.specs.Bodies.{on_channel as on_channel_piece};
ghost use Rattle.campl_grammar.specs.Names as name;
ghost use Rattle.campl_parse_terms.specs.Reads.{Reads};

use campl_lex::TokenKind;
use campl_parse_terms::cursor::Cursor;
use campl_parse_terms::error::ParseError;
use campl_parse_terms::expr::expr;
use campl_parse_terms::names::var;
use campl_parse_terms::read;
use campl_tree::{Action, Ident};
use sqlite_items::Items;
use std::alloc::Global;

/// Whether a command that isn't the last may begin with the next word.
fn starts_action(cursor: &Cursor<'_>) -> bool
    ensures { result ≡ next_in terminals (starts name.actions) cursor.now }
{
    let kinds = [
        TokenKind::Put,
        TokenKind::Get,
        TokenKind::Hput,
        TokenKind::Split,
        TokenKind::Close,
    ];
    cursor.at_any(&kinds)
}

/// Commands, each with its semicolon, or none.
pub fn actions(
    alloc: Global,
    cursor: &mut Cursor<'_>,
    depth: u32,
) -> Result<Items<Action>, ParseError>
    ensures { Reads (read name.actions depth cursor.old) result cursor.new }
{
    let mut found = Items::new(alloc);
    'actions: while starts_action(cursor) {
        found.push(action(alloc, cursor, depth)?)?;
        cursor.expect(TokenKind::Semicolon, depth)?;
    }
    Ok(found)
}

/// A command that isn't the last.
#[tactic(auto, using(campl_grammar::proofs::ByRule::reads_action))]
fn action(alloc: Global, cursor: &mut Cursor<'_>, depth: u32) -> Result<Action, ParseError>
    ensures { Reads (read name.action depth cursor.old) result cursor.new }
{
    if cursor.at(TokenKind::Put) {
        return put(alloc, cursor, depth);
    }
    if cursor.at(TokenKind::Get) {
        return get(alloc, cursor, depth);
    }
    if cursor.at(TokenKind::Hput) {
        return hput(alloc, cursor, depth);
    }
    if cursor.at(TokenKind::Split) {
        return split(alloc, cursor, depth);
    }
    close(alloc, cursor, depth)
}

/// `on` and a channel.
fn on_channel(alloc: Global, cursor: &mut Cursor<'_>, depth: u32) -> Result<Ident, ParseError>
    ensures { Reads (piece on_channel_piece depth cursor.old) result cursor.new }
{
    read!(cursor.expect(TokenKind::On, depth));
    cursor.lower(alloc, depth)
}

/// `put e on x`
#[tactic(auto, using(campl_grammar::proofs::ByRule::reads_put))]
fn put(alloc: Global, cursor: &mut Cursor<'_>, depth: u32) -> Result<Action, ParseError>
    ensures { Reads (read name.put depth cursor.old) result cursor.new }
{
    let place = read!(cursor.expect(TokenKind::Put, depth)).place();
    let value = read!(expr(alloc, cursor, depth));
    let channel = read!(on_channel(alloc, cursor, depth));
    Ok(Action::Put(place, value, channel))
}

/// `get v on x`
#[tactic(auto, using(campl_grammar::proofs::ByRule::reads_get))]
fn get(alloc: Global, cursor: &mut Cursor<'_>, depth: u32) -> Result<Action, ParseError>
    ensures { Reads (read name.get depth cursor.old) result cursor.new }
{
    let place = read!(cursor.expect(TokenKind::Get, depth)).place();
    let binder = read!(var(alloc, cursor, depth));
    let channel = read!(on_channel(alloc, cursor, depth));
    Ok(Action::Get(place, binder, channel))
}

/// `hput C on x`
#[tactic(auto, using(campl_grammar::proofs::ByRule::reads_hput))]
fn hput(alloc: Global, cursor: &mut Cursor<'_>, depth: u32) -> Result<Action, ParseError>
    ensures { Reads (read name.hput depth cursor.old) result cursor.new }
{
    let place = read!(cursor.expect(TokenKind::Hput, depth)).place();
    let constructor = read!(cursor.upper(alloc, depth));
    let channel = read!(on_channel(alloc, cursor, depth));
    Ok(Action::Hput(place, constructor, channel))
}

/// `split x into a, b`
#[tactic(auto, using(campl_grammar::proofs::ByRule::reads_split))]
fn split(alloc: Global, cursor: &mut Cursor<'_>, depth: u32) -> Result<Action, ParseError>
    ensures { Reads (read name.split depth cursor.old) result cursor.new }
{
    let place = read!(cursor.expect(TokenKind::Split, depth)).place();
    let channel = read!(cursor.lower_before(alloc, TokenKind::Into, depth));
    let first = read!(cursor.lower_before(alloc, TokenKind::Comma, depth));
    let second = read!(cursor.lower(alloc, depth));
    Ok(Action::Split(place, channel, first, second))
}

/// `close x`
#[tactic(auto, using(campl_grammar::proofs::ByRule::reads_close))]
fn close(alloc: Global, cursor: &mut Cursor<'_>, depth: u32) -> Result<Action, ParseError>
    ensures { Reads (read name.close depth cursor.old) result cursor.new }
{
    let place = read!(cursor.expect(TokenKind::Close, depth)).place();
    let channel = read!(cursor.lower(alloc, depth));
    Ok(Action::Close(place, channel))
}
