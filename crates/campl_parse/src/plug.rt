//! The channels of a `plug`.
ghost use Rattle.std.specs.Prelude.{◌≡◌};
ghost use Rattle.campl_gram.specs.Reading.{adds};
ghost use Rattle.campl_grammar.specs.Rules.{read};
ghost use Rattle.campl_grammar.specs.Names as name;
ghost use Rattle.campl_parse_terms.specs.Reads.{Reads};

use campl_lex::TokenKind;
use campl_parse_terms::cursor::Cursor;
use campl_parse_terms::error::ParseError;
use campl_parse_terms::types::ctype;
use campl_parse_terms::{made, read};
use campl_tree::Link;
use sqlite_items::Items;
use std::alloc::Global;

/// Adds channels with commas between them.
#[tactic(auto, using(campl_grammar::proofs::ByRule::reads_links, campl_gram::proofs::Lists::adds_one))]
pub fn links(
    alloc: Global,
    cursor: &mut Cursor<'_>,
    depth: u32,
    mut found: Items<Link>,
) -> Result<Items<Link>, ParseError>
    ensures { Reads (adds found (read name.links depth cursor.old)) result cursor.new }
{
    made!(found.push(read!(link(alloc, cursor, depth))));
    match read!(cursor.take(TokenKind::Comma, depth)) {
        Some(_) => links(alloc, cursor, depth + 1, found),
        None => Ok(found),
    }
}

/// A channel's name and its type.
#[tactic(auto, using(campl_grammar::proofs::ByRule::reads_link))]
fn link(alloc: Global, cursor: &mut Cursor<'_>, depth: u32) -> Result<Link, ParseError>
    ensures { Reads (read name.link depth cursor.old) result cursor.new }
{
    let name = read!(cursor.lower_before(alloc, TokenKind::DoubleColon, depth));
    let channel_type = read!(ctype(alloc, cursor, depth));
    Ok(Link { name, channel_type })
}
