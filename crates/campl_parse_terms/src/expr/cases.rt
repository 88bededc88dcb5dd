//! The words `case` with which an expression begins.
ghost use Rattle.std.specs.Prelude.{◌≡◌, MatchResult};
ghost use Rattle.campl_grammar.specs.Rules.{read, piece};
ghost use Rattle.campl_grammar.specs.Names as name;
ghost use Rattle.campl_parse_terms.specs.Expressions.{without_case as without_case_piece, ends_cases};
ghost use Rattle.campl_parse_terms.specs.Reads.{Fails};

use crate::cursor::Cursor;
use crate::error::ParseError;
use campl_lex::TokenKind;
use campl_tree::Place;
use sqlite_items::Items;
use std::alloc::Global;

/// Takes each word `case` in front of an expression, and answers their places.
pub fn begin_cases(
    alloc: Global,
    cursor: &mut Cursor<'_>,
    depth: u32,
) -> Result<Items<Place>, ParseError>
    ensures { MatchResult result (λ places. ends_cases places depth (piece without_case_piece depth cursor.new) ≡ read name.expr depth cursor.old) (λ e. Fails (read name.expr depth cursor.old) e cursor.new) }
{
    let mut places = Items::new(alloc);
    'cases: while cursor.at(TokenKind::Case) {
        let word = cursor.expect(TokenKind::Case, depth)?;
        places.push(word.place())?;
    }
    Ok(places)
}
