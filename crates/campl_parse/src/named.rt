//! Last commands that begin with a name.
ghost use Rattle.std.specs.Prelude.{◌≡◌, Ok};
ghost use Rattle.campl_gram.specs.Reading.{and_then};
ghost use Rattle.campl_grammar.specs.Rules.{read};
ghost use Rattle.campl_grammar.specs.Names as name;
ghost use Rattle.campl_parse_terms.specs.Reads.{Reads};

use campl_lex::TokenKind;
use campl_parse_terms::cursor::Cursor;
use campl_parse_terms::error::ParseError;
use campl_parse_terms::expr::some_exprs;
use campl_parse_terms::names::names_behind;
use campl_parse_terms::{made, read};
use campl_terminals::Terminal;
use campl_tree::Last;
use std::alloc::Global;

/// `x |=| y`, `x |=| neg y`, or a process's call.
#[tactic(auto, using(campl_grammar::proofs::ByRule::reads_named))]
pub fn named(alloc: Global, cursor: &mut Cursor<'_>, depth: u32) -> Result<Last, ParseError>
    ensures { Reads (read name.named depth cursor.old) result cursor.new }
{
    let word = read!(cursor.expect(TokenKind::Lower, depth));
    if cursor.at(TokenKind::Identity) {
        return identity(alloc, cursor, depth, word);
    }
    process_call(alloc, cursor, depth, word)
}

/// What stands behind the first name of `x |=| y`.
#[tactic(auto, using(campl_grammar::proofs::ByRule::reads_identity))]
fn identity(
    alloc: Global,
    cursor: &mut Cursor<'_>,
    depth: u32,
    word: &Terminal<'_>,
) -> Result<Last, ParseError>
    ensures { Reads (and_then (read name.identity depth cursor.old) (λ make r. (Ok (make word.now), r))) result cursor.new }
{
    let name = made!(word.name(alloc));
    read!(cursor.expect(TokenKind::Identity, depth));
    let negated = read!(cursor.take(TokenKind::Neg, depth)).is_some();
    let other = read!(cursor.lower(alloc, depth));
    Ok(Last::Identity(word.place(), name, negated, other))
}

/// What stands behind the name of a process that is called.
#[tactic(auto, using(campl_grammar::proofs::ByRule::reads_process_call))]
fn process_call(
    alloc: Global,
    cursor: &mut Cursor<'_>,
    depth: u32,
    word: &Terminal<'_>,
) -> Result<Last, ParseError>
    ensures { Reads (and_then (read name.process_call depth cursor.old) (λ make r. (Ok (make word.now), r))) result cursor.new }
{
    let name = made!(word.name(alloc));
    read!(cursor.expect(TokenKind::LeftParen, depth));
    let values = read!(some_exprs(alloc, cursor, depth + 1));
    let inputs = read!(names_behind(alloc, cursor, TokenKind::Bar, depth + 1));
    let outputs = read!(names_behind(alloc, cursor, TokenKind::FatArrow, depth + 1));
    read!(cursor.expect(TokenKind::RightParen, depth + 1));
    Ok(Last::Call(word.place(), name, values, inputs, outputs))
}
