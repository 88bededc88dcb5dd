//! Lines with `;` between them.
ghost use Rattle.std.specs.Prelude.{◌≡◌, ◌≤◌, OnOk, List, suc};
ghost use Rattle.campl_gram.specs.Reading.{Outcome};
ghost use Rattle.campl_grammar.specs.Terminal as words;
ghost use Rattle.campl_parse_terms.specs.Lines.{AreLines, ReadsLine, Shortens, behind_word, in_block};
ghost use Rattle.campl_parse_terms.specs.Reads.{Reads};

use crate::cursor::Cursor;
use crate::error::ParseError;
use crate::{made, read};
use campl_lex::TokenKind;
use sqlite_items::Items;
use std::alloc::Global;

/// Reads lines with `;` between them, each by a call of `line`.
pub fn lines<T: Drop, F: Fn(&mut Cursor<'_>) -> Result<T, ParseError>>(
    alloc: Global,
    cursor: &mut Cursor<'_>,
    depth: u32,
    line: F,
) -> Result<Items<T>, ParseError>
    requires callable { F.IsAlwaysCallable line }
    requires shortens { Shortens F.Fn line }
    ensures { (one : List words.Terminal → Outcome words.Terminal T) (all : List words.Terminal → Outcome words.Terminal (List T)) → AreLines depth one all → ReadsLine F.Fn line one → Reads (all cursor.old) result cursor.new }
{
    let mut found = Items::new(alloc);
    'lines: loop {
        made!(found.push(read!(line(cursor))));
        if !cursor.at(TokenKind::Semicolon) {
            return Ok(found);
        }
        read!(cursor.expect(TokenKind::Semicolon, depth));
    }
}

/// Reads lines in braces, each by a call of `line`. What is in the braces is nested one deeper.
pub fn block<T: Drop, F: Fn(&mut Cursor<'_>) -> Result<T, ParseError>>(
    alloc: Global,
    cursor: &mut Cursor<'_>,
    depth: u32,
    line: F,
) -> Result<Items<T>, ParseError>
    requires callable { depth ≤ 200 → F.IsAlwaysCallable line }
    requires shortens { Shortens F.Fn line }
    ensures { (one : List words.Terminal → Outcome words.Terminal T) (all : List words.Terminal → Outcome words.Terminal (List T)) → AreLines (suc depth) one all → ReadsLine F.Fn line one → Reads (in_block all depth cursor.old) result cursor.new }
{
    read!(cursor.expect(TokenKind::LeftBrace, depth));
    let found = read!(lines(alloc, cursor, depth + 1, line));
    read!(cursor.expect(TokenKind::RightBrace, depth + 1));
    Ok(found)
}

/// Takes a word of this kind, and reads the block behind it.
pub fn block_behind<T: Drop, F: Fn(&mut Cursor<'_>) -> Result<T, ParseError>>(
    alloc: Global,
    cursor: &mut Cursor<'_>,
    kind: TokenKind,
    depth: u32,
    line: F,
) -> Result<Items<T>, ParseError>
    requires callable { depth ≤ 200 → F.IsAlwaysCallable line }
    requires shortens { Shortens F.Fn line }
    ensures { (one : List words.Terminal → Outcome words.Terminal T) (all : List words.Terminal → Outcome words.Terminal (List T)) → AreLines (suc depth) one all → ReadsLine F.Fn line one → Reads (behind_word kind (in_block all) depth cursor.old) result cursor.new }
{
    match cursor.expect(kind, depth) {
        Ok(_) => block(alloc, cursor, depth, line),
        Err(fault) => Err(fault),
    }
}
