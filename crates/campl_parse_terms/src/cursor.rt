//! The words that are still to read.
ghost use Rattle.std.specs.Prelude.{◌≡◌, ◌≤◌, [], ◌∷◌, OnOk, IfOk, OnSome, MatchResult, IsTrue, ◌↔◌, length};
ghost use Rattle.campl_gram.specs.Reading.{next_in, expect};
ghost use Rattle.campl_gram.specs.Grammar.{place_at};
ghost use Rattle.campl_lex.specs.Kinds.{same};
ghost use Rattle.campl_grammar.specs.Terminal.{terminals};
ghost use Rattle.campl_grammar.specs.Rules.{piece, lower, upper, limit};
ghost use Rattle.campl_parse_terms.specs.Pieces.{choice, lower_before, upper_before};
ghost use Rattle.campl_parse_terms.specs.Reads.{Reads, Fails, Takes};

use crate::error::ParseError;
use crate::{made, read};
use campl_gram::Fault;
use campl_lex::TokenKind;
use campl_terminals::Terminal;
use campl_tree::{Ident, Place};
use std::alloc::Global;
use std::marker::Model;

/// The greatest nesting that is no fault.
pub const DEPTH_MAX: u32 = 200;

/// What is left of the words of a source. Contracts see it as the list of these words.
#[derive(Drop)]
pub struct Cursor<'a> {
    rest: &'a [Terminal<'a>],
}

impl<'a> Model for Cursor<'a> {
    ghost use Rattle.std.specs.Prelude.{List};
    ghost use Rattle.campl_grammar.specs.Terminal.{Terminal};

    ghost Value = { List Terminal };

    ghost view = { λ c. c.rest.now };
}

/// Whether two kinds are the same.
#[tactic(auto, unfolding(campl_lex::specs::Kinds::same))]
fn same_kind(a: TokenKind, b: TokenKind) -> bool
    ensures { result ≡ same a b }
{
    a == b
}

impl<'a> Cursor<'a> {
    /// Stands before the first of these words.
    pub fn new(words: &'a [Terminal<'a>]) -> Cursor<'a>
        ensures { result ≡ words.now }
    {
        Cursor { rest: words }
    }

    /// Whether the next word is of this kind.
    #[tactic(auto, unfolding(campl_grammar::specs::Terminal::terminals))]
    pub fn at(&self, kind: TokenKind) -> bool
        ensures { result ≡ next_in terminals (kind ∷ []) self.now }
    {
        match self.rest {
            [] => false,
            [word, ..] => same_kind(word.kind(), kind),
        }
    }

    /// Whether the next word is of one of these kinds.
    #[tactic(auto, using(crate::proofs::Starts::next_more))]
    pub fn at_any(&self, kinds: &[TokenKind]) -> bool
        ensures { result ≡ next_in terminals kinds.now self.now }
    {
        match kinds.split_first() {
            None => false,
            Some((kind, others)) => self.at(*kind) || self.at_any(others),
        }
    }

    /// The place of the next word, or no place where there is none.
    #[tactic(auto, unfolding(campl_grammar::specs::Terminal::terminals))]
    pub fn place(&self) -> Place
        ensures { result ≡ place_at terminals self.now }
    {
        match self.rest {
            [] => Place { line: 0, column: 0 },
            [word, ..] => word.place(),
        }
    }

    /// Whether no word is left.
    pub fn is_at_end(&self) -> bool
        ensures { IsTrue result ↔ (self.now ≡ []) }
    {
        self.rest.is_empty()
    }

    /// Takes a word of this kind, nested so deep.
    #[tactic(auto, unfolding(campl_grammar::specs::Terminal::terminals))]
    pub fn expect(&mut self, kind: TokenKind, depth: u32) -> Result<&'a Terminal<'a>, ParseError>
        ensures reads { MatchResult result (λ word. expect terminals limit kind depth self.old ≡ (Ok word.now, self.new)) (λ e. Fails (expect terminals limit kind depth self.old) e self.new) }
        ensures shallow { OnOk result (depth ≤ 200) }
    {
        match self.rest {
            [] => Err(ParseError::Refused(Fault::Unexpected)),
            [word, rest @ ..] => {
                if !same_kind(word.kind(), kind) {
                    return Err(ParseError::Refused(Fault::Unexpected));
                }
                if depth > DEPTH_MAX {
                    return Err(ParseError::Refused(Fault::TooDeep));
                }
                self.rest = rest;
                Ok(word)
            }
        }
    }

    /// Takes the next word, nested so deep, if it is of this kind.
    pub fn take(
        &mut self,
        kind: TokenKind,
        depth: u32,
    ) -> Result<Option<&'a Terminal<'a>>, ParseError>
        ensures reads { Takes kind depth self.old result self.new }
        ensures shallow { IfOk result (λ found. OnSome found (depth ≤ 200)) }
    {
        if !self.at(kind) {
            return Ok(None);
        }
        Ok(Some(read!(self.expect(kind, depth))))
    }

    /// Takes a word of one of these kinds, and answers the value beside its kind.
    pub fn one_of<T: Copy>(
        &mut self,
        first: (TokenKind, T),
        others: &[(TokenKind, T)],
        depth: u32,
    ) -> Result<T, ParseError>
        ensures reads { Reads (piece (choice first others.now) depth self.old) result self.new }
        ensures shallow { OnOk result (depth ≤ 200) }
    {
        match others {
            [next, more @ ..] if !self.at(first.0) => self.one_of(*next, more, depth),
            _ => {
                read!(self.expect(first.0, depth));
                Ok(first.1)
            }
        }
    }

    /// Takes a name that begins with a small letter.
    pub fn lower(&mut self, alloc: Global, depth: u32) -> Result<Ident, ParseError>
        ensures reads { Reads (piece lower depth self.old) result self.new }
        ensures shallow { OnOk result (depth ≤ 200) }
    {
        let word = read!(self.expect(TokenKind::Lower, depth));
        Ok(made!(word.ident(alloc)))
    }

    /// Takes a name that begins with `A` to `Z`.
    pub fn upper(&mut self, alloc: Global, depth: u32) -> Result<Ident, ParseError>
        ensures reads { Reads (piece upper depth self.old) result self.new }
        ensures shallow { OnOk result (depth ≤ 200) }
    {
        let word = read!(self.expect(TokenKind::Upper, depth));
        Ok(made!(word.ident(alloc)))
    }

    /// Takes a name that begins with a small letter, and a word of this kind behind it.
    pub fn lower_before(
        &mut self,
        alloc: Global,
        kind: TokenKind,
        depth: u32,
    ) -> Result<Ident, ParseError>
        ensures { Reads (piece (lower_before kind) depth self.old) result self.new }
    {
        let word = read!(self.expect(TokenKind::Lower, depth));
        read!(self.expect(kind, depth));
        Ok(made!(word.ident(alloc)))
    }

    /// Takes a name that begins with `A` to `Z`, and a word of this kind behind it.
    pub fn upper_before(
        &mut self,
        alloc: Global,
        kind: TokenKind,
        depth: u32,
    ) -> Result<Ident, ParseError>
        ensures { Reads (piece (upper_before kind) depth self.old) result self.new }
    {
        let word = read!(self.expect(TokenKind::Upper, depth));
        read!(self.expect(kind, depth));
        Ok(made!(word.ident(alloc)))
    }
}
