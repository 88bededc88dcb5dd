//! Terminals, and what each says.
ghost use Rattle.std.specs.Prelude.{◌≡◌, IfOk};
ghost use Rattle.campl_grammar.specs.Terminal.{name_of, ident_of, number_of, content_of, character_of};

use crate::digits::digits;
use crate::literal::{between, first_letter, unescaped};
use campl_lex::TokenKind;
use campl_tree::{Ident, Name, Place};
use sqlite_items::Items;
use std::alloc::{AllocError, Global};
use std::marker::Model;

/// A token of a source with its text. Contracts see it as a terminal of the grammar.
#[derive(Drop)]
pub struct Terminal<'a> {
    kind: TokenKind,
    text: &'a str,
    place: Place,
}

impl<'a> Model for Terminal<'a> {
    ghost use Rattle.campl_grammar.specs.Terminal.{Terminal};

    ghost Value = { Terminal };

    ghost view = { λ w. record { kind = w.kind; text = w.text.now; place = w.place } };
}

impl<'a> Terminal<'a> {
    /// A terminal of this kind, text and place.
    pub fn new(kind: TokenKind, text: &'a str, place: Place) -> Terminal<'a>
        ensures { result ≡ record { kind = kind; text = text.now; place = place } }
    {
        Terminal { kind, text, place }
    }

    /// To which kind the terminal belongs.
    pub fn kind(&self) -> TokenKind
        ensures { result ≡ self.now.kind }
    {
        self.kind
    }

    /// The place of its first character.
    pub fn place(&self) -> Place
        ensures { result ≡ self.now.place }
    {
        self.place
    }

    /// The name that it spells.
    pub fn name(&self, alloc: Global) -> Result<Name, AllocError>
        ensures { IfOk result (λ name. name ≡ name_of self.now) }
    {
        Name::of(alloc, self.text)
    }

    /// The name that it spells, with its place.
    pub fn ident(&self, alloc: Global) -> Result<Ident, AllocError>
        ensures { IfOk result (λ ident. ident ≡ ident_of self.now) }
    {
        let name = self.name(alloc)?;
        Ok(Ident {
            place: self.place,
            name,
        })
    }

    /// The number that it spells, at most 9,223,372,036,854,775,807.
    pub fn number(&self) -> i64
        ensures { result ≡ number_of self.now }
    {
        digits(self.text.as_bytes()) as i64
    }

    /// The character of a character literal.
    #[tactic(auto, unfolding(campl_grammar::specs::Terminal::character_of, campl_grammar::specs::Terminal::content_of))]
    pub fn character(&self) -> char
        ensures { result ≡ character_of self.now }
    {
        match first_letter(between(self.text)) {
            Some((letter, _)) => letter,
            None => '\0',
        }
    }

    /// The characters of a text literal, behind its escapes.
    #[tactic(auto, unfolding(campl_grammar::specs::Terminal::content_of))]
    pub fn text(&self, alloc: Global) -> Result<Items<char>, AllocError>
        ensures { IfOk result (λ text. text ≡ content_of self.now) }
    {
        unescaped(alloc, between(self.text))
    }
}
