//! From the text of a source to its tree: tokens, layout, terminals.
ghost use Rattle.std.specs.Prelude.{◌≡◌, ℕ, List, MatchResult, IfOk};
ghost use Rattle.std.specs.List.{All};
ghost use Rattle.campl_lex.specs.Layout.{IsWritten, IsWhole};
ghost use Rattle.campl_terminals.specs.Terminals.{IsCut};
ghost use Rattle.campl_tree.specs.declared.place.Place.{Place};
ghost use Rattle.campl_tree.specs.declared.decl.Program.{Program};
ghost use Rattle.campl_cli.specs.Source.{HasTokens, HasLayout, HasTree, IsTextFault, IsTreeRefusal, tree_fault_of};
ghost use Rattle.campl_cli.specs.declared.kind.TextKind.{TextKind};

use crate::kind::TextKind;
use campl_lex::{LexFault, Token, end_of, layout, lex};
use campl_parse::{ParseFault, parse};
use campl_text::Text;
use campl_tree::{Place, Program};
use std::alloc::Global;

/// Why a text has no tree.
#[derive(Clone, Copy, Debug, PartialEq, Eq)]
pub enum TreeFault {
    /// The text's first fault of tokens, of layout or of the grammar, with its place.
    Wrong { kind: TextKind, place: Place },
    /// Memory ran out.
    OutOfMemory,
}

impl TreeFault {
    fn wrong(kind: TextKind, place: Place) -> TreeFault
        ensures { result ≡ TreeFault.Wrong kind place }
    {
        TreeFault::Wrong { kind, place }
    }
}

// A fault of tokens or of layout as one of the tree.
fn tree_fault(fault: LexFault) -> TreeFault
    ensures { result ≡ tree_fault_of fault }
{
    match fault {
        LexFault::BadCharacter { place } => TreeFault::wrong(TextKind::BadCharacter, place),
        LexFault::OpenString { place } => TreeFault::wrong(TextKind::OpenString, place),
        LexFault::BadEscape { place } => TreeFault::wrong(TextKind::BadEscape, place),
        LexFault::NumberTooLarge { place } => TreeFault::wrong(TextKind::NumberTooLarge, place),
        LexFault::NameTooLong { place } => TreeFault::wrong(TextKind::NameTooLong, place),
        LexFault::Tab { place } => TreeFault::wrong(TextKind::Tab, place),
        LexFault::BadColumn { place } => TreeFault::wrong(TextKind::BadColumn, place),
        LexFault::TextTooLong { place } => TreeFault::wrong(TextKind::TextTooLong, place),
        LexFault::OutOfMemory => TreeFault::OutOfMemory,
    }
}

// The tokens of a text.
fn tokens_of(alloc: Global, text: &Text) -> Result<Vec<Token>, TreeFault>
    ensures tokens { MatchResult result (λ tokens. HasTokens text.now tokens.items) (IsTreeRefusal text.now) }
    ensures written { IfOk result (λ tokens. All (IsWritten text.now) tokens.items) }
{
    match lex(alloc, text) {
        Ok(tokens) => Ok(tokens),
        Err(fault) => Err(tree_fault(fault)),
    }
}

// The layout of a text.
fn layout_of(alloc: Global, text: &Text) -> Result<Vec<Token>, TreeFault>
    ensures laid { MatchResult result (λ laid. HasLayout text.now laid.items) (IsTreeRefusal text.now) }
    ensures whole { IfOk result (λ laid. IsWhole laid.items) }
    ensures cut { IfOk result (λ laid. All (IsCut text.now) laid.items) }
{
    // What the proof knows of a text's bytes is that of its `&str`.
    let _known = text.as_str();
    let tokens = tokens_of(alloc, text)?;
    match layout(alloc, text, &tokens, end_of(text)) {
        Ok(laid) => Ok(laid),
        Err(fault) => Err(tree_fault(fault)),
    }
}

/// The tree of a text, or its first fault: that of its tokens, then that of its layout, and then that of its terminals.
pub fn tree_of(alloc: Global, text: &Text) -> Result<Program, TreeFault>
    ensures { MatchResult result (HasTree text.now) (IsTreeRefusal text.now) }
{
    let laid = layout_of(alloc, text)?;
    match parse(alloc, text, &laid) {
        Ok(program) => Ok(program),
        Err(ParseFault::Unexpected { place }) => Err(TreeFault::wrong(TextKind::Unexpected, place)),
        Err(ParseFault::TooDeep { place }) => Err(TreeFault::wrong(TextKind::TooDeep, place)),
        Err(ParseFault::OutOfMemory) => Err(TreeFault::OutOfMemory),
    }
}

/// A text has one tree or one first fault of tokens, layout or grammar, and never both.
pub fn one_answer()
    ensures tree { (text : List ℕ) (this that : Program) → HasTree text this → HasTree text that → this ≡ that }
    ensures no_fault { (text : List ℕ) (program : Program) (kind : TextKind) (at : Place) → HasTree text program → ¬ (IsTextFault text kind at) }
    ensures one_fault { (text : List ℕ) (kind other : TextKind) (at there : Place) → IsTextFault text kind at → IsTextFault text other there → (kind ≡ other) × (at ≡ there) }
{}
