//! Layout: where `{`, `}` and `;` stand between the tokens of a source.
ghost use Rattle.std.specs.Prelude.{◌≡◌, ◌≢◌, ℕ, ◌+◌, ◌*◌, ◌≤◌, suc, List, [], ◌∷◌, ◌++◌, Ok, Err, None, MatchResult, IfOk, IfErr, IfSome, OnOk};
ghost use Rattle.std.specs.Prelude.{length, drop, slice_range, replicate};
ghost use Rattle.std.specs.List.{All, prefix_len};
ghost use Rattle.campl_lex.specs.Enclosure.{block_count, is_block_from};
ghost use Rattle.campl_lex.specs.Layout.{opens_block, is_opening_bracket, is_closing_bracket, IsWritten, inserted, Puts, onto};
ghost use Rattle.campl_lex.specs.Layout.{block_opened, bracket_closed, separated, aligned, closing, before, behind, ended, laid};
ghost use Rattle.campl_lex.specs.Layout.{laid_out, adds, Answers, IsWhole};
ghost use Rattle.campl_lex.specs.declared.token.TokenKind.TheVariants.{LeftBrace, RightBrace};
ghost use Rattle.campl_tree.specs.declared.place.Place.{Place};
ghost use Rattle.campl_lex.specs.declared.stack.Enclosure.TheVariants.{Block};
ghost use Rattle.campl_lex.specs.declared.fault.LexFault.TheVariants.{OutOfMemory};

use crate::fault::LexFault;
use crate::stack::{Enclosure, Stack};
use crate::token::{Token, TokenKind};
use campl_text::Text;
use campl_tree::Place;
use std::alloc::Global;

/// A token of no text, put before what stands at a byte and a place.
fn inserted(kind: TokenKind, at: u32, place: Place) -> Token
    ensures { result ≡ inserted kind at place }
{
    Token {
        kind,
        start: at,
        stop: at,
        place,
    }
}

fn opens_block(kind: TokenKind) -> bool
    ensures { result ≡ opens_block kind }
{
    matches!(
        kind,
        TokenKind::Where | TokenKind::Of | TokenKind::Do | TokenKind::As | TokenKind::Race
    )
}

fn opens_bracket(kind: TokenKind) -> bool
    ensures { result ≡ is_opening_bracket kind }
{
    matches!(kind, TokenKind::LeftParen | TokenKind::LeftBracket)
}

fn closes_bracket(kind: TokenKind) -> bool
    ensures { result ≡ is_closing_bracket kind }
{
    matches!(kind, TokenKind::RightParen | TokenKind::RightBracket)
}

/// The tokens with what layout puts between them: `{`, `}` and `;` by the columns at which blocks and lines begin.
///
/// An inserted token has the place of the token before which it stands, or of the end. `BadColumn` comes at the first token, or at the
/// end, that may not stand in its column; no other fault comes.
pub fn layout(
    alloc: Global,
    text: &Text,
    tokens: &[Token],
    end: Place,
) -> Result<Vec<Token>, LexFault>
    requires { All (IsWritten text.now) tokens.now }
    ensures laid { Answers (laid_out text.now end tokens.now) result }
    ensures whole { IfOk result (λ laid. IsWhole laid.items) }
    ensures short { IfOk result (λ laid. length laid.items ≤ 4 * length tokens.now + 2) }
{
    laid_out(alloc, text, tokens, end)
}

fn laid_out(
    alloc: Global,
    text: &Text,
    tokens: &[Token],
    end: Place,
) -> Result<Vec<Token>, LexFault>
    ensures { Answers (laid_out text.now end tokens.now) result }
{
    let end = inserted(TokenKind::RightBrace, text.as_str().len() as u32, end);
    let first = match tokens {
        [first, ..] => *first,
        [] => end,
    };
    let mut progress = Progress::new(alloc, first)?;
    let last = progress.put_all(tokens)?;
    progress.finish(last, end)
}

/// The tokens laid out so far, and what is open behind them.
#[derive(Drop)]
struct Progress {
    tokens: Vec<Token>,
    stack: Stack,
}

impl Progress {
    /// The source's own block, opened before the first token.
    fn new(alloc: Global, first: Token) -> Result<Progress, LexFault>
        ensures { MatchResult result (λ p. (p.tokens.items ≡ inserted LeftBrace first.start first.place ∷ []) × (p.stack ≡ Block 1 ∷ [])) (λ fault. fault ≡ OutOfMemory) }
    {
        let mut progress = Progress {
            tokens: Vec::new(alloc),
            stack: Stack::new(alloc),
        };
        progress.insert(TokenKind::LeftBrace, first)?;
        progress.stack.push(Enclosure::Block(1))?;
        Ok(progress)
    }

    /// Puts a token of no text before a token.
    fn insert(&mut self, kind: TokenKind, before: Token) -> Result<(), LexFault>
        ensures ok { OnOk result (self.new.tokens.items ≡ self.old.tokens.items ++ inserted kind before.start before.place ∷ []) }
        ensures err { IfErr result (λ fault. fault ≡ OutOfMemory) }
        ensures stack { self.new.stack ≡ self.old.stack }
    {
        self.tokens
            .push(inserted(kind, before.start, before.place))?;
        Ok(())
    }

    /// Opens a block at its first token.
    fn open_block(&mut self, first: Token) -> Result<(), LexFault>
        ensures { Puts (block_opened first self.old.stack) self.old.tokens.items result self.new.tokens.items self.new.stack }
    {
        if first.place.column <= self.stack.nearest() {
            return Err(LexFault::BadColumn { place: first.place });
        }
        self.insert(TokenKind::LeftBrace, first)?;
        self.stack.push(Enclosure::Block(first.place.column))?;
        Ok(())
    }

    /// Closes the topmost blocks of this column or a greater one before a token, and counts them.
    #[tactic(auto, using(crate::proofs::Stacks::prefix_len_tops, crate::proofs::Stacks::prefix_len_stops, crate::proofs::Stacks::length_tops))]
    fn close_blocks(&mut self, column: u64, before: Token) -> Result<usize, LexFault>
        ensures count { IfOk result (λ n. n ≡ prefix_len (is_block_from column) self.old.stack) }
        ensures tokens { IfOk result (λ n. self.new.tokens.items ≡ self.old.tokens.items ++ replicate n (inserted RightBrace before.start before.place)) }
        ensures stack { IfOk result (λ n. self.new.stack ≡ drop n self.old.stack) }
        ensures err { IfErr result (λ fault. fault ≡ OutOfMemory) }
    {
        let mut closed = 0;
        while self.stack.is_block_from(column) {
            self.insert(TokenKind::RightBrace, before)?;
            self.stack.pop();
            closed += 1;
        }
        Ok(closed)
    }

    /// Closes the blocks above the topmost bracket, and that bracket.
    fn close_bracket(&mut self, token: Token) -> Result<(), LexFault>
        ensures { Puts (bracket_closed token self.old.stack) self.old.tokens.items result self.new.tokens.items self.new.stack }
    {
        self.close_blocks(0, token)?;
        self.stack.pop();
        Ok(())
    }

    /// Lets the first token of a line close the blocks of greater columns, or go on in the block of its column.
    #[tactic(auto, using(std::proofs::lemmas::List::append_assoc))]
    fn align(&mut self, token: Token) -> Result<(), LexFault>
        ensures { Puts (aligned token self.old.stack) self.old.tokens.items result self.new.tokens.items self.new.stack }
    {
        let closed = self.close_blocks(u64::from(token.place.column) + 1, token)?;
        match self.stack.top() {
            Some(Enclosure::Block(column)) => {
                if column == token.place.column {
                    self.insert(TokenKind::Semicolon, token)?;
                    Ok(())
                } else if closed == 0 {
                    Ok(())
                } else {
                    Err(LexFault::BadColumn { place: token.place })
                }
            }
            _ => Ok(()),
        }
    }
}

impl Progress {
    /// Puts what stands before a token, behind the token `last`.
    fn put_before(&mut self, last: Option<Token>, token: Token) -> Result<(), LexFault>
        ensures { Puts (before last token self.old.stack) self.old.tokens.items result self.new.tokens.items self.new.stack }
    {
        let Some(last) = last else {
            return if token.place.column == 1 {
                Ok(())
            } else {
                Err(LexFault::BadColumn { place: token.place })
            };
        };
        let opens = opens_block(last.kind);
        if opens {
            self.open_block(token)?;
        }
        if closes_bracket(token.kind) && self.stack.has_bracket() {
            return self.close_bracket(token);
        }
        if opens || token.place.line == last.place.line {
            return Ok(());
        }
        self.align(token)
    }

    /// Puts the token itself, which may open a bracket.
    fn put(&mut self, token: Token) -> Result<(), LexFault>
        ensures ok { OnOk result (self.new.tokens.items ≡ self.old.tokens.items ++ token ∷ []) }
        ensures stack { OnOk result (self.new.stack ≡ behind token self.old.stack) }
        ensures err { IfErr result (λ fault. fault ≡ OutOfMemory) }
    {
        self.tokens.push(token)?;
        if opens_bracket(token.kind) {
            let column = self.stack.nearest();
            self.stack.push(Enclosure::Bracket(column))?;
        }
        Ok(())
    }

    /// Closes all blocks at the end.
    fn close_all(&mut self, end: Token) -> Result<(), LexFault>
        ensures ok { OnOk result (self.new.tokens.items ≡ self.old.tokens.items ++ replicate (block_count self.old.stack) (inserted RightBrace end.start end.place)) }
        ensures err { IfErr result (λ fault. fault ≡ OutOfMemory) }
    {
        while let Some(enclosure) = self.stack.top() {
            self.stack.pop();
            if let Enclosure::Block(_) = enclosure {
                self.insert(TokenKind::RightBrace, end)?;
            }
        }
        Ok(())
    }
}

impl Progress {
    /// Puts all tokens, each behind what stands before it, and gives the last.
    fn put_all(&mut self, tokens: &[Token]) -> Result<Option<Token>, LexFault>
        ensures ok { IfOk result (λ last. (text : List ℕ) (end : Place) → adds self.old.tokens.items (laid text end self.old.stack None tokens.now) ≡ adds self.new.tokens.items (ended text end self.new.stack last)) }
        ensures err { IfErr result (λ fault. fault ≢ OutOfMemory → (text : List ℕ) (end : Place) → laid text end self.old.stack None tokens.now ≡ Err fault) }
    {
        let mut last = None;
        for token in tokens {
            self.put_before(last, *token)?;
            self.put(*token)?;
            last = Some(*token);
        }
        Ok(last)
    }

    /// Closes the source's blocks at the end.
    fn finish(mut self, last: Option<Token>, end: Token) -> Result<Vec<Token>, LexFault>
        ensures { (text : List ℕ) → end.start ≡ length text → Answers (adds self.tokens.items (ended text end.place self.stack last)) result }
    {
        if let Some(last) = last
            && opens_block(last.kind)
        {
            return Err(LexFault::BadColumn { place: end.place });
        }
        self.close_all(end)?;
        Ok(self.tokens)
    }
}
