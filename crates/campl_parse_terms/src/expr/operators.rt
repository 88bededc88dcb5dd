//! Operators between expressions.
ghost use Rattle.std.specs.Prelude.{◌≡◌, OnOk, ◌≤◌};
ghost use Rattle.campl_gram.specs.Reading.{next_in};
ghost use Rattle.campl_grammar.specs.Names as name;
ghost use Rattle.campl_grammar.specs.Rules.{read};
ghost use Rattle.campl_grammar.specs.Tables.{starts};
ghost use Rattle.campl_grammar.specs.Terminal.{terminals};
ghost use Rattle.campl_parse_terms.specs.Reads.{Reads};

use crate::cursor::Cursor;
use crate::error::ParseError;
use campl_lex::TokenKind;
use campl_tree::{Arithmetic, Comparison};

/// Whether the next word compares.
pub fn starts_comparison(cursor: &Cursor<'_>) -> bool
    ensures { result ≡ next_in terminals (starts name.comparison) cursor.now }
{
    let kinds = [
        TokenKind::Equal,
        TokenKind::Different,
        TokenKind::Less,
        TokenKind::AtMost,
        TokenKind::Greater,
        TokenKind::AtLeast,
    ];
    cursor.at_any(&kinds)
}

/// Whether the next word adds or subtracts.
pub fn starts_terms(cursor: &Cursor<'_>) -> bool
    ensures { result ≡ next_in terminals (starts name.terms) cursor.now }
{
    cursor.at_any(&[TokenKind::Plus, TokenKind::Minus])
}

/// Whether the next word multiplies or divides.
pub fn starts_factors(cursor: &Cursor<'_>) -> bool
    ensures { result ≡ next_in terminals (starts name.factors) cursor.now }
{
    cursor.at_any(&[TokenKind::Star, TokenKind::Div, TokenKind::Mod])
}

/// A comparison's operator.
#[tactic(auto, using(campl_grammar::proofs::ByRule::reads_comparison))]
pub fn comparison(cursor: &mut Cursor<'_>, depth: u32) -> Result<Comparison, ParseError>
    ensures reads { Reads (read name.comparison depth cursor.old) result cursor.new }
    ensures shallow { OnOk result (depth ≤ 200) }
{
    let others = [
        (TokenKind::Different, Comparison::Different),
        (TokenKind::Less, Comparison::Less),
        (TokenKind::AtMost, Comparison::AtMost),
        (TokenKind::Greater, Comparison::Greater),
        (TokenKind::AtLeast, Comparison::AtLeast),
    ];
    cursor.one_of((TokenKind::Equal, Comparison::Equal), &others, depth)
}

/// `+` or `-`.
#[tactic(auto, using(campl_grammar::proofs::ByRule::reads_addition))]
pub fn addition(cursor: &mut Cursor<'_>, depth: u32) -> Result<Arithmetic, ParseError>
    ensures reads { Reads (read name.addition depth cursor.old) result cursor.new }
    ensures shallow { OnOk result (depth ≤ 200) }
{
    let others = [(TokenKind::Minus, Arithmetic::Subtract)];
    cursor.one_of((TokenKind::Plus, Arithmetic::Add), &others, depth)
}

/// `*`, `div` or `mod`.
#[tactic(auto, using(campl_grammar::proofs::ByRule::reads_multiplication))]
pub fn multiplication(cursor: &mut Cursor<'_>, depth: u32) -> Result<Arithmetic, ParseError>
    ensures reads { Reads (read name.multiplication depth cursor.old) result cursor.new }
    ensures shallow { OnOk result (depth ≤ 200) }
{
    let others = [
        (TokenKind::Div, Arithmetic::Divide),
        (TokenKind::Mod, Arithmetic::Remainder),
    ];
    cursor.one_of((TokenKind::Star, Arithmetic::Multiply), &others, depth)
}
