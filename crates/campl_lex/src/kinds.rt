//! The kinds of reserved words, names and symbols.
ghost use Rattle.std.specs.Prelude.{◌≡◌, ◌≤◌, ◌+◌, length};
ghost use Rattle.campl_lex.specs.Spelling.{declaration_words, action_words, expression_words, type_words, kind_in, reserved, name_kind};
ghost use Rattle.campl_lex.specs.Spelling.{singles, doubles, triples, is_single, is_double, is_triple, symbol_kind};
ghost use Rattle.campl_lex.specs.Reading.{symbol_len};
ghost use Rattle.campl_lex.specs.Tables.{rows};

use crate::letters::{peek, same};
use crate::token::TokenKind;

/// The kind that a word has in a table of spellings, if it stands there.
fn kind_in(table: &[(&str, TokenKind)], word: &[char]) -> Option<TokenKind>
    ensures { result ≡ kind_in (rows table.now) word.now }
{
    for row in table {
        if same(word, row.0) {
            return Some(row.1);
        }
    }
    None
}

fn declaration_word(word: &[char]) -> Option<TokenKind>
    ensures { result ≡ kind_in declaration_words word.now }
{
    kind_in(
        &[
            ("data", TokenKind::Data),
            ("protocol", TokenKind::Protocol),
            ("coprotocol", TokenKind::Coprotocol),
            ("fun", TokenKind::Fun),
            ("proc", TokenKind::Proc),
            ("where", TokenKind::Where),
            ("of", TokenKind::Of),
            ("do", TokenKind::Do),
            ("as", TokenKind::As),
            ("race", TokenKind::Race),
        ],
        word,
    )
}

fn action_word(word: &[char]) -> Option<TokenKind>
    ensures { result ≡ kind_in action_words word.now }
{
    kind_in(
        &[
            ("plug", TokenKind::Plug),
            ("put", TokenKind::Put),
            ("get", TokenKind::Get),
            ("hput", TokenKind::Hput),
            ("hcase", TokenKind::Hcase),
            ("split", TokenKind::Split),
            ("into", TokenKind::Into),
            ("fork", TokenKind::Fork),
            ("close", TokenKind::Close),
            ("halt", TokenKind::Halt),
            ("on", TokenKind::On),
            ("neg", TokenKind::Neg),
        ],
        word,
    )
}

fn expression_word(word: &[char]) -> Option<TokenKind>
    ensures { result ≡ kind_in expression_words word.now }
{
    kind_in(
        &[
            ("case", TokenKind::Case),
            ("if", TokenKind::If),
            ("then", TokenKind::Then),
            ("else", TokenKind::Else),
            ("div", TokenKind::Div),
            ("mod", TokenKind::Mod),
            ("code", TokenKind::Code),
            ("char", TokenKind::Char),
            ("True", TokenKind::True),
            ("False", TokenKind::False),
        ],
        word,
    )
}

fn type_word(word: &[char]) -> Option<TokenKind>
    ensures { result ≡ kind_in type_words word.now }
{
    kind_in(
        &[
            ("Int", TokenKind::IntType),
            ("Char", TokenKind::CharType),
            ("Bool", TokenKind::BoolType),
            ("Put", TokenKind::PutType),
            ("Get", TokenKind::GetType),
            ("Neg", TokenKind::NegType),
            ("TopBot", TokenKind::TopBot),
        ],
        word,
    )
}

#[tactic(auto, unfolding(crate::specs::Spelling::reserved))]
fn reserved(word: &[char]) -> Option<TokenKind>
    ensures { result ≡ reserved word.now }
{
    if let Some(kind) = declaration_word(word) {
        return Some(kind);
    }
    if let Some(kind) = action_word(word) {
        return Some(kind);
    }
    if let Some(kind) = expression_word(word) {
        return Some(kind);
    }
    type_word(word)
}

/// The kind of a name, which may be a reserved word.
pub fn name_kind(word: &[char]) -> TokenKind
    ensures { result ≡ name_kind word.now }
{
    let [first, ..] = word else {
        return TokenKind::Lower;
    };
    if same(word, "_") {
        return TokenKind::Wildcard;
    }
    if let Some(kind) = reserved(word) {
        return kind;
    }
    if first.is_ascii_uppercase() {
        TokenKind::Upper
    } else {
        TokenKind::Lower
    }
}

fn single(word: &[char]) -> Option<TokenKind>
    ensures { result ≡ kind_in singles word.now }
{
    kind_in(
        &[
            ("(", TokenKind::LeftParen),
            (")", TokenKind::RightParen),
            ("[", TokenKind::LeftBracket),
            ("]", TokenKind::RightBracket),
            (",", TokenKind::Comma),
            ("|", TokenKind::Bar),
            ("=", TokenKind::SingleEquals),
            ("<", TokenKind::Less),
            (">", TokenKind::Greater),
            ("+", TokenKind::Plus),
            ("-", TokenKind::Minus),
            ("*", TokenKind::Star),
            (":", TokenKind::Colon),
        ],
        word,
    )
}

fn double(word: &[char]) -> Option<TokenKind>
    ensures { result ≡ kind_in doubles word.now }
{
    kind_in(
        &[
            ("::", TokenKind::DoubleColon),
            ("=>", TokenKind::FatArrow),
            ("->", TokenKind::Arrow),
            ("==", TokenKind::Equal),
            ("/=", TokenKind::Different),
            ("<=", TokenKind::AtMost),
            (">=", TokenKind::AtLeast),
            ("&&", TokenKind::And),
            ("||", TokenKind::Or),
            ("++", TokenKind::Append),
        ],
        word,
    )
}

fn triple(word: &[char]) -> Option<TokenKind>
    ensures { result ≡ kind_in triples word.now }
{
    kind_in(
        &[
            ("|=|", TokenKind::Identity),
            ("(*)", TokenKind::Tensor),
            ("(+)", TokenKind::Par),
        ],
        word,
    )
}

fn is_single(a: char) -> bool
    ensures { result ≡ is_single a }
{
    single(&[a]).is_some()
}

fn is_double(a: char, b: char) -> bool
    ensures { result ≡ is_double a b }
{
    double(&[a, b]).is_some()
}

fn is_triple(a: char, b: char, c: char) -> bool
    ensures { result ≡ is_triple a b c }
{
    triple(&[a, b, c]).is_some()
}

/// The length of the longest symbol at the front, 0 where there is none.
pub fn symbol_len(first: char, rest: &[char]) -> usize
    ensures value { result ≡ symbol_len first rest.now }
    ensures within { result ≤ length rest.now + 1 }
{
    let second = peek(rest, 0);
    if is_triple(first, second, peek(rest, 1)) {
        3
    } else if is_double(first, second) {
        2
    } else if is_single(first) {
        1
    } else {
        0
    }
}

/// The kind of a symbol.
#[tactic(auto, using(crate::proofs::Symbols::of_one, crate::proofs::Symbols::of_two, crate::proofs::Symbols::of_three, crate::proofs::Symbols::of_more))]
pub fn symbol_kind(word: &[char]) -> TokenKind
    ensures { result ≡ symbol_kind word.now }
{
    let found = match word.len() {
        1 => single(word),
        2 => double(word),
        3 => triple(word),
        _ => None,
    };
    found.unwrap_or(TokenKind::SingleEquals)
}
