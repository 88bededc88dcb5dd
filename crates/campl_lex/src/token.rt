//! Tokens.

use campl_tree::Place;

/// What a token is, as the grammar sees it: a reserved word, a symbol, or a name or literal of some sort.
#[derive(Clone, Copy, Debug, PartialEq, Eq)]
pub enum TokenKind {
    /// A name that begins with a small letter and isn't reserved.
    Lower,
    /// A name that begins with `A` to `Z` and isn't reserved.
    Upper,
    /// `_`
    Wildcard,
    Number,
    Text,
    Character,
    /// `{`, where layout opens a block.
    LeftBrace,
    /// `}`, where layout closes one.
    RightBrace,
    /// `;` between the lines of a block.
    Semicolon,
    /// `data`
    Data,
    /// `protocol`
    Protocol,
    /// `coprotocol`
    Coprotocol,
    /// `fun`
    Fun,
    /// `proc`
    Proc,
    /// `where`
    Where,
    /// `of`
    Of,
    /// `do`
    Do,
    /// `as`
    As,
    /// `race`
    Race,
    /// `plug`
    Plug,
    /// `put`
    Put,
    /// `get`
    Get,
    /// `hput`
    Hput,
    /// `hcase`
    Hcase,
    /// `split`
    Split,
    /// `into`
    Into,
    /// `fork`
    Fork,
    /// `close`
    Close,
    /// `halt`
    Halt,
    /// `on`
    On,
    /// `neg`
    Neg,
    /// `case`
    Case,
    /// `if`
    If,
    /// `then`
    Then,
    /// `else`
    Else,
    /// `div`
    Div,
    /// `mod`
    Mod,
    /// `code`
    Code,
    /// `char`
    Char,
    /// `True`
    True,
    /// `False`
    False,
    /// `Int`
    IntType,
    /// `Char`
    CharType,
    /// `Bool`
    BoolType,
    /// `Put`
    PutType,
    /// `Get`
    GetType,
    /// `Neg`
    NegType,
    /// `TopBot`
    TopBot,
    /// `::`
    DoubleColon,
    /// `=>`
    FatArrow,
    /// `->`
    Arrow,
    /// `|=|`
    Identity,
    /// `(*)`
    Tensor,
    /// `(+)`
    Par,
    /// `==`
    Equal,
    /// `/=`
    Different,
    /// `<=`
    AtMost,
    /// `>=`
    AtLeast,
    /// `&&`
    And,
    /// `||`
    Or,
    /// `++`
    Append,
    /// `(`
    LeftParen,
    /// `)`
    RightParen,
    /// `[`
    LeftBracket,
    /// `]`
    RightBracket,
    /// `,`
    Comma,
    /// `|`
    Bar,
    /// `<`
    Less,
    /// `>`
    Greater,
    /// `+`
    Plus,
    /// `-`
    Minus,
    /// `*`
    Star,
    /// `:`
    Colon,
    /// `=`, which stands nowhere in the grammar.
    SingleEquals,
}

/// A token of a source. Its text is the source's bytes from `start` to before `stop`, none where layout inserted it;
/// `place` is that of its first character.
#[derive(Clone, Copy, Debug, PartialEq, Eq)]
pub struct Token {
    pub kind: TokenKind,
    pub start: u32,
    pub stop: u32,
    pub place: Place,
}
