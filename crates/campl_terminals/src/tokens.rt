//! The terminals of a source's tokens.
ghost use Rattle.std.specs.Prelude.{◌≡◌, IfOk};
ghost use Rattle.std.specs.List.{All};
ghost use Rattle.campl_terminals.specs.Terminals.{terminal_of, terminals_of, IsCut};

use crate::terminal::Terminal;
use campl_lex::Token;
use campl_text::Text;
use std::alloc::{AllocError, Global};

/// The terminal of a token.
fn terminal_of<'a>(text: &'a Text, token: Token) -> Terminal<'a>
    requires { IsCut text.now token }
    ensures { result ≡ terminal_of text.now token }
{
    let lexeme = &text.as_str()[token.start as usize..token.stop as usize];
    Terminal::new(token.kind, lexeme, token.place)
}

/// The terminals of tokens, one for each.
pub fn terminals_of<'a>(
    alloc: Global,
    text: &'a Text,
    tokens: &[Token],
) -> Result<Vec<Terminal<'a>>, AllocError>
    requires { All (IsCut text.now) tokens.now }
    ensures { IfOk result (λ found. found.items ≡ terminals_of text.now tokens.now) }
{
    let mut found = Vec::new(alloc);
    for token in tokens {
        found.push(terminal_of(text, *token))?;
    }
    Ok(found)
}
