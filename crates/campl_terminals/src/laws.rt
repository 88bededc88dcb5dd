//! Laws over the definitions of terminals.
ghost use Rattle.std.specs.Prelude.{◌≡◌, ◌≤◌, ℕ, List, [], ◌∷◌, ◌++◌, Ok, pos, chars};
ghost use Rattle.std.specs.List.{All};
ghost use Rattle.std.specs.Str.{IsUtf8};
ghost use Rattle.campl_tree.specs.declared.place.Place.{Place};
ghost use Rattle.campl_gram.specs.Brackets.{Balanced};
ghost use Rattle.campl_lex.specs.declared.token.Token.{Token};
ghost use Rattle.campl_lex.specs.Layout.{IsWhole, laid_out};
ghost use Rattle.campl_lex.specs.Literal.{Spells};
ghost use Rattle.campl_lex.specs.Spelling as spelling;
ghost use Rattle.campl_lex.specs.Spot.{first_spot};
ghost use Rattle.campl_lex.specs.Tokens.{Lexes};
ghost use Rattle.campl_lex.specs.declared.token.TokenKind.TheVariants.{LeftBrace, RightBrace};
ghost use Rattle.campl_lex.specs.Limits.{greatest_number};
ghost use Rattle.campl_grammar.specs.Terminal.{Terminal, number_of, content_of, terminals};
ghost use Rattle.campl_terminals.specs.Terminals.{terminals_of, IsCut};

/// The text of a literal's terminal is what the literal spells.
pub fn text_is_spelled()
    ensures { (quote : ℕ) (letters cs : List ℕ) (w : Terminal) → Spells quote letters cs → chars w.text ≡ quote ∷ (letters ++ quote ∷ []) → content_of w ≡ cs }
{}

/// The number of a terminal is the one that its digits are, where that is no greater than the greatest.
pub fn number_is_spelled()
    ensures { (w : Terminal) → spelling.number_of w.text ≤ greatest_number → number_of w ≡ pos (spelling.number_of w.text) }
{}

/// All that layout answers on a text's tokens can be cut out of the text.
pub fn layout_is_cut()
    ensures { (text : List ℕ) (end : Place) (tokens found : List Token) → IsUtf8 text → Lexes first_spot (chars text) (Ok tokens) → laid_out text end tokens ≡ Ok found → All (IsCut text) found }
{}

/// The terminals of a layout are balanced in braces.
pub fn braces_are_balanced()
    ensures { (text : List ℕ) (tokens : List Token) → IsWhole tokens → Balanced terminals LeftBrace RightBrace (terminals_of text tokens) }
{}
