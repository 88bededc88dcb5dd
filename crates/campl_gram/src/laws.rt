//! The laws of every grammar that passes the test. Each is a function with nothing to do, whose contract is the law.
ghost use Rattle.std.specs.Prelude.{◌≡◌, ℕ, Bool, List, [], ◌∷◌, ◌++◌, Ok, Err};
ghost use Rattle.campl_gram.specs.declared.fault.Fault.{Fault};
ghost use Rattle.campl_gram.specs.Grammar.{Terminals, Piece, Nested, bare, Shallow, IsProgram};
ghost use Rattle.campl_gram.specs.Reading.{Tables, read, read_by};
ghost use Rattle.campl_gram.specs.Verdicts.{finish, Answers};
ghost use Rattle.campl_gram.specs.Tests.{Distinct, Passes};
ghost use Rattle.campl_gram.specs.Brackets.{Balanced, RulesBalanced, Encloses};

/// A grammar that passes the test, for proofs alone.
pub trait Grammar {
    // What the tokens, their kinds and their places are.
    ghost Token: { Type 0 };

    ghost Kind: { Type 0 };

    ghost Place: { Type 0 };

    // Of which kinds a token is, and where it stands.
    ghost terminals: { Terminals Token Kind Place };

    // Whether two kinds are the same; others have no token in common.
    ghost same: { Kind → Kind → Bool };

    ghost distinct: { Distinct terminals same };

    // The grammar's names, what a value of each is, and its rule.
    ghost Name: { Type 0 };

    ghost Value: { Name → Type 0 };

    ghost rule: { (m : Name) → Piece Token Kind Place Name Value (Value m) };

    // What is known of each name beside its rule, and that it is right.
    ghost tables: { Tables Kind Name };

    ghost passes: { Passes same tables rule };
}

/// No tokens have two trees, however deep they are nested.
pub fn one_tree<G: Grammar>()
    ensures { (m : G.Name) (w v : List (Nested G.Token)) (x y : G.Value m)
        → IsProgram G.terminals G.Name G.Value G.rule m w x → IsProgram G.terminals G.Name G.Value G.rule m v y → bare w ≡ bare v → x ≡ y }
{}

/// What is read of the tokens of a whole text is the answer for them, and a program within the limit is read as its tree.
pub fn reading_is_exact<G: Grammar>()
    ensures answers { (limit : ℕ) (m : G.Name) (tokens : List G.Token)
        → Answers limit (IsProgram G.terminals G.Name G.Value G.rule m) tokens (finish (read G.terminals G.Name G.Value G.tables limit G.rule m 0 tokens)) }
    ensures finds { (limit : ℕ) (m : G.Name) (w : List (Nested G.Token)) (x : G.Value m)
        → IsProgram G.terminals G.Name G.Value G.rule m w x → Shallow limit w
        → finish (read G.terminals G.Name G.Value G.tables limit G.rule m 0 (bare w)) ≡ (Ok x, []) }
{}

/// A name is read as its rule is. So a parser has one function for each name.
pub fn name_is_read_as_its_rule<G: Grammar>()
    ensures { (limit : ℕ) (m : G.Name) (depth : ℕ) (tokens : List G.Token)
        → read G.terminals G.Name G.Value G.tables limit G.rule m depth tokens
        ≡ read_by G.terminals G.Name G.Value G.tables limit (read G.terminals G.Name G.Value G.tables limit G.rule) (G.rule m) depth tokens }
{}

/// Where each rule closes the brackets of one sort that it opens, and programs stand in such brackets, a program is
/// balanced, and no proper front of it is but the empty one.
pub fn proper_front_is_open<G: Grammar>()
    ensures whole { (opening closing : G.Kind) (m : G.Name) → RulesBalanced G.same opening closing G.rule → Encloses G.same opening closing (G.rule m)
        → (w : List (Nested G.Token)) (x : G.Value m)
        → IsProgram G.terminals G.Name G.Value G.rule m w x → Balanced G.terminals opening closing (bare w) }
    ensures front { (opening closing : G.Kind) (m : G.Name) → RulesBalanced G.same opening closing G.rule → Encloses G.same opening closing (G.rule m)
        → (p : Nested G.Token) (w : List (Nested G.Token)) (q : Nested G.Token) (more : List (Nested G.Token)) (x : G.Value m)
        → IsProgram G.terminals G.Name G.Value G.rule m ((p ∷ w) ++ q ∷ more) x → Balanced G.terminals opening closing (bare (p ∷ w)) → ⊥ }
{}

/// There the fault of a balanced list of one token or more stands at a token, and never at the end.
pub fn fault_is_at_a_token<G: Grammar>()
    ensures { (opening closing : G.Kind) (m : G.Name) → RulesBalanced G.same opening closing G.rule → Encloses G.same opening closing (G.rule m)
        → (limit : ℕ) (t : G.Token) (ts : List G.Token) (fault : Fault) (rest : List G.Token)
        → Balanced G.terminals opening closing (t ∷ ts)
        → Answers limit (IsProgram G.terminals G.Name G.Value G.rule m) (t ∷ ts) (Err fault, rest)
        → (x : G.Token) × (more : List G.Token) × (rest ≡ x ∷ more) }
{}
