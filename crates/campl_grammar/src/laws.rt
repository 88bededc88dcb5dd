//! Laws of the grammar. Each is a function with nothing to do, whose contract is the law.
ghost use Rattle.std.specs.Prelude.{◌≡◌, List};
ghost use Rattle.campl_gram.specs.Grammar.{Nested, bare};
ghost use Rattle.campl_tree.specs.declared.decl.Program.{Program};
ghost use Rattle.campl_grammar.specs.Terminal.{Terminal};
ghost use Rattle.campl_grammar.specs.Rules.{IsProgram};

/// No list of terminals has two trees, however deep it nests.
pub fn one_tree()
    ensures { (w v : List (Nested Terminal)) (x y : Program) → IsProgram w x → IsProgram v y → bare w ≡ bare v → x ≡ y }
{}
