//! Laws over the definitions, functions with nothing to do, whose contracts they are.
ghost use Rattle.std.specs.Prelude.{ℕ, suc};
ghost use Rattle.campl_tree.specs.Plain.Decl.{Program};
ghost use Rattle.campl_tree.specs.Plain.Expr.{Expr};
ghost use Rattle.campl_tree.specs.Plain.SeqType.{SeqType};
ghost use Rattle.campl_types.specs.Fits.{Vars};
ghost use Rattle.campl_types.specs.Matching.{Bindings};
ghost use Rattle.campl_types.specs.Sequential.{Way, HasType};
ghost use Rattle.campl_types.specs.Substitution.{Filling, filled};
ghost use Rattle.campl_types.specs.Typed.{IsTyped};
ghost use Rattle.campl_types.specs.World.{World, world_of};
ghost use Rattle.campl_evaluation.specs.Evaluation.{value_of};
ghost use Rattle.campl_evaluation.specs.Typed.{AreBound, Fine};
ghost use Rattle.campl_evaluation.specs.Budget.{Longer};
ghost use Rattle.campl_types.specs.Values.{IsValue};

/// In a typed source, at each filling of type variables: where an expression has a type under variables that
/// stand for values of their filled types, its evaluation is never wrong, and its value is of the filled type.
pub fn law_soundness()
    ensures { (source : Program) → IsTyped source → (way : Way) (f : Filling) (vs : Vars) (a : Expr) (t : SeqType) (variables : Bindings) (n : ℕ)
        → AreBound (world_of source) f variables vs → HasType way (world_of source) vs a t
        → Fine (λ v. IsValue (world_of source) v (filled f t)) (value_of (world_of source) a variables n) }
{}

/// With one more call allowed, an evaluation that ends goes the same, with one more call left.
pub fn law_budget()
    ensures { (w : World) (a : Expr) (variables : Bindings) (n : ℕ) → Longer (value_of w a variables n) (value_of w a variables (suc n)) }
{}
