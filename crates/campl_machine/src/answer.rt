//! One answer: where reductions have the diamond, their order doesn't matter to what comes out.
//!
//! The diamond is wanted only of what is reached from the start, so whatever holds all along a run may serve to prove it.

ghost use Rattle.std.specs.Prelude.{ℕ, Bool, List};
ghost use Rattle.campl_machine.specs.Names.{TellsApart, Who};
ghost use Rattle.campl_machine.specs.Machine.{Act, Config};
ghost use Rattle.campl_machine.specs.Programs.{KeepsApartFrom, Steps};
ghost use Rattle.campl_machine.specs.Runs.{AllEndAt, DiamondsFrom, OneIsPrefix, OnlyAdds, Reaches, Run, Stuck};

/// States with reductions, each with its label. The relation is any that the implementor gives.
pub trait Reduces {
    /// What tells the reductions of one state apart.
    type Label;

    ghost reduces: { Self → Self.Label → Self → Type 0 };
}

/// If one run of n reductions reaches a state that can't go on, no run is longer, and each that can't go on ends there after n.
pub fn law_one_answer<C: Reduces>()
    ensures { (same : C.Label → C.Label → Bool) (start : C) → TellsApart same → DiamondsFrom C.reduces start → (s : C) (n : ℕ) → Run C.reduces n start s → Stuck C.reduces s → AllEndAt C.reduces start s n }
{}

/// Of what two runs show, one is a prefix of the other, if each reduction only adds to what is shown.
pub fn law_prefixes<C: Reduces, A>()
    ensures { (same : C.Label → C.Label → Bool) (start : C) → TellsApart same → DiamondsFrom C.reduces start → (shown : C → List A) → OnlyAdds C.reduces start shown → (b c : C) → Reaches C.reduces start b → Reaches C.reduces start c → OneIsPrefix (shown b) (shown c) }
{}

/// A machine whose program keeps its steps apart has one answer: its runs that can't go on end in one configuration,
/// after as many steps, and no run is longer.
pub fn law_program_answer<S, M, I>()
    ensures { (act : Who → S → I → Act S M) (i : I) (start : Config S M) → KeepsApartFrom act i start → (s : Config S M) (n : ℕ) → Run (Steps act i) n start s → Stuck (Steps act i) s → AllEndAt (Steps act i) start s n }
{}

/// And of what two of its runs show, one is a prefix of the other, if each step only adds to what is shown.
pub fn law_program_prefixes<S, M, I, A>()
    ensures { (act : Who → S → I → Act S M) (i : I) (start : Config S M) → KeepsApartFrom act i start → (shown : Config S M → List A) → OnlyAdds (Steps act i) start shown → (b c : Config S M) → Reaches (Steps act i) start b → Reaches (Steps act i) start c → OneIsPrefix (shown b) (shown c) }
{}
