//! What holds of every service, as contracts of functions that do nothing.
ghost use Rattle.std.specs.Prelude.{◌≡◌, ◌↔◌, ◌++◌, Option, Some, IsSome};
ghost use Rattle.campl_value.specs.declared.message.Message.{Message};
ghost use Rattle.campl_service.specs.Services.{Serving, Suits, want, action};
ghost use Rattle.campl_service.specs.Transcripts.{Records};

/// A service has an action exactly where it is given what it wants, and an action leaves its kind and the records that stand.
pub fn law_actions()
    ensures exactly { (s : Serving) (given : Option Message) → IsSome (action s given) ↔ Suits (want s) given }
    ensures kind { (s t : Serving) (given sent : Option Message) → action s given ≡ Some (t, sent) → t.kind ≡ s.kind }
    ensures grows { (s t : Serving) (given sent : Option Message) → action s given ≡ Some (t, sent) → (more : Records) × (t.transcript ≡ s.transcript ++ more) }
{}
