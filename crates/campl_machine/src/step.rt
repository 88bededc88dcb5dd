//! What a step is, and what it keeps.

ghost use Rattle.std.specs.Prelude.{◌≡◌, None, Some};
ghost use Rattle.campl_machine.specs.Names.{End, TellsApart, Who, same_end, same_who};
ghost use Rattle.campl_machine.specs.Machine.{Act, Config, Does, Lies, ends_born, performs};
ghost use Rattle.campl_machine.specs.Independence.{BearsNew, Paired};

/// The tests of names tell exactly the equal ones.
pub fn law_names()
    ensures ends { TellsApart same_end }
    ensures nodes { TellsApart same_who }
{}

/// The step that `performs` computes is the one that `Does` tells, and there is none where `Does` tells none.
pub fn law_step<S, M>()
    ensures computed { (c d : Config S M) (p : Who) (A : Act S M) → performs c p A ≡ Some d → Does c p A d }
    ensures told { (c d : Config S M) (p : Who) (A : Act S M) → Does c p A d → performs c p A ≡ Some d }
{}

/// Each step keeps it that every end's partner has it as its own partner, if the channels that it bears are new.
pub fn law_partners<S, M>()
    ensures { (c d : Config S M) (p : Who) (A : Act S M) → Paired c → BearsNew A → ((e : End) → Lies (ends_born A) e → c.partner e ≡ None) → performs c p A ≡ Some d → Paired d }
{}
