//! Laws over the definitions, functions with nothing to do, whose contracts they are.
ghost use Rattle.std.specs.Prelude.{◌≡◌, List, Option, Some};
ghost use Rattle.campl_machine.specs.Names.{Path, Process};
ghost use Rattle.campl_service.specs.Scripts.{Lines};
ghost use Rattle.campl_tree.specs.Plain.Decl.{Program};
ghost use Rattle.campl_tree.specs.Plain.Process.{Body};
ghost use Rattle.campl_types.specs.World.{world_of};
ghost use Rattle.campl_kept_quiet.specs.Others.{IsQuietBody, OthersKeep};
ghost use Rattle.campl_kept_quiet.specs.Quiet.{IsQuiet, behind};
ghost use Rattle.campl_meaning.specs.Kept.{Goes, IsKept};
ghost use Rattle.campl_meaning.specs.Lawful.{IsAccepted, Lawful};
ghost use Rattle.campl_meaning.specs.Reductions.{Configuration, Event, Reduces};
ghost use Rattle.campl_meaning.specs.Start.{start};
ghost use Rattle.campl_meaning.specs.States.{Running, Runs, Work};
ghost use Rattle.campl_peel.specs.Terms.{Doing};

/// A step of a process that changes only its own state keeps a configuration lawful.
pub fn law_frame()
    ensures { (source : Program) (c : Configuration) (l : Lawful source c) (p : Path) (r : Running) (next : Option Running)
        → c.nodes (Process p) ≡ Some (Runs r) → IsQuiet source l.channel l.place p r next → Lawful source (behind c p next) }
{}

/// So does each reduction that is Work, whatever the command, and each at `case`, a call, a race, `close` and `halt`.
pub fn law_quiet()
    ensures work { (source : Program) (c d : Configuration) (p : Path) (x : Event) → Lawful source c → Reduces (world_of source) c (Process p) x d
        → x.kind ≡ Work → Lawful source d }
    ensures commands { (source : Program) (c d : Configuration) (p : Path) (r : Running) (body : Body) → Lawful source c
        → c.nodes (Process p) ≡ Some (Runs r) → r.term ≡ Doing body → IsQuietBody body → Goes (world_of source) c (Process p) d → Lawful source d }
{}

/// The start of an accepted source with any scripts is lawful.
pub fn law_begins()
    ensures { (source : Program) (scripts : List Lines) → IsAccepted source → Lawful source (start (world_of source) scripts) }
{}

/// Lawfulness is kept, if the steps that change channels keep it.
pub fn law_kept()
    ensures { OthersKeep → (source : Program) → IsKept source }
{}
