//! Laws over the definitions, functions with nothing to do, whose contracts they are.
ghost use Rattle.std.specs.Prelude.{◌≡◌, ℕ, Some};
ghost use Rattle.campl_machine.specs.Names.{Path, Process, Service};
ghost use Rattle.campl_tree.specs.Plain.Decl.{Program};
ghost use Rattle.campl_tree.specs.Plain.Process.{Body};
ghost use Rattle.campl_types.specs.World.{world_of};
ghost use Rattle.campl_peel.specs.Terms.{Doing};
ghost use Rattle.campl_meaning.specs.Kept.{Goes};
ghost use Rattle.campl_meaning.specs.Lawful.{Lawful};
ghost use Rattle.campl_meaning.specs.Reductions.{Configuration};
ghost use Rattle.campl_meaning.specs.States.{Running, Runs};
ghost use Rattle.campl_kept_messages.specs.Passing.{PassesLetter};

/// Each step of a service leads from a lawful configuration to a lawful one.
pub fn law_services_keep()
    ensures { (source : Program) (c d : Configuration) (n : ℕ) → Lawful source c → Goes (world_of source) c (Service n) d → Lawful source d }
{}

/// So does each step of a process at a command that sends or takes a message without ends.
pub fn law_letters_keep()
    ensures { (source : Program) (c d : Configuration) (p : Path) (r : Running) (body : Body) → Lawful source c → c.nodes (Process p) ≡ Some (Runs r)
        → r.term ≡ Doing body → PassesLetter body → Goes (world_of source) c (Process p) d → Lawful source d }
{}
