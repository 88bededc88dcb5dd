//! Laws over the definitions, functions with nothing to do, whose contracts they are.
ghost use Rattle.std.specs.Prelude.{◌≡◌, ◌⊎◌, ℕ, Bool, List, ◌∷◌, Option, Some};
ghost use Rattle.campl_machine.specs.Names.{End, Path, Who, Process};
ghost use Rattle.campl_machine.specs.Machine.{Looks};
ghost use Rattle.campl_tree.specs.Plain.Decl.{Program};
ghost use Rattle.campl_types.specs.World.{world_of};
ghost use Rattle.campl_meaning.specs.Ends.{Awaiting, Broken, Finished, IsBrokenAt, IsEnabled, IsEnd};
ghost use Rattle.campl_meaning.specs.Lawful.{Lawful};
ghost use Rattle.campl_meaning.specs.Reductions.{Configuration, Event, act_of, reduce};
ghost use Rattle.campl_meaning.specs.States.{Message, Running, Runs, State};
ghost use Rattle.campl_progress.specs.Deep.{SaysDeep, SaysWrong};

/// In a lawful configuration no evaluation says Wrong.
pub fn law_never_wrong()
    ensures { (source : Program) (c : Configuration) → Lawful source c → (p : Path) (r : Running) → c.nodes (Process p) ≡ Some (Runs r) → SaysWrong (world_of source) r → ⊥ }
{}

/// In a lawful configuration a process is broken exactly where its evaluation says Deep.
pub fn law_broken_is_deep()
    ensures where_deep { (source : Program) (c : Configuration) (p : Path) (r : Running) → c.nodes (Process p) ≡ Some (Runs r) → SaysDeep (world_of source) r → IsBrokenAt (world_of source) c p }
    ensures only_there { (source : Program) (c : Configuration) → Lawful source c → (p : Path) → IsBrokenAt (world_of source) c p
        → (r : Running) × (c.nodes (Process p) ≡ Some (Runs r)) × SaysDeep (world_of source) r }
{}

/// In a lawful configuration a receipt, a branch of a race or a service that finds a first owed message takes it.
pub fn law_takes_first()
    ensures { (source : Program) (c : Configuration) → Lawful source c → (who : Who) (s : State) (i : ℕ) (takes : Bool) (x z : End) (f : Message → Option State) (m : Message) (ms : List Message)
        → c.nodes who ≡ Some s → act_of (world_of source) who s i ≡ Looks takes x f → c.partner x ≡ Some z → c.owed z ≡ m ∷ ms
        → (next : Event × Configuration) × (reduce (world_of source) c who i ≡ Some next) }
{}

/// A lawful configuration with nothing enabled is finished, broken or awaiting.
pub fn law_progress()
    ensures { (source : Program) (c : Configuration) → Lawful source c → (IsEnabled (world_of source) c → ⊥) → (steps budget : ℕ)
        → IsEnd (world_of source) c steps budget Finished ⊎ (IsEnd (world_of source) c steps budget Broken ⊎ IsEnd (world_of source) c steps budget Awaiting) }
{}
