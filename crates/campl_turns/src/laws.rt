//! Laws over the definitions, functions with nothing to do, whose contracts they are.
ghost use Rattle.std.specs.Prelude.{ℕ, ◌≡◌, List, Some};
ghost use Rattle.campl_machine.specs.Names.{Service};
ghost use Rattle.campl_tree.specs.Plain.Decl.{Program};
ghost use Rattle.campl_types.specs.World.{World, world_of};
ghost use Rattle.campl_service.specs.Scripts.{Lines};
ghost use Rattle.campl_meaning.specs.Reductions.{Configuration};
ghost use Rattle.campl_meaning.specs.Ends.{Ending, IsEnd};
ghost use Rattle.campl_meaning.specs.Journals.{naming_at_start};
ghost use Rattle.campl_code.specs.Instructions.{Code};
ghost use Rattle.campl_code_bodies.specs.Bodies.{StandsFor};
ghost use Rattle.campl_code_bodies.specs.Kept.{Kept};
ghost use Rattle.campl_laws.specs.Reached.{IsMet};
ghost use Rattle.campl_cells.specs.Parts.{Parts, Proc};
ghost use Rattle.campl_cells.specs.Wants.{Drawn};
ghost use Rattle.campl_cells.specs.Steps.{Entry};
ghost use Rattle.campl_cells.specs.Stands.{IsFresh, Naming};
ghost use Rattle.campl_cells.specs.Starts.{start_naming, start_parts};
ghost use Rattle.campl_cells.specs.Runs.{Turn};
ghost use Rattle.campl_cells_laws.specs.Sources.{Represents};
ghost use Rattle.campl_turns.specs.Turns.{IsFirstTurn, IsLonely, Rests, told_naming};
ghost use Rattle.campl_turns.specs.Endings.{EndsAs, service_state};
ghost use Rattle.campl_turns.specs.Meaning.{Means};

/// A step by number of the first who has one, by its first branch that is ready, is the source's reduction of the run of one at
/// a time. Its event is what journals read from the entry, and what comes of both is represented again.
pub fn law_turn()
    ensures { (w : World) (code : Code) (n : Naming) (m : Parts) (c : Configuration) → StandsFor w code → Represents w code n m c
        → (t : Turn) (entry : Entry) (m2 : Parts) → IsFirstTurn code n.who m t entry m2 → Means w code n m c t entry m2 }
{}

/// In parts that represent a configuration that is met, no two processes or services wait on one end.
pub fn law_alone()
    ensures { (source : Program) (code : Code) (n : Naming) (m : Parts) (c : Configuration) → IsMet source c → StandsFor (world_of source) code
        → Represents (world_of source) code n m c → IsLonely code m }
{}

/// Journals read the numbers of the parts at the start as they read those of the source's start.
pub fn law_begins()
    ensures { (w : World) (code : Code) (g : ℕ) (kept : Kept) (scripts : List Lines) → told_naming start_naming (start_parts w code g kept scripts) ≡ naming_at_start w }
{}

/// A service of the source is what the part of its number tells.
pub fn law_services()
    ensures { (w : World) (code : Code) (n : Naming) (m : Parts) (c : Configuration) → Represents w code n m c
        → (i k : ℕ) → n.who i ≡ Service k → (q : Proc) → m.process i ≡ Some q → c.nodes (Service k) ≡ service_state n.end q.life }
{}

/// Parts that represent a configuration that is met, where no number has a next step, tell how the run ends: it is finished
/// where no process is left, broken where one keeps that it broke, and awaiting otherwise.
pub fn law_end()
    ensures { (source : Program) (code : Code) (n : Naming) (m : Parts) (c : Configuration) → IsMet source c → StandsFor (world_of source) code
        → Represents (world_of source) code n m c → (d : Drawn) → IsFresh d m → ((p : ℕ) → Rests code m p)
        → (steps budget : ℕ) (e : Ending) → EndsAs m e → IsEnd (world_of source) c steps budget e }
{}
