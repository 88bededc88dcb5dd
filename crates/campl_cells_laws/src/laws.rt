//! Laws over the definitions, functions with nothing to do, whose contracts they are.
ghost use Rattle.std.specs.Prelude.{ℕ, ◌≡◌, List, None, Some};
ghost use Rattle.campl_machine.specs.Names.{Who};
ghost use Rattle.campl_tree.specs.Plain.Decl.{Program};
ghost use Rattle.campl_types.specs.World.{World, world_of};
ghost use Rattle.campl_service.specs.Scripts.{Lines};
ghost use Rattle.campl_meaning.specs.Lawful.{IsAccepted};
ghost use Rattle.campl_meaning.specs.Reductions.{Configuration, reduce};
ghost use Rattle.campl_meaning.specs.Start.{start};
ghost use Rattle.campl_code.specs.Instructions.{Code};
ghost use Rattle.campl_code_bodies.specs.Bodies.{StandsFor};
ghost use Rattle.campl_code_bodies.specs.Runs.{SourceGoes};
ghost use Rattle.campl_cells.specs.Parts.{Parts, Proc};
ghost use Rattle.campl_cells.specs.Wants.{Drawn};
ghost use Rattle.campl_cells.specs.Steps.{Entry, IsStill, change_of};
ghost use Rattle.campl_cells.specs.Stands.{Grows, IsFresh, Naming};
ghost use Rattle.campl_cells.specs.Starts.{start_naming};
ghost use Rattle.campl_cells.specs.Runs.{PartsGo, Turn, named_entries, named_turns};
ghost use Rattle.campl_cells_laws.specs.Sources.{IsStartOf, ReducesAs, Represents};

/// With code that stands for it an accepted source has parts at its start, with any scripts, and all such parts represent the
/// source's start.
pub fn law_parts_begin()
    ensures there { (source : Program) (code : Code) (scripts : List Lines) → IsAccepted source → StandsFor (world_of source) code
        → (m : Parts) × IsStartOf (world_of source) code scripts m }
    ensures stands { (source : Program) (code : Code) (scripts : List Lines) (m : Parts) → IsAccepted source → StandsFor (world_of source) code
        → IsStartOf (world_of source) code scripts m → Represents (world_of source) code start_naming m (start (world_of source) scripts) }
{}

/// A process or service of represented parts has a next step, by its number and as this branch of a race, exactly where the
/// source has a reduction of its name; the event is the entry under the machine's names, and what comes of both is represented
/// again.
pub fn law_parts_step()
    ensures { (w : World) (code : Code) (n : Naming) (m : Parts) (c : Configuration) → StandsFor w code → Represents w code n m c → (d : Drawn) → IsFresh d m
        → (p : ℕ) (q : Proc) → m.process p ≡ Some q → (i : ℕ) → ReducesAs w code n d m p q (reduce w c (n.who p) i) (change_of code d m p q i) }
{}

/// A run by number is a run of the source, whose events are the entries under the naming at the end.
pub fn law_parts_run()
    ensures { (w : World) (code : Code) (n : Naming) (m : Parts) (c : Configuration) → StandsFor w code → Represents w code n m c
        → (turns : List Turn) (entries : List Entry) (m2 : Parts) → PartsGo code m turns entries m2
        → (n2 : Naming) × Grows n n2 m × (e : Configuration) × SourceGoes w c (named_turns n2 turns) (named_entries n2 entries) e × Represents w code n2 m2 e }
{}

/// Where no number has a next step, by any branch, the source has no reduction left.
pub fn law_parts_rest()
    ensures { (w : World) (code : Code) (n : Naming) (m : Parts) (c : Configuration) → StandsFor w code → Represents w code n m c → (d : Drawn) → IsFresh d m
        → ((p i : ℕ) → IsStill code d m p i) → (who : Who) (i : ℕ) → reduce w c who i ≡ None }
{}
