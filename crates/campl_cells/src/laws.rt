//! Laws over the definitions, functions with nothing to do, whose contracts they are.
ghost use Rattle.std.specs.Prelude.{ℕ, ◌+◌, ◌≡◌, List, [], None, Some, Option, length};
ghost use Rattle.campl_machine.specs.Names.{Who};
ghost use Rattle.campl_types.specs.World.{World};
ghost use Rattle.campl_service.specs.Scripts.{Lines};
ghost use Rattle.campl_code.specs.Instructions.{Block, Code};
ghost use Rattle.campl_code.specs.Frames.{frame_of};
ghost use Rattle.campl_code_bodies.specs.Kept.{Kept};
ghost use Rattle.campl_code_bodies.specs.Running.{CodeConfiguration, IsEnough, code_start, reduce_code};
ghost use Rattle.campl_code_bodies.specs.Runs.{CodeGoes};
ghost use Rattle.campl_cells.specs.Parts.{Life, Parts, Proc};
ghost use Rattle.campl_cells.specs.Wants.{Drawn, wanted};
ghost use Rattle.campl_cells.specs.Steps.{Change, Entry, IsStill, KeptAt, Steps, after, change_of};
ghost use Rattle.campl_cells.specs.Stands.{Grows, IsEntryOf, IsFresh, Naming, StandsFor, StepsAlike};
ghost use Rattle.campl_cells.specs.Runs.{PartsGo, Turn, named_entries, named_turns};
ghost use Rattle.campl_cells.specs.Starts.{start_naming, start_parts};
ghost use Rattle.campl_cells.specs.Local.{ElseStays, SameInHand, Watches};

/// Where parts stand for a configuration, the instructions for each process's expressions are enough from some number on; and
/// with enough of them a process or service, by its number, has a next step exactly where the machine has a reduction of its
/// name, as the same branch of a race. The event is the entry under the machine's names, what is born has the drawn numbers,
/// and all parts to which the step leads stand for the configuration behind the reduction, while the names in use stay. Each
/// number of the entry is in use there.
pub fn law_step()
    ensures enough { (code : Code) (n : Naming) (m : Parts) (c : CodeConfiguration) → StandsFor code n m c → (p : ℕ) (q : Proc) → m.process p ≡ Some q
        → (k : ℕ) × IsEnough code k (c.nodes (n.who p)) }
    ensures step { (code : Code) (n : Naming) (m : Parts) (c : CodeConfiguration) → StandsFor code n m c → (d : Drawn) → IsFresh d m
        → (p : ℕ) (q : Proc) → m.process p ≡ Some q → (i k : ℕ) → IsEnough code k (c.nodes (n.who p))
        → StepsAlike code n d m p q (reduce_code code k c (n.who p) i) (change_of code d m p q i) }
    ensures entry { (code : Code) (n : Naming) (m : Parts) (c : CodeConfiguration) → StandsFor code n m c → (d : Drawn) → IsFresh d m
        → (p i : ℕ) (entry : Entry) (m2 : Parts) → Steps code d m p i entry m2 → IsEntryOf m2 entry }
{}

/// A run by number is a run of the code: the entries are its events under the naming at the end, in which the names of all
/// numbers that were in use stay.
pub fn law_runs()
    ensures { (code : Code) (n : Naming) (m : Parts) (c : CodeConfiguration) → StandsFor code n m c → (turns : List Turn) (entries : List Entry) (m2 : Parts)
        → PartsGo code m turns entries m2
        → (n2 : Naming) × Grows n n2 m × (e : CodeConfiguration) × CodeGoes code c (named_turns n2 turns) (named_entries n2 entries) e × StandsFor code n2 m2 e }
{}

/// Where no number has a next step, by any branch, nobody in the configuration has a reduction.
pub fn law_still()
    ensures { (code : Code) (n : Naming) (m : Parts) (c : CodeConfiguration) → StandsFor code n m c → (d : Drawn) → IsFresh d m
        → ((p i : ℕ) → IsStill code d m p i)
        → (who : Who) (i k : ℕ) → IsEnough code k (c.nodes who) → reduce_code code k c who i ≡ None }
{}

/// A step reads its process and the ends in hand, at most four: where these are the same, it changes the same.
pub fn law_local()
    ensures { (code : Code) (d : Drawn) (m m2 : Parts) (p : ℕ) (q : Proc) (i : ℕ) → SameInHand code d m m2 p q i → change_of code d m2 p q i ≡ change_of code d m p q i }
{}

/// Who has no next step waits: it has none either as long as the ends on which it waits, at most two, stay as they are.
pub fn law_waits()
    ensures { (code : Code) (d : Drawn) (m m2 : Parts) (p : ℕ) (q : Proc) (i : ℕ) → ((k : ℕ) → Watches (wanted code d q.life i) k → m2.tip k ≡ m.tip k)
        → change_of code d m p q i ≡ None → change_of code d m2 p q i ≡ None }
{}

/// A step leaves all parts but its process, the ends in hand and what is born.
pub fn law_frame()
    ensures { (code : Code) (d : Drawn) (m : Parts) (p : ℕ) (q : Proc) (i : ℕ) (change : Change) (life : Life) (child : Option Life)
        → change_of code d m p q i ≡ Some change → ElseStays code d m p q i (after d m p q change life child) }
{}

/// The parts at the start stand for the code's start, with what `run` keeps at the head of its block.
pub fn law_start()
    ensures { (w : World) (code : Code) (g : ℕ) (b : Block) (kept : Kept) (scripts : List Lines) → KeptAt code (length code.functions + g) 0 (frame_of code.decisions b []) kept
        → StandsFor code start_naming (start_parts w code g kept scripts) (code_start w code g b scripts) }
{}
