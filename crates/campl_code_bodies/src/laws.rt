//! Laws over the definitions, functions with nothing to do, whose contracts they are.
ghost use Rattle.std.specs.Prelude.{ℕ, ◌≡◌, List, [], Some, slice_get, codes};
ghost use Rattle.campl_tree.specs.Plain.Decl.{ProcessDecl, Program};
ghost use Rattle.campl_types.specs.Typed.{IsTyped};
ghost use Rattle.campl_machine.specs.Names.{Path, Who};
ghost use Rattle.campl_types.specs.World.{World, process_named, world_of};
ghost use Rattle.campl_service.specs.Scripts.{Lines};
ghost use Rattle.campl_meaning.specs.States.{Running};
ghost use Rattle.campl_meaning.specs.Wants.{term_command};
ghost use Rattle.campl_meaning.specs.Reductions.{Configuration, Event, reduce};
ghost use Rattle.campl_meaning.specs.Start.{start};
ghost use Rattle.campl_types.specs.Forms.{Form};
ghost use Rattle.campl_code.specs.Decisions.{Decision, StandsForRows, ChooseAlike, AllChooseAlike};
ghost use Rattle.campl_code.specs.Forward.{IsForward};
ghost use Rattle.campl_code.specs.Instructions.{Block, Code};
ghost use Rattle.campl_code.specs.Frames.{Frame};
ghost use Rattle.campl_code.specs.Runs.{IsOver, run};
ghost use Rattle.campl_code_bodies.specs.Kept.{Kept, AtCall, IsKept, kept_command, kept_of, spent_more};
ghost use Rattle.campl_code_bodies.specs.Bodies.{StandsFor, StandsForProcess, processes_of};
ghost use Rattle.campl_code_bodies.specs.BodyNeeds.{ProcessesNeed};
ghost use Rattle.campl_code_bodies.specs.SourceCode.{code_within};
ghost use Rattle.campl_code_bodies.specs.Commands.{Cell, wanted, run_of};
ghost use Rattle.campl_code_bodies.specs.Alike.{CellStands, CommandsAlike};
ghost use Rattle.campl_code_bodies.specs.Runs.{Steps, SourceGoes, CodeGoes};
ghost use Rattle.campl_code_bodies.specs.Running.{CodeConfiguration, IsEnough, ReduceAlike, Stand, code_start, reduce_code};

/// A cell that stands for a process wants what the process wants: the same kind, ends and messages, and behind it cells
/// that stand for the processes.
pub fn law_command()
    ensures { (w : World) (code : Code) → StandsFor w code → (p : Path) (branch : ℕ) (c : Cell) (r : Running) → CellStands w code c r
        → (n : ℕ) × (IsOver (run_of code n c) × CommandsAlike w code (wanted code c p branch (run_of code n c)) (term_command w p r branch r.term)) }
{}

/// From configurations that stand for one another, the code has a reduction of a process or service exactly where the
/// source has one; it is the same event, and what comes of it stand for one another.
pub fn law_reductions()
    ensures { (w : World) (code : Code) → StandsFor w code → (c : CodeConfiguration) (d : Configuration) → Stand w code c d → (who : Who) (i : ℕ)
        → (n : ℕ) × (IsEnough code n (c.nodes who) × ReduceAlike w code (reduce_code code n c who i) (reduce w d who i)) }
{}

/// From configurations that stand for one another the code makes the source's runs, with the same events, and no others.
pub fn law_runs()
    ensures code { (w : World) (code : Code) → StandsFor w code → (steps : Steps) (c : CodeConfiguration) (d : Configuration) (events : List Event) (e : Configuration) → Stand w code c d
        → SourceGoes w d steps events e → (f : CodeConfiguration) × CodeGoes code c steps events f × Stand w code f e }
    ensures source { (w : World) (code : Code) → StandsFor w code → (steps : Steps) (c : CodeConfiguration) (d : Configuration) (events : List Event) (f : CodeConfiguration) → Stand w code c d
        → CodeGoes code c steps events f → (e : Configuration) × SourceGoes w d steps events e × Stand w code f e }
{}

/// The start of the code stands for the start of the source.
pub fn law_start()
    ensures { (w : World) (code : Code) (d : ProcessDecl) (g : ℕ) (b : Block) (scripts : List Lines) → process_named w (codes "run") ≡ Some d → d.row.variables ≡ []
        → slice_get code.processes g ≡ Some b → StandsForProcess w code d b → Stand w code (code_start w code g b scripts) (start w scripts) }
{}

/// The code that is generated for a typed source stands for it, where its processes' bodies have what they need; and any
/// generated code jumps onward alone.
pub fn law_bodies_code()
    ensures ahead { (w : World) (n : ℕ) → IsForward (code_within w n) }
    ensures stands { (source : Program) → IsTyped source → (n : ℕ) → ProcessesNeed (world_of source) n (processes_of (world_of source))
        → StandsFor (world_of source) (code_within (world_of source) n) }
{}

/// What a cell keeps of its evaluation, its values, its break or its next call, tells what the process wants; and from a
/// call it goes on with more calls as if all had been given at once.
pub fn law_kept()
    ensures wants { (w : World) (code : Code) → StandsFor w code → (p : Path) (branch : ℕ) (c : Cell) (r : Running) (kept : Kept) → CellStands w code c r → IsKept code c kept
        → CommandsAlike w code (kept_command code c p branch kept) (term_command w p r branch r.term) }
    ensures goes { (code : Code) (c : Cell) (f : Frame) (fs : List Frame) (j m : ℕ) → IsKept code c (AtCall f fs) → IsOver (run code j f fs m)
        → IsKept code (spent_more m c) (kept_of (run code j f fs m)) }
{}

/// Code that stands for a source still does where its decisions are replaced by others that choose alike; and two that
/// stand for the same rows choose alike.
pub fn law_other_decisions()
    ensures stands { (w : World) (code : Code) (ds : List Decision) → StandsFor w code → AllChooseAlike code.decisions ds → StandsFor w (record code { decisions = ds }) }
    ensures alike { (w : World) (c d : Decision) (rows : List (List Form)) (n : ℕ) → StandsForRows w c rows n → StandsForRows w d rows n → ChooseAlike c d }
{}
