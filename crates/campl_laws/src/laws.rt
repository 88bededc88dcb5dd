//! Laws over the definitions, functions with nothing to do, whose contracts they are.
ghost use Rattle.std.specs.Prelude.{◌≡◌, ◌≢◌, ◌⊎◌, ◌↔◌, ◌+◌, ◌≤◌, ℕ, Bool, List, ◌∷◌, Option, Some};
ghost use Rattle.campl_machine.specs.Graph.{NoCycle};
ghost use Rattle.campl_machine.specs.Machine.{Looks};
ghost use Rattle.campl_machine.specs.Names.{End, Path, Process, Who};
ghost use Rattle.campl_machine.specs.Runs.{AllEndAt, IsPrefixOf, OneIsPrefix, Run, Stuck};
ghost use Rattle.campl_service.specs.Scripts.{Lines};
ghost use Rattle.campl_tree.specs.Plain.Decl.{Program};
ghost use Rattle.campl_tree.specs.Plain.Expr.{Expr};
ghost use Rattle.campl_tree.specs.Plain.SeqType.{SeqType};
ghost use Rattle.campl_seqcheck.specs.Functions.{judge_functions};
ghost use Rattle.campl_seqcheck.specs.Judged.{fine, Is};
ghost use Rattle.campl_types.specs.Fits.{Vars};
ghost use Rattle.campl_types.specs.WellDeclared.{IsWellDeclared};
ghost use Rattle.campl_linear.specs.Processes.{judge_processes};
ghost use Rattle.campl_meaning.specs.Journals.{Entry, IsRunFromStart, steps_of};
ghost use Rattle.campl_types.specs.Matching.{Bindings};
ghost use Rattle.campl_types.specs.Sequential.{HasType, Way};
ghost use Rattle.campl_types.specs.Substitution.{Filling, filled};
ghost use Rattle.campl_types.specs.World.{World, world_of};
ghost use Rattle.campl_laws.specs.Reached.{IsAnswer, IsMet, IsRaceless, IsReached};
ghost use Rattle.campl_meaning.specs.Apart.{IsPlaced, Place, graph};
ghost use Rattle.campl_meaning.specs.Ends.{Awaiting, Broken, Ending, Finished, IsBrokenAt, IsEnabled, IsEnd, OutOfSteps, transcript_of};
ghost use Rattle.campl_meaning.specs.Kept.{Goes};
ghost use Rattle.campl_meaning.specs.Lawful.{IsAccepted, Lawful};
ghost use Rattle.campl_meaning.specs.OneAtATime.{RunsFromStart};
ghost use Rattle.campl_meaning.specs.Output.{output_of};
ghost use Rattle.campl_meaning.specs.Reductions.{Configuration, Event, act_of, reduce};
ghost use Rattle.campl_meaning.specs.Start.{start};
ghost use Rattle.campl_meaning.specs.States.{Message, Running, Runs, State};
ghost use Rattle.campl_progress.specs.Deep.{SaysDeep, SaysWrong};
ghost use Rattle.campl_evaluation.specs.Evaluation.{value_of};
ghost use Rattle.campl_evaluation.specs.Typed.{AreBound, Fine};
ghost use Rattle.campl_types.specs.Values.{IsValue};

/// A source is accepted exactly where its names, functions and processes are judged to have no fault.
pub fn law_accepted()
    ensures { (source : Program)
        → (IsWellDeclared source × (judge_functions (world_of source) source ≡ Is fine) × (judge_processes (world_of source) source ≡ Is fine)) ↔ IsAccepted source }
{}

/// The start of an accepted source with any scripts is lawful, and each reduction, of any process or service and at any
/// command, leads from a lawful configuration to a lawful one. So each configuration that is met is lawful.
pub fn law_typing()
    ensures begins { (source : Program) (scripts : List Lines) → IsAccepted source → Lawful source (start (world_of source) scripts) }
    ensures kept { (source : Program) (c d : Configuration) (who : Who) → Lawful source c → Goes (world_of source) c who d → Lawful source d }
    ensures lawful { (source : Program) (c : Configuration) → IsMet source c → Lawful source c }
{}

/// In a configuration that is met each end stands at one place, and the graph of processes, services and pairs of ends under
/// way, over the channels between them, has no cycle.
pub fn law_forest()
    ensures placed { (source : Program) (c : Configuration) → IsMet source c → (place : End → Place) × IsPlaced c place }
    ensures no_cycle { (source : Program) (c : Configuration) → IsMet source c → (place : End → Place) → IsPlaced c place → NoCycle (graph c place) }
{}

/// A configuration that is met, with nothing enabled, is finished, broken or awaiting.
pub fn law_progress()
    ensures { (source : Program) (c : Configuration) → IsMet source c → (IsEnabled (world_of source) c → ⊥) → (steps budget : ℕ)
        → IsEnd (world_of source) c steps budget Finished ⊎ (IsEnd (world_of source) c steps budget Broken ⊎ IsEnd (world_of source) c steps budget Awaiting) }
{}

/// In a configuration that is met no evaluation says Wrong.
pub fn law_never_wrong()
    ensures { (source : Program) (c : Configuration) → IsMet source c
        → (p : Path) (r : Running) → c.nodes (Process p) ≡ Some (Runs r) → SaysWrong (world_of source) r → ⊥ }
{}

/// There a process is broken exactly where its evaluation says Deep: its value is too deep.
pub fn law_broken_is_deep()
    ensures where_deep { (source : Program) (c : Configuration) (p : Path) (r : Running) → c.nodes (Process p) ≡ Some (Runs r) → SaysDeep (world_of source) r
        → IsBrokenAt (world_of source) c p }
    ensures only_there { (source : Program) (c : Configuration) → IsMet source c → (p : Path) → IsBrokenAt (world_of source) c p
        → (r : Running) × (c.nodes (Process p) ≡ Some (Runs r)) × SaysDeep (world_of source) r }
{}

/// There a receipt, a branch of a race or a service that finds a first owed message takes it.
pub fn law_takes_first()
    ensures { (source : Program) (c : Configuration) → IsMet source c
        → (who : Who) (s : State) (i : ℕ) (takes : Bool) (x z : End) (f : Message → Option State) (m : Message) (ms : List Message)
        → c.nodes who ≡ Some s → act_of (world_of source) who s i ≡ Looks takes x f → c.partner x ≡ Some z → c.owed z ≡ m ∷ ms
        → (next : Event × Configuration) × (reduce (world_of source) c who i ≡ Some next) }
{}

/// In a configuration that is met the steps of two processes or services commute, whatever branches their races take; and in a
/// source without race each process or service has one step.
pub fn law_diamond()
    ensures both_orders { (source : Program) (c : Configuration) → IsMet source c → (p q : Who) (a d : Configuration) → p ≢ q
        → Goes (world_of source) c p a → Goes (world_of source) c q d → (e : Configuration) × Goes (world_of source) a q e × Goes (world_of source) d p e }
    ensures one_step { (source : Program) (scripts : List Lines) (c : Configuration) → IsRaceless source → IsReached source scripts c
        → (who : Who) (a d : Configuration) → Goes (world_of source) c who a → Goes (world_of source) c who d → a ≡ d }
{}

/// Of a source without race: where one run from the start can't go on, no run is longer, and each that can't go on ends there,
/// with as many steps. The run of one at a time that ends before it is out of steps is such a run.
pub fn law_one_at_a_time()
    ensures all_end { (source : Program) (scripts : List Lines) → IsRaceless source → (c : Configuration) (n : ℕ)
        → Run (Goes (world_of source)) n (start (world_of source) scripts) c → Stuck (Goes (world_of source)) c
        → AllEndAt (Goes (world_of source)) (start (world_of source) scripts) c n }
    ensures such_a_run { (source : Program) (scripts : List Lines) (budget n : ℕ) (e : Ending) (c : Configuration)
        → RunsFromStart (world_of source) scripts budget e n c → e ≢ OutOfSteps → IsAnswer source scripts n e c }
{}

/// Of a source without race: two runs that end, each in any order, make as many steps, end in the same way and in one configuration,
/// and print the same; each other run goes on to that end; and two runs that end by one budget make as many steps and end in the
/// same way, out of steps too.
pub fn law_one_answer()
    ensures one_end { (source : Program) (scripts : List Lines) → IsRaceless source → (n m : ℕ) (e f : Ending) (c d : Configuration)
        → IsAnswer source scripts n e c → IsAnswer source scripts m f d → (n ≡ m) × (e ≡ f) × (c ≡ d) }
    ensures one_output { (source : Program) (scripts : List Lines) → IsRaceless source → (n m : ℕ) (e f : Ending) (c d : Configuration)
        → IsAnswer source scripts n e c → IsAnswer source scripts m f d → output_of (world_of source) c e n ≡ output_of (world_of source) d f m }
    ensures goes_on { (source : Program) (scripts : List Lines) → IsRaceless source → (n m : ℕ) (e : Ending) (c d : Configuration)
        → IsAnswer source scripts n e c → Run (Goes (world_of source)) m (start (world_of source) scripts) d
        → (k : ℕ) × (n ≡ m + k) × Run (Goes (world_of source)) k d c }
    ensures same_budget { (source : Program) (scripts : List Lines) → IsRaceless source → (budget n m : ℕ) (e f : Ending) (c d : Configuration)
        → Run (Goes (world_of source)) n (start (world_of source) scripts) c → n ≤ budget → IsEnd (world_of source) c n budget e
        → Run (Goes (world_of source)) m (start (world_of source) scripts) d → m ≤ budget → IsEnd (world_of source) d m budget f
        → (n ≡ m) × (e ≡ f) × (e ≢ OutOfSteps → c ≡ d) }
{}

/// Of a source without race, what a service has written down in any run is a prefix of what it has at the answer; and of two runs,
/// one is a prefix of the other, whether they end or not.
pub fn law_prefix()
    ensures of_answer { (source : Program) (scripts : List Lines) → IsRaceless source → (k n : ℕ) (e : Ending) (c d : Configuration)
        → IsAnswer source scripts n e c → IsReached source scripts d → IsPrefixOf (transcript_of k d) (transcript_of k c) }
    ensures of_two { (source : Program) (scripts : List Lines) → IsRaceless source → (k : ℕ) (c d : Configuration)
        → IsReached source scripts c → IsReached source scripts d → OneIsPrefix (transcript_of k c) (transcript_of k d) }
{}

/// An accepted source has one run of one at a time for each budget, with races too: there is one, and two are the same.
pub fn law_one_run()
    ensures some { (source : Program) (scripts : List Lines) → IsAccepted source → (budget : ℕ)
        → (e : Ending) × (n : ℕ) × (c : Configuration) × RunsFromStart (world_of source) scripts budget e n c }
    ensures one { (w : World) (scripts : List Lines) (budget n m : ℕ) (e f : Ending) (c d : Configuration)
        → RunsFromStart w scripts budget e n c → RunsFromStart w scripts budget f m d → (n ≡ m) × (e ≡ f) × (c ≡ d) }
{}

/// What a journal tells from the start is a run of as many steps as its entries stand for.
pub fn law_journals()
    ensures { (w : World) (scripts : List Lines) (entries : List Entry) (c : Configuration) → IsRunFromStart w scripts entries c
        → Run (Goes w) (steps_of entries) (start w scripts) c }
{}

/// In an accepted source, at each filling of type variables: where an expression has a type under variables that stand for values of
/// their filled types, its evaluation is never wrong, and its value is of the filled type.
pub fn law_soundness()
    ensures { (source : Program) → IsAccepted source → (way : Way) (f : Filling) (vs : Vars) (a : Expr) (t : SeqType) (variables : Bindings) (n : ℕ)
        → AreBound (world_of source) f variables vs → HasType way (world_of source) vs a t
        → Fine (λ v. IsValue (world_of source) v (filled f t)) (value_of (world_of source) a variables n) }
{}
