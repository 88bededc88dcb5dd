//! Laws over the definitions, functions with nothing to do, whose contracts they are.
ghost use Rattle.std.specs.Prelude.{◌≡◌, ◌≢◌, ℕ, List, Some};
ghost use Rattle.campl_machine.specs.Independence.{Paired};
ghost use Rattle.campl_machine.specs.Machine.{Does};
ghost use Rattle.campl_machine.specs.Names.{End, Who};
ghost use Rattle.campl_machine.specs.Programs.{KeepsApart};
ghost use Rattle.campl_machine.specs.Runs.{AllEndAt, OneIsPrefix, Reaches, Run, Stuck};
ghost use Rattle.campl_service.specs.Scripts.{Lines};
ghost use Rattle.campl_tree.specs.Plain.Decl.{Program};
ghost use Rattle.campl_types.specs.World.{World, world_of};
ghost use Rattle.campl_meaning.specs.Apart.{IsApart, IsNamed, Place};
ghost use Rattle.campl_meaning.specs.Ends.{Ending, OutOfSteps, transcript_of};
ghost use Rattle.campl_meaning.specs.Kept.{Goes, IsKept};
ghost use Rattle.campl_meaning.specs.Lawful.{IsAccepted, Lawful};
ghost use Rattle.campl_meaning.specs.OneAtATime.{RunsFromStart};
ghost use Rattle.campl_meaning.specs.Races.{WorldHasNoRace};
ghost use Rattle.campl_meaning.specs.Reductions.{Configuration, act_of};
ghost use Rattle.campl_meaning.specs.Start.{start};
ghost use Rattle.campl_meaning.specs.States.{State};

/// Where things stand apart (parts 1, 6 and 7 of lawfulness), the steps of two nodes have nothing in common, whatever the world.
pub fn law_apart()
    ensures { (w : World) (c : Configuration) (place : End → Place) → IsApart c place → KeepsApart (act_of w) c }
{}

/// In a lawful configuration, where two different nodes have a reduction each, each stays possible after the other, and both orders give
/// equal configurations, whatever branches their races take.
pub fn law_diamond()
    ensures { (source : Program) (c : Configuration) → Lawful source c → (p q : Who) (a d : Configuration) → p ≢ q
        → Goes (world_of source) c p a → Goes (world_of source) c q d → (e : Configuration) × Goes (world_of source) a q e × Goes (world_of source) d p e }
{}

/// Of a source without race, if lawfulness is kept: where one run from the start can't go on, no run is longer, and each that can't go on ends there.
pub fn law_one_answer()
    ensures any_order { (source : Program) → WorldHasNoRace (world_of source) → IsKept source → IsAccepted source → (scripts : List Lines) (s : Configuration) (n : ℕ)
        → Run (Goes (world_of source)) n (start (world_of source) scripts) s → Stuck (Goes (world_of source)) s
        → AllEndAt (Goes (world_of source)) (start (world_of source) scripts) s n }
    ensures one_at_a_time { (source : Program) → WorldHasNoRace (world_of source) → IsKept source → IsAccepted source → (scripts : List Lines)
        (budget : ℕ) (ending : Ending) (n : ℕ) (s : Configuration) → RunsFromStart (world_of source) scripts budget ending n s → ending ≢ OutOfSteps
        → AllEndAt (Goes (world_of source)) (start (world_of source) scripts) s n }
{}

/// And of what a service has written down in two runs from the start, one is a prefix of the other.
pub fn law_prefix()
    ensures { (source : Program) → WorldHasNoRace (world_of source) → IsKept source → IsAccepted source → (scripts : List Lines) (k : ℕ) (a d : Configuration)
        → Reaches (Goes (world_of source)) (start (world_of source) scripts) a → Reaches (Goes (world_of source)) (start (world_of source) scripts) d
        → OneIsPrefix (transcript_of k a) (transcript_of k d) }
{}

/// Names to be born stay new, whatever is typed.
pub fn law_names()
    ensures { (w : World) (c d : Configuration) (who : Who) (s : State) (i : ℕ) → IsNamed c → Paired c → c.nodes who ≡ Some s → Does c who (act_of w who s i) d → IsNamed d }
{}
