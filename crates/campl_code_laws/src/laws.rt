//! Laws over the definitions, functions with nothing to do, whose contracts they are.
ghost use Rattle.std.specs.Prelude.{ℕ, ◌≡◌, List, Some};
ghost use Rattle.campl_tree.specs.Plain.Decl.{Program};
ghost use Rattle.campl_types.specs.World.{world_of};
ghost use Rattle.campl_service.specs.Scripts.{Lines};
ghost use Rattle.campl_meaning.specs.Lawful.{IsAccepted};
ghost use Rattle.campl_meaning.specs.Reductions.{Configuration, Event};
ghost use Rattle.campl_meaning.specs.Start.{start};
ghost use Rattle.campl_code.specs.Instructions.{Code};
ghost use Rattle.campl_code.specs.Forward.{IsForward};
ghost use Rattle.campl_code_bodies.specs.Bodies.{StandsFor};
ghost use Rattle.campl_code_bodies.specs.Running.{CodeConfiguration, Stand, code_begins};
ghost use Rattle.campl_code_bodies.specs.Runs.{Steps, SourceGoes, CodeGoes};
ghost use Rattle.campl_code_bodies.specs.SourceCode.{source_code, IsCodeOf};

/// The code that is generated for an accepted source stands for it, and so does code with other decisions that choose alike.
/// Each jump in it leads onward, whatever the source is.
pub fn law_source_code()
    ensures itself { (source : Program) → IsCodeOf source (source_code source) }
    ensures stands { (source : Program) (code : Code) → IsAccepted source → IsCodeOf source code → StandsFor (world_of source) code }
    ensures onward { (source : Program) (code : Code) → IsCodeOf source code → IsForward code }
{}

/// Code that stands for an accepted source has a start with any scripts, which stands for that of the source.
pub fn law_code_begins()
    ensures { (source : Program) (code : Code) (scripts : List Lines) → IsAccepted source → StandsFor (world_of source) code
        → (c : CodeConfiguration) × (code_begins (world_of source) code scripts ≡ Some c) × Stand (world_of source) code c (start (world_of source) scripts) }
{}

/// From there it makes the source's runs, with the same events, and no others; and what they come to stands for what the
/// source's come to.
pub fn law_code_runs()
    ensures all { (source : Program) (code : Code) (scripts : List Lines) (c : CodeConfiguration) → IsAccepted source → StandsFor (world_of source) code
        → code_begins (world_of source) code scripts ≡ Some c
        → (steps : Steps) (events : List Event) (e : Configuration) → SourceGoes (world_of source) (start (world_of source) scripts) steps events e
        → (f : CodeConfiguration) × CodeGoes code c steps events f × Stand (world_of source) code f e }
    ensures no_others { (source : Program) (code : Code) (scripts : List Lines) (c : CodeConfiguration) → IsAccepted source → StandsFor (world_of source) code
        → code_begins (world_of source) code scripts ≡ Some c
        → (steps : Steps) (events : List Event) (f : CodeConfiguration) → CodeGoes code c steps events f
        → (e : Configuration) × SourceGoes (world_of source) (start (world_of source) scripts) steps events e × Stand (world_of source) code f e }
{}
