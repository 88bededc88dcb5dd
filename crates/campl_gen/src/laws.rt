//! What the code does: a law over the definitions, a function with nothing to do, whose contract it is.
ghost use Rattle.std.specs.Prelude.{◌≡◌, List, Some};
ghost use Rattle.campl_tree.specs.Plain.Decl.{Program};
ghost use Rattle.campl_types.specs.World.{world_of};
ghost use Rattle.campl_service.specs.Scripts.{Lines};
ghost use Rattle.campl_meaning.specs.Lawful.{IsAccepted};
ghost use Rattle.campl_meaning.specs.Reductions.{Configuration, Event};
ghost use Rattle.campl_meaning.specs.Start.{start};
ghost use Rattle.campl_code.specs.Instructions.{Code};
ghost use Rattle.campl_code_bodies.specs.Running.{CodeConfiguration, Stand, code_begins};
ghost use Rattle.campl_code_bodies.specs.Runs.{Steps, SourceGoes, CodeGoes};
ghost use Rattle.campl_code_bodies.specs.SourceCode.{IsCodeOf};
ghost use Rattle.campl_gen.specs.Generated.{world_code};

/// The code that is generated for the world of an accepted source begins with any scripts as the source does. From there it makes
/// the source's runs, with the same events, and no others; and what they come to stands for what the source's come to.
pub fn law_generated_runs()
    ensures code { (source : Program) → IsCodeOf source (world_code (world_of source)) }
    ensures begins { (source : Program) (scripts : List Lines) → IsAccepted source
        → (c : CodeConfiguration) × (code_begins (world_of source) (world_code (world_of source)) scripts ≡ Some c) × Stand (world_of source) (world_code (world_of source)) c (start (world_of source) scripts) }
    ensures all { (source : Program) (scripts : List Lines) (c : CodeConfiguration) → IsAccepted source → code_begins (world_of source) (world_code (world_of source)) scripts ≡ Some c
        → (steps : Steps) (events : List Event) (e : Configuration) → SourceGoes (world_of source) (start (world_of source) scripts) steps events e
        → (f : CodeConfiguration) × CodeGoes (world_code (world_of source)) c steps events f × Stand (world_of source) (world_code (world_of source)) f e }
    ensures no_others { (source : Program) (scripts : List Lines) (c : CodeConfiguration) → IsAccepted source → code_begins (world_of source) (world_code (world_of source)) scripts ≡ Some c
        → (steps : Steps) (events : List Event) (f : CodeConfiguration) → CodeGoes (world_code (world_of source)) c steps events f
        → (e : Configuration) × SourceGoes (world_of source) (start (world_of source) scripts) steps events e × Stand (world_of source) (world_code (world_of source)) f e }
{}
