//! A law over the definitions, a function with nothing to do, whose contract it is.
ghost use Rattle.std.specs.Prelude.{Option};
ghost use Rattle.campl_machine.specs.Names.{End, Who};
ghost use Rattle.campl_tree.specs.Plain.Decl.{Program};
ghost use Rattle.campl_frame.specs.Frame.{IsLeft, IsLocal};
ghost use Rattle.campl_meaning.specs.Apart.{Place};
ghost use Rattle.campl_meaning.specs.Lawful.{Channels, Lawful};
ghost use Rattle.campl_meaning.specs.Reductions.{Configuration};
ghost use Rattle.campl_meaning.specs.States.{State};

/// A step that is local to one process or service leads from a lawful configuration to a lawful one.
pub fn law_frames()
    ensures { (source : Program) (c d : Configuration) (l : Lawful source c) (who : Who) (next : Option State) (child : Option (Who × State)) (from : Option End)
        (channel2 : Channels) (place2 : End → Place) → IsLocal source c d l who (IsLeft who next child) from channel2 place2 → Lawful source d }
{}
