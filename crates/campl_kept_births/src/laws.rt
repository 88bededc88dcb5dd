//! Laws over the definitions, functions with nothing to do, whose contracts they are.
ghost use Rattle.std.specs.Prelude.{◌≡◌, IsTrue, Some};
ghost use Rattle.campl_machine.specs.Names.{Path, Process};
ghost use Rattle.campl_tree.specs.declared.place.Ident.{Ident};
ghost use Rattle.campl_tree.specs.declared.place.Place.{Place};
ghost use Rattle.campl_tree.specs.Plain.Decl.{Program};
ghost use Rattle.campl_tree.specs.Plain.Process.{Body, Fork, Split, Then};
ghost use Rattle.campl_types.specs.World.{world_of};
ghost use Rattle.campl_peel.specs.Terms.{Doing, is_plug};
ghost use Rattle.campl_meaning.specs.Kept.{Goes};
ghost use Rattle.campl_meaning.specs.Lawful.{Lawful};
ghost use Rattle.campl_meaning.specs.Reductions.{Configuration};
ghost use Rattle.campl_meaning.specs.States.{Running, Runs};

/// A peel of a lawful configuration leads to a lawful one.
pub fn law_peel_is_lawful()
    ensures { (source : Program) (c d : Configuration) (p : Path) (r : Running) → Lawful source c → c.nodes (Process p) ≡ Some (Runs r)
        → Goes (world_of source) c (Process p) d → IsTrue (is_plug r.term) → Lawful source d }
{}

/// So does a split.
pub fn law_split_is_lawful()
    ensures { (source : Program) (c d : Configuration) (p : Path) (r : Running) → Lawful source c → c.nodes (Process p) ≡ Some (Runs r)
        → Goes (world_of source) c (Process p) d → (at : Place) (x y z : Ident) (rest : Body) → r.term ≡ Doing (Then (Split at x y z) rest) → Lawful source d }
{}

/// And so does a fork.
pub fn law_fork_is_lawful()
    ensures { (source : Program) (c d : Configuration) (p : Path) (r : Running) → Lawful source c → c.nodes (Process p) ≡ Some (Runs r)
        → Goes (world_of source) c (Process p) d → (at : Place) (x y : Ident) (left : Body) (z : Ident) (right : Body) → r.term ≡ Doing (Fork at x y left z right) → Lawful source d }
{}
