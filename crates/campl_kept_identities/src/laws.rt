//! A law over the definitions, a function with nothing to do, whose contract it is.
ghost use Rattle.std.specs.Prelude.{Bool};
ghost use Rattle.campl_machine.specs.Names.{Path, Process};
ghost use Rattle.campl_tree.specs.declared.place.Place.{Place};
ghost use Rattle.campl_tree.specs.declared.place.Ident.{Ident};
ghost use Rattle.campl_tree.specs.Plain.Decl.{Program};
ghost use Rattle.campl_types.specs.Names.{Name};
ghost use Rattle.campl_types.specs.World.{world_of};
ghost use Rattle.campl_meaning.specs.States.{Running};
ghost use Rattle.campl_meaning.specs.Reductions.{Configuration};
ghost use Rattle.campl_meaning.specs.Kept.{Goes};
ghost use Rattle.campl_meaning.specs.Lawful.{Lawful};
ghost use Rattle.campl_kept_identities.specs.Identities.{IsIdentityAt};

/// Where a lawful configuration goes by an identity, it stays lawful.
pub fn law_link_kept()
    ensures { (source : Program) (c : Configuration) → Lawful source c → (p : Path) (r : Running) (at : Place) (x : Name) (negated : Bool) (y : Ident)
        → IsIdentityAt c p r at x negated y → (d : Configuration) → Goes (world_of source) c (Process p) d → Lawful source d }
{}
