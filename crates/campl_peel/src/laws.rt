//! Laws over the definitions, functions with nothing to do, whose contracts they are.
ghost use Rattle.std.specs.Prelude.{◌≡◌, ◌≤◌, All, IsTrue, List, Some};
ghost use Rattle.campl_plug.specs.Links.{IsWithin};
ghost use Rattle.campl_tree.specs.declared.place.Place.{Place};
ghost use Rattle.campl_tree.specs.Plain.Process as b;
ghost use Rattle.campl_tree.specs.Plain.Process.{Body, Header, Parts, no_parts, part_then, Plug};
ghost use Rattle.campl_types.specs.World.{World};
ghost use Rattle.campl_types.specs.Fits.{Vars};
ghost use Rattle.campl_types.specs.Held.{Held};
ghost use Rattle.campl_types.specs.Headers.{links_in, Divide, count};
ghost use Rattle.campl_types.specs.Linear.{IsWellFormed};
ghost use Rattle.campl_peel.specs.Numbered.{joined_parts, part_at, last_first, PlugIsTree};
ghost use Rattle.campl_peel.specs.Plugging.{PluggingIsWellFormed};
ghost use Rattle.campl_peel.specs.Peel.{Peel, peel_of, first_part, PeelKeepsTyping};
ghost use Rattle.campl_peel.specs.Terms.{Term, is_plug, TermIsWellFormed, TermPeels};

/// Where headers divide the links and what is held, the links join parts of the plug.
pub fn law_links_join_parts()
    ensures { (links : List b.Link) (held : Held) (parts : Parts) → Divide (links_in links) held parts
        → All (IsWithin (count parts)) (joined_parts links parts) }
{}

/// A well formed plug whose parts are a tree is a well formed plug of which nothing is peeled. Each part is
/// there once, and part 1 is the one that is left in the end.
pub fn law_plugs_begin()
    ensures size { (w : World) (vs : Vars) (held : Held) (at : Place) (links : List b.Link) (parts : Parts)
        → IsWellFormed w vs held (Plug at links parts) → PlugIsTree links parts → count (last_first links parts) ≡ count parts }
    ensures whole { (w : World) (vs : Vars) (held : Held) (at : Place) (links : List b.Link) (parts : Parts)
        → IsWellFormed w vs held (Plug at links parts) → PlugIsTree links parts → PluggingIsWellFormed w vs held links (last_first links parts) }
    ensures first { (w : World) (vs : Vars) (held : Held) (at : Place) (links : List b.Link) (parts : Parts)
        → IsWellFormed w vs held (Plug at links parts) → PlugIsTree links parts → first_part (last_first links parts) ≡ part_at parts 1 }
{}

/// The last of the parts left is peeled, and the child and the rest are well formed, each with its share.
pub fn law_peeling_keeps_typing()
    ensures keeps { (w : World) (vs : Vars) (held : Held) (links : List b.Link) (parts : Parts)
        → PluggingIsWellFormed w vs held links parts → 2 ≤ count parts
        → (p : Peel) × (peel_of links parts ≡ Some p) × PeelKeepsTyping w vs held p }
    ensures last { (links : List b.Link) (parts : Parts) (p : Peel) → peel_of links parts ≡ Some p
        → (parts ≡ part_then p.header p.body p.parts) × (first_part p.parts ≡ first_part parts) }
{}

/// The last part that is left is well formed with all that is held.
pub fn law_last_part_is_well_formed()
    ensures { (w : World) (vs : Vars) (held : Held) (links : List b.Link) (h : Header) (body : Body)
        → PluggingIsWellFormed w vs held links (part_then h body no_parts) → IsWellFormed w vs held body }
{}

/// A well formed term that is a plug peels, and the child's term and what is left are well formed.
pub fn law_terms_peel()
    ensures { (w : World) (vs : Vars) (held : Held) (term : Term) → TermIsWellFormed w vs held term → IsTrue (is_plug term)
        → (p : Peel) × TermPeels w vs held term p }
{}

/// The parts that are left form a tree with the links that are left.
pub fn law_left_parts_are_a_tree()
    ensures { (w : World) (vs : Vars) (held : Held) (links : List b.Link) (parts : Parts)
        → PluggingIsWellFormed w vs held links parts → PlugIsTree links parts }
{}
