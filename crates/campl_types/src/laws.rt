//! Laws over the definitions, functions with nothing to do, whose contracts they are.
ghost use Rattle.std.specs.Prelude.{◌≡◌, ◌↔◌, Bool, List, Some, is_some};
ghost use Rattle.campl_tree.specs.declared.place.Place.{Place};
ghost use Rattle.campl_tree.specs.declared.place.Ident.{Ident};
ghost use Rattle.campl_tree.specs.Plain.Process.{Body, Fork};
ghost use Rattle.campl_tree.specs.declared.service.Side.{Side};
ghost use Rattle.campl_tree.specs.Plain.SeqType.{SeqType};
ghost use Rattle.campl_tree.specs.Plain.ChanType.{ChanType};
ghost use Rattle.campl_tree.specs.Plain.Decl.{Program};
ghost use Rattle.campl_value.specs.Tree.{Tree};
ghost use Rattle.campl_types.specs.Names.{Name};
ghost use Rattle.campl_types.specs.World.{World, world_of};
ghost use Rattle.campl_types.specs.WellDeclared.{IsWellDeclared};
ghost use Rattle.campl_types.specs.Polarity.{ProtocolsAreKnown, CoprotocolsAreKnown, deed, bare_deed};
ghost use Rattle.campl_types.specs.SameType.{bare_chan};
ghost use Rattle.campl_types.specs.Values.{ConstructorsAreKnown, DataTypesAreKnown, PartsAreKnown, AllAreValues};
ghost use Rattle.campl_types.specs.Matching.{SomeRowMatches};
ghost use Rattle.campl_types.specs.Missing.{Row, AllAsLong};
ghost use Rattle.campl_types.specs.Sequential.{AreExhaustive};
ghost use Rattle.campl_types.specs.Fits.{Vars};
ghost use Rattle.campl_types.specs.Held.{Channel, Held, without};
ghost use Rattle.campl_types.specs.Linear.{IsWellFormed};
ghost use Rattle.campl_types.specs.Free.{is_free, IsDividedBy, IsDividedByNames};

/// In a well declared source each constructor is known by its name, with its declaration and its number, and
/// the type variables of its parts are parameters of its data type.
pub fn law_declarations_are_known()
    ensures constructors { (source : Program) → IsWellDeclared source → ConstructorsAreKnown (world_of source) }
    ensures types { (source : Program) → IsWellDeclared source → DataTypesAreKnown (world_of source) }
    ensures parts { (source : Program) → IsWellDeclared source → PartsAreKnown (world_of source) }
    ensures protocols { (source : Program) → IsWellDeclared source → ProtocolsAreKnown (world_of source) }
    ensures coprotocols { (source : Program) → IsWellDeclared source → CoprotocolsAreKnown (world_of source) }
{}

/// Of each list of values of the types, exhaustive rows have a first that matches.
pub fn law_some_row_matches()
    ensures { (source : Program) → IsWellDeclared source → (rows : List Row) (ts : List SeqType) (vs : List Tree) → AllAsLong rows ts
        → AreExhaustive (world_of source) rows ts → AllAreValues (world_of source) vs ts → SomeRowMatches (world_of source) rows vs }
{}

/// The polarity table doesn't see places.
pub fn law_the_table_sees_no_places()
    ensures { (w : World) (side : Side) (t : ChanType) → bare_deed (deed w side t) ≡ bare_deed (deed w side (bare_chan t)) }
{}

/// The free names of a well formed body are exactly those that are held.
pub fn law_bodies_name_what_they_hold()
    ensures { (w : World) (vs : Vars) (held : Held) (body : Body) → IsWellFormed w vs held body
        → (n : Name) → is_free n body ≡ is_some (held n) }
{}

/// So a fork is well formed exactly where it is by free names: each other channel goes to the first body
/// where it is free there, and to the second otherwise.
pub fn law_forks_divide_by_names()
    ensures { (w : World) (vs : Vars) (held : Held) (at : Place) (x y : Ident) (left : Body) (z : Ident) (right : Body)
        → IsWellFormed w vs held (Fork at x y left z right) ↔ IsDividedByNames w vs held x y left z right }
{}

/// There is no other division of what is held.
pub fn law_forks_divide_in_one_way()
    ensures { (w : World) (vs : Vars) (held : Held) (x y : Ident) (left : Body) (z : Ident) (right : Body)
        (keep : Name → Bool) → IsDividedBy keep w vs held x y left z right
        → (n : Name) (c : Channel) → without x.name held n ≡ Some c → keep n ≡ is_free n left }
{}
