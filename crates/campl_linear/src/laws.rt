//! Laws over the definitions, functions with nothing to do, whose contracts they are.
ghost use Rattle.std.specs.Prelude.{◌≡◌, ◌≢◌, ◌≤◌, ◌↔◌, All, IsTrue, List, [], Some};
ghost use Rattle.campl_plug.specs.declared.plug.PlugFault.{PlugFault};
ghost use Rattle.campl_plug.specs.declared.plug.PlugFault.TheVariants.{OutOfMemory};
ghost use Rattle.campl_plug.specs.Links.{IsWithin};
ghost use Rattle.campl_plug.specs.Faults.{IsFaultOf};
ghost use Rattle.campl_tree.specs.declared.place.Place.{Place};
ghost use Rattle.campl_tree.specs.Plain.Decl.{Program, ProtocolDecl, CoprotocolDecl};
ghost use Rattle.campl_tree.specs.Plain.Process.{Body, Link, Parts};
ghost use Rattle.campl_types.specs.Fits.{Vars};
ghost use Rattle.campl_types.specs.Headers.{links_in, Divide, count};
ghost use Rattle.campl_types.specs.Linear.{IsWellFormed, ProcessesAreTyped};
ghost use Rattle.campl_types.specs.WellDeclared.{IsWellDeclared};
ghost use Rattle.campl_types.specs.Names.{Name, found};
ghost use Rattle.campl_types.specs.Polarity.{protocol_choices, coprotocol_choices};
ghost use Rattle.campl_types.specs.World.{world_of, type_named, ProtocolType, CoprotocolType};
ghost use Rattle.campl_tree.specs.Plain.SeqType.{SeqType};
ghost use Rattle.campl_linear.specs.Remains.{remains};
ghost use Rattle.campl_types.specs.Typed.{IsTyped};
ghost use Rattle.campl_seqcheck.specs.Judged as seq;
ghost use Rattle.campl_seqcheck.specs.Judged.{fine, Is};
ghost use Rattle.campl_seqcheck.specs.Functions.{judge_functions};
ghost use Rattle.campl_linear.specs.Holding.{Holding, as_held};
ghost use Rattle.campl_peel.specs.Numbered.{joined_parts, PlugIsTree};
ghost use Rattle.campl_linear.specs.Plugs.{links_are_new, headers_stand, links_are_used, all_are_used, tree_fault, parts_form_tree};
ghost use Rattle.campl_linear.specs.Bodies.{judge};
ghost use Rattle.campl_linear.specs.Processes.{judge_processes};
ghost use Rattle.campl_peel.specs.Trees.{PlugsAreTrees, ProcessesHaveTrees};

/// In a well declared source a body that is judged to have no fault is well formed with what it holds, and the
/// parts of each of its plugs form a tree; and each such body is judged so.
pub fn law_bodies_are_well_formed()
    ensures sound { (source : Program) → IsWellDeclared source → (vs : Vars) (held : Holding) (body : Body) → judge (world_of source) vs held body ≡ Is fine
        → IsWellFormed (world_of source) vs (as_held held) body × PlugsAreTrees body }
    ensures both { (source : Program) → IsWellDeclared source → (vs : Vars) (held : Holding) (body : Body)
        → judge (world_of source) vs held body ≡ Is fine ↔ (IsWellFormed (world_of source) vs (as_held held) body × PlugsAreTrees body) }
{}

/// So the processes of the source are judged to have no fault exactly where they are typed and the parts of
/// each plug form a tree.
pub fn law_processes_are_typed()
    ensures sound { (source : Program) → IsWellDeclared source → judge_processes (world_of source) source ≡ Is fine
        → ProcessesAreTyped (world_of source) source × ProcessesHaveTrees source }
    ensures both { (source : Program) → IsWellDeclared source
        → judge_processes (world_of source) source ≡ Is fine ↔ (ProcessesAreTyped (world_of source) source × ProcessesHaveTrees source) }
{}

/// Behind the first five steps of a plug the headers divide its links and what is held. So each link joins two
/// parts, and what the sixth and seventh step tell is the fault of `campl_plug`, or none where there is a tree.
pub fn law_plugs_tell_their_fault()
    ensures divide { (at : Place) (links : List Link) (parts : Parts) (held : Holding) → links_are_new held [] links ≡ Is fine
        → headers_stand (links_in links) held [] [] parts ≡ Is fine → links_are_used links parts ≡ Is fine → all_are_used at held parts ≡ Is fine
        → Divide (links_in links) (as_held held) parts }
    ensures within { (links : List Link) (parts : Parts) (held : Holding) → Divide (links_in links) (as_held held) parts
        → All (IsWithin (count parts)) (joined_parts links parts) }
    ensures fault { (links : List Link) (parts : Parts) (held : Holding) → Divide (links_in links) (as_held held) parts → 1 ≤ count parts
        → (fault : PlugFault) → fault ≢ OutOfMemory → IsFaultOf (count parts) (joined_parts links parts) fault → parts_form_tree links parts ≡ tree_fault links parts (Some fault) }
    ensures tree { (links : List Link) (parts : Parts) (held : Holding) → Divide (links_in links) (as_held held) parts → 1 ≤ count parts
        → PlugIsTree links parts → parts_form_tree links parts ≡ Is fine }
{}

/// A source has no fault of its names, functions and processes exactly where it is typed and the parts of each
/// plug form a tree.
pub fn law_sources_are_typed()
    ensures { (source : Program)
        → (IsWellDeclared source × (judge_functions (world_of source) source ≡ Is fine) × (judge_processes (world_of source) source ≡ Is fine)) ↔ (IsTyped source × ProcessesHaveTrees source) }
{}

/// In a well declared source a constructor is among the choices of a protocol or coprotocol exactly where it is
/// declared by it, and what remains behind it is what its line says.
pub fn law_choices_are_declared()
    ensures protocols { (source : Program) → IsWellDeclared source → (x : Name) (d : ProtocolDecl) → type_named (world_of source) x ≡ Some (ProtocolType d)
        → (k : Name) (ts : List SeqType) → found k (protocol_choices d ts) ≡ remains (world_of source) x k ts }
    ensures coprotocols { (source : Program) → IsWellDeclared source → (x : Name) (d : CoprotocolDecl) → type_named (world_of source) x ≡ Some (CoprotocolType d)
        → (k : Name) (ts : List SeqType) → found k (coprotocol_choices d ts) ≡ remains (world_of source) x k ts }
{}
