//! Progress: among nodes that wait for one another without a cycle, one waits for none.

ghost use Rattle.std.specs.Prelude.{◌≡◌, Bool, List, None, Option, true};
ghost use Rattle.campl_machine.specs.Names.{TellsApart};
ghost use Rattle.campl_machine.specs.Graph.{Graph, NoCycle};
ghost use Rattle.campl_machine.specs.Progress.{Points};

/// In a graph with no cycle and finitely many nodes, of which each that points, points along an edge of its own, and
/// where no edge is pointed at from both halves, some node points at nothing.
pub fn law_progress<E, N>()
    ensures { (same_half : E → E → Bool) (same_node : N → N → Bool) → TellsApart same_half → TellsApart same_node → (g : Graph E N) (nodes : List N) (there : N → Bool) (point : N → Option E) → Points g nodes there point → NoCycle g → (u : N) → there u ≡ true → (v : N) × (there v ≡ true) × (point v ≡ None) }
{}
