//! Forests: no change that a step makes to the graph of a machine's nodes gives it a cycle.
//!
//! The nodes are processes, services and messages that carry ends; the edges are channels. The first three laws are
//! of changes in general, the others of what each kind of step does.

ghost use Rattle.std.specs.Prelude.{Bool};
ghost use Rattle.campl_machine.specs.Names.{End, TellsApart};
ghost use Rattle.campl_machine.specs.Graph.{Graph, Mutual, NoCycle};
ghost use Rattle.campl_machine.specs.Changes.{Contracts, Fork, GivesUp, Identity, Peel, Receipt, Removes, Splits};

/// Where one node becomes another over an edge between them, no cycle comes.
pub fn law_contraction<E, N>()
    ensures { (same_half : E → E → Bool) → TellsApart same_half → (g h : Graph E N) (old_name : E → E) (x y : E) (p m : N) → Contracts g h old_name x y p m → NoCycle g → NoCycle h }
{}

/// Where a node is split off another, with an edge between them, no cycle comes.
pub fn law_splitting<E, N>()
    ensures { (same_half : E → E → Bool) → TellsApart same_half → (g h : Graph E N) (n k : E) (p c : N) → Splits g h n k p c → NoCycle g → NoCycle h }
{}

/// Where edges go, no cycle comes.
pub fn law_removal<E, N>()
    ensures { (same_half : E → E → Bool) → TellsApart same_half → (g h : Graph E N) → Removes g h → NoCycle g → NoCycle h }
{}

/// An identity makes no cycle.
pub fn law_forest_identity<N>()
    ensures { (g h : Graph End N) (p : N) (x y x2 y2 : End) → Mutual g.partner → Identity g h p x y x2 y2 → NoCycle g → NoCycle h }
{}

/// The receipt of a message that carries ends makes no cycle.
pub fn law_forest_receipt<E, N>()
    ensures { (same_half : E → E → Bool) → TellsApart same_half → (g h : Graph E N) (p message : N) (x z : E) → Receipt g h p message x z → NoCycle g → NoCycle h }
{}

/// A child that is born on a new channel makes no cycle.
pub fn law_forest_peel<E, N>()
    ensures { (same_half : E → E → Bool) → TellsApart same_half → (g h : Graph E N) (p child : N) (n k : E) → Peel g h p child n k → NoCycle g → NoCycle h }
{}

/// A fork, which bears two channels and a child and sends both far ends, makes no cycle.
pub fn law_forest_fork<E, N>()
    ensures { (same_half : E → E → Bool) (same_node : N → N → Bool) → TellsApart same_half → TellsApart same_node → (g h : Graph E N) (p child message : N) (n1 l1 n2 l2 : E) → Fork g h p child message n1 l1 n2 l2 → NoCycle g → NoCycle h }
{}

/// Ends that are given up, by a close or by the end of a process, make no cycle.
pub fn law_forest_given_up<E, N>()
    ensures { (same_half : E → E → Bool) → TellsApart same_half → (g h : Graph E N) → GivesUp g h → NoCycle g → NoCycle h }
{}
