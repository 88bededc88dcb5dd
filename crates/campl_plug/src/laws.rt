//! Laws over the definitions, functions with nothing to do, whose contracts they are.
ghost use Rattle.std.specs.Prelude.{◌≡◌, ◌≢◌, ◌≤◌, ◌↔◌, ℕ, All, List, Some, None, slice_get};
ghost use Rattle.campl_plug.specs.declared.plug.Link.{Link};
ghost use Rattle.campl_plug.specs.declared.plug.PlugFault.{PlugFault};
ghost use Rattle.campl_plug.specs.declared.plug.PlugFault.TheVariants.{OutOfMemory};
ghost use Rattle.campl_plug.specs.Links.{IsPart, IsWithin};
ghost use Rattle.campl_plug.specs.Tree.{AreReached, HasNoCycle, IsTree};
ghost use Rattle.campl_plug.specs.Order.{HasOneLinkBack, IsBreadthFirst};
ghost use Rattle.campl_plug.specs.Faults.{IsFaultOf};
ghost use Rattle.campl_plug.specs.TreeOrder.{tree_order_of};
ghost use Rattle.campl_plug.specs.FirstFault.{fault_of};

/// Each link joins two parts that weren't joined before, and each part is reached, exactly where k - 1 links
/// reach each part.
pub fn law_trees_have_no_cycle()
    ensures { (k : ℕ) (links : List Link) → 1 ≤ k → All (IsWithin k) links → IsTree k links ↔ (HasNoCycle links × AreReached k links) }
{}

/// A tree has one breadth-first order.
pub fn law_orders_are_one()
    ensures { (k : ℕ) (links : List Link) → 1 ≤ k → All (IsWithin k) links → IsTree k links → (order other : List ℕ)
        → IsBreadthFirst k links order → IsBreadthFirst k links other → order ≡ other }
{}

/// The order begins with part 1, and each other part has exactly one link to the parts before it.
pub fn law_parts_have_one_link_back()
    ensures first { (k : ℕ) (links : List Link) → 1 ≤ k → All (IsWithin k) links → (order : List ℕ) → IsBreadthFirst k links order
        → slice_get order 0 ≡ Some 1 }
    ensures back { (k : ℕ) (links : List Link) → 1 ≤ k → All (IsWithin k) links → IsTree k links → (order : List ℕ) → IsBreadthFirst k links order
        → (q : ℕ) → IsPart k q → q ≢ 1 → HasOneLinkBack links order q }
{}

/// A tree has no fault but want of memory.
pub fn law_trees_have_no_fault()
    ensures { (k : ℕ) (links : List Link) → 1 ≤ k → All (IsWithin k) links → IsTree k links → (fault : PlugFault) → IsFaultOf k links fault → fault ≡ OutOfMemory }
{}

/// Beside want of memory there is at most one fault.
pub fn law_faults_are_one()
    ensures { (k : ℕ) (links : List Link) (fault other : PlugFault) → IsFaultOf k links fault → IsFaultOf k links other
        → fault ≢ OutOfMemory → other ≢ OutOfMemory → fault ≡ other }
{}

/// The order that is computed is the breadth-first order.
pub fn law_order_computes()
    ensures { (k : ℕ) (links : List Link) → 1 ≤ k → All (IsWithin k) links → IsTree k links → (order : List ℕ)
        → IsBreadthFirst k links order ↔ (order ≡ tree_order_of k links) }
{}

/// The fault that is computed is the fault of the links, and there is none exactly where they form a tree.
pub fn law_fault_computes()
    ensures tree { (k : ℕ) (links : List Link) → 1 ≤ k → All (IsWithin k) links → IsTree k links ↔ (fault_of k links ≡ None) }
    ensures fault { (k : ℕ) (links : List Link) → 1 ≤ k → All (IsWithin k) links → (fault : PlugFault) → fault ≢ OutOfMemory
        → IsFaultOf k links fault ↔ (fault_of k links ≡ Some fault) }
{}
