//! Laws over the definitions, functions with nothing to do, whose contracts they are.
ghost use Rattle.std.specs.Prelude.{◌≡◌, ◌↔◌, ℕ, List, Some};
ghost use Rattle.campl_orders.specs.Orders.{IsOrder, PlainOrder};
ghost use Rattle.campl_orders.specs.Reading.{order_of};

/// Words are an order exactly where it is the one that is computed.
#[tactic(auto, using(crate::proofs::Agreement::order_agrees))]
pub fn law_order_computes()
    ensures { (words : List (List ℕ)) (order : PlainOrder) → IsOrder words order ↔ (order_of words ≡ Some order) }
{}

/// Words are at most one order.
#[tactic(auto, using(crate::proofs::Agreement::one_order))]
pub fn law_orders_are_one()
    ensures { (words : List (List ℕ)) (order other : PlainOrder) → IsOrder words order → IsOrder words other → order ≡ other }
{}
