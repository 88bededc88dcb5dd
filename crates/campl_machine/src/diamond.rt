//! The diamond: steps that have nothing to do with one another can be made in both orders.

ghost use Rattle.std.specs.Prelude.{◌≡◌, ◌≢◌, Bool, Option, Some};
ghost use Rattle.campl_machine.specs.Names.{End, Who};
ghost use Rattle.campl_machine.specs.Machine.{Act, Config, Links, Looks, Moves, Uses};
ghost use Rattle.campl_machine.specs.Programs.{KeepsApart, Steps, reduce};
ghost use Rattle.campl_machine.specs.Runs.{Diamond};
ghost use Rattle.campl_machine.specs.Independence.{BearsNothing, Commute, Independent, NotBoth, Paired, only_sends};

/// Two independent steps stay possible after one another, and both orders give equal configurations.
pub fn law_diamond<S, M>()
    ensures { (c : Config S M) (p q : Who) (A B : Act S M) → Paired c → Independent c p A q B → NotBoth c A B → Commute c p A q B }
{}

/// Steps of different nodes that bear nothing and use different ends are independent, whatever channels they share.
pub fn law_independent<S, M>()
    ensures { (c : Config S M) (p q : Who) (A B : Act S M) → p ≢ q → BearsNothing A → BearsNothing B → ((e : End) → Uses A e → Uses B e → ⊥) → Independent c p A q B }
{}

/// A send on one end of a channel and a receipt on the other can be made in both orders.
pub fn law_send_and_receipt<S, M>()
    ensures { (c : Config S M) (p q : Who) (x z : End) (v : M) (s : Option S) (takes : Bool) (k : M → Option S) → Paired c → p ≢ q → c.partner x ≡ Some z → Commute c p (Moves (only_sends z v s)) q (Looks takes x k) }
{}

/// An identity of x and y can be made before or after a step on the other end, x2, of its first channel:
/// a send, a receipt, or another identity of x2 with an end w of a third channel.
pub fn law_identity<S, M>()
    ensures send { (c : Config S M) (p q : Who) (x y x2 : End) (v : M) (s : Option S) → Paired c → p ≢ q → c.partner x ≡ Some x2 → Commute c p (Moves (only_sends x2 v s)) q (Links x y) }
    ensures receipt { (c : Config S M) (p q : Who) (x y x2 : End) (takes : Bool) (k : M → Option S) → Paired c → p ≢ q → c.partner x ≡ Some x2 → Commute c p (Looks takes x2 k) q (Links x y) }
    ensures identity { (c : Config S M) (p q : Who) (x y x2 w : End) → Paired c → p ≢ q → c.partner x ≡ Some x2 → w ≢ x → w ≢ y → c.partner y ≢ Some w → Commute c p (Links x2 w) q (Links x y) }
{}

/// Where a program's steps are independent, its reductions have the diamond, whatever choices the nodes make.
pub fn law_program<S, M, I>()
    ensures both_orders { (act : Who → S → I → Act S M) (c : Config S M) → KeepsApart act c → (p q : Who) (i j : I) (b d : Config S M) → p ≢ q → reduce act c p i ≡ Some b → reduce act c q j ≡ Some d → (e : Config S M) × (reduce act b q j ≡ Some e) × (reduce act d p i ≡ Some e) }
    ensures diamond { (act : Who → S → I → Act S M) (c : Config S M) → KeepsApart act c → (i : I) → Diamond (Steps act i) c }
{}
