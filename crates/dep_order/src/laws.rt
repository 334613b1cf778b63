//! Laws of the order, each the contract of a function without a body.

ghost use Rattle.std.specs.Prelude.{◌≡◌, ℕ, List};
ghost use Rattle.dep_order.specs.Order.{IsOrder, IsStuck};

/// There is at most one order, at most one node to name where there is none, and never both.
pub fn one_outcome()
    ensures order { (needs : List (List ℕ)) (a b : List ℕ) → IsOrder needs a → IsOrder needs b
        → a ≡ b }
    ensures stuck { (needs : List (List ℕ)) (a b : ℕ) → IsStuck needs a → IsStuck needs b → a ≡ b }
    ensures not_both { (needs : List (List ℕ)) (order : List ℕ) (id : ℕ) → IsOrder needs order
        → IsStuck needs id → ⊥ }
{}
