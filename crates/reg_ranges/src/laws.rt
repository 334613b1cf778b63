//! Laws of translation, each the contract of a function without a body.

ghost use Rattle.std.specs.Prelude.{◌<◌, ◌^◌, ℕ, List, Option, All};
ghost use Rattle.edt_base.specs.NodeData.{NodeData};
ghost use Rattle.edt_base.specs.declared.bound.Range.{Range};
ghost use Rattle.reg_ranges.specs.Translation.{IsWithinWay, translated, translation};

/// A translated address has 128 bits, as the one that it was: through any ranges that stay within
/// 128 bits, and so from any node of a tree.
pub fn translated_addresses_have_128_bits()
    ensures ways { (ways : List (Option (List Range))) (a : ℕ) → All IsWithinWay ways → a < 2 ^ 128
        → translated ways a < 2 ^ 128 }
    ensures tree { (nodes : List NodeData) (id a : ℕ) → a < 2 ^ 128
        → translation nodes id a < 2 ^ 128 }
{}
