//! Laws over the definitions, each the contract of a function without a body.

ghost use Rattle.std.specs.Prelude.{◌≡◌, ◌++◌, ◌∷◌, [], List, filter, false, not, true};
ghost use Rattle.dts_tree.specs.Deeds.{Deed, deletes, uncovered};
ghost use Rattle.dts_tree.specs.Places.{is_within};

/// One deed more: one that deletes nothing is there and covers nothing; a deletion leaves of what was
/// there that which doesn't stand at its place or below it.
pub fn deeds_stay_until_they_are_covered()
    ensures done { (deeds : List Deed) (d : Deed) → deletes d.act ≡ false →
        uncovered (deeds ++ d ∷ []) ≡ uncovered deeds ++ d ∷ [] }
    ensures deleted { (deeds : List Deed) (d : Deed) → deletes d.act ≡ true →
        uncovered (deeds ++ d ∷ []) ≡ filter (λ e. not (is_within d.at e.at)) (uncovered deeds) }
{}
