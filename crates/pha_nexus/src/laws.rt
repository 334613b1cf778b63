//! Laws of chains and of matches, each the contract of a function without a body.

ghost use Rattle.std.specs.Prelude.{◌≡◌, ◌<◌, ℕ, List, None, Ok, Err, Some, option_and_then};
ghost use Rattle.edt_base.specs.NodeData.{NodeData};
ghost use Rattle.edt_base.specs.TreeData.{IsWellFormed, TreeData, parent_of};
ghost use Rattle.edt_base.specs.declared.fault.Rule.{Rule};
ghost use Rattle.bind_merge.specs.LibraryData.{LibData};
ghost use Rattle.pha_nexus.specs.Chain.{Breaks, Ends, followed};
ghost use Rattle.pha_nexus.specs.Matching.{Bus, bus_in, buses_of, compats_at, match_at};
ghost use Rattle.pha_nexus.specs.Matching.{match_by, no_match};

/// A specifier is followed to an end exactly where there is a chain of at most 16 rows that ends
/// there, and to a rule exactly where there is a chain up to a map at which this rule is the first
/// that is broken. So there is one such end or one such rule, and never both.
pub fn specifiers_are_followed_along_chains()
    ensures ends { (nodes : List NodeData) (space : List ℕ) (start : ℕ) (spec : List ℕ) (last : ℕ)
        (end : List ℕ) → followed nodes space start spec ≡ Ok (record { node = last; spec = end })
        → Ends nodes space start spec last end }
    ensures each_end { (nodes : List NodeData) (space : List ℕ) (start : ℕ) (spec : List ℕ)
        (last : ℕ) (end : List ℕ) → Ends nodes space start spec last end
        → followed nodes space start spec ≡ Ok (record { node = last; spec = end }) }
    ensures breaks { (nodes : List NodeData) (space : List ℕ) (start : ℕ) (spec : List ℕ)
        (broken : Rule) → followed nodes space start spec ≡ Err broken
        → Breaks nodes space start spec broken }
    ensures each_break { (nodes : List NodeData) (space : List ℕ) (start : ℕ) (spec : List ℕ)
        (broken : Rule) → Breaks nodes space start spec broken
        → followed nodes space start spec ≡ Err broken }
{}

/// What a node has of bindings and buses is told by what its parent has: its bus is its parent,
/// where that one's binding has `bus`, else its parent's bus; its binding is the first for its
/// compatible strings on that bus or, without such strings, the child-binding of its parent's. The
/// names of a bus are those of the binding of its node, which stands before the node.
pub fn a_match_follows_from_the_parents()
    ensures root { (t : TreeData) (lib : LibData) (id : ℕ) → parent_of t.nodes id ≡ None
        → match_at t.nodes lib id ≡ match_by lib None no_match (compats_at t.nodes id) }
    ensures child { (t : TreeData) (lib : LibData) (id up : ℕ) → IsWellFormed t
        → parent_of t.nodes id ≡ Some up → match_at t.nodes lib id
        ≡ match_by lib (bus_in lib up (match_at t.nodes lib up)) (match_at t.nodes lib up)
        (compats_at t.nodes id) }
    ensures bus { (t : TreeData) (lib : LibData) (id : ℕ) (bus : Bus) → IsWellFormed t
        → (match_at t.nodes lib id).bus ≡ Some bus → (bus.node < id)
        × (option_and_then (buses_of lib) (match_at t.nodes lib bus.node).binding
        ≡ Some bus.names) }
{}
