//! Laws over the definitions of the tree, each the contract of a function without a body.

ghost use Rattle.std.specs.Prelude.{◌≡◌, ◌<◌, ℕ, [], ◌∷◌, None, Some, codes, slice_get};
ghost use Rattle.std.specs.List.Sorted.{IsStrictlyIncreasing};
ghost use Rattle.edt_base.specs.BoundData.{IsBound};
ghost use Rattle.edt_base.specs.BoundNodeData.{BoundNodeData};
ghost use Rattle.edt_base.specs.NodeData.{NodeData};
ghost use Rattle.edt_base.specs.TreeData.{TreeData, IsWellFormed, ancestors, parent_of};

/// A root alone, without properties, is a well formed tree: what a tree keeps can be kept.
pub fn a_root_alone_is_well_formed()
    ensures { (n : NodeData) → n.name ≡ codes "/" → n.path ≡ codes "/" → n.parent ≡ None
        → n.children ≡ [] → n.props ≡ [] →
        IsWellFormed (record { nodes = n ∷ []; aliases = []; chosen = [] }) }
{}

/// A root alone, to which nothing is bound, is a bound tree: what a bound tree keeps can be kept.
pub fn a_root_alone_is_bound()
    ensures { (t : TreeData) (n : NodeData) (b : BoundNodeData) → IsWellFormed t → t.nodes ≡ n ∷ []
        → n.compats ≡ [] →
        b.props ≡ [] → b.irqs ≡ [] → b.needs ≡ [] → b.supports ≡ [] → b.bus ≡ None → b.ord ≡ 0 →
        IsBound (record { tree = t; nodes = b ∷ []; order = 0 ∷ []; insts = []; doubles = [] }) }
{}

/// A parent stands before its children.
pub fn parents_are_before()
    ensures { (t : TreeData) (i p : ℕ) → IsWellFormed t → parent_of t.nodes i ≡ Some p → p < i }
{}

/// The children of a node stand in preorder, each once.
pub fn children_rise()
    ensures { (t : TreeData) (i : ℕ) (n : NodeData) → IsWellFormed t → slice_get t.nodes i ≡ Some n
        → IsStrictlyIncreasing n.children }
{}

/// The nodes above a node are its parent and those above it; there are none above the root.
pub fn ancestors_are_the_parent_and_its_ancestors()
    ensures parent { (t : TreeData) (i p : ℕ) → IsWellFormed t → parent_of t.nodes i ≡ Some p
        → ancestors t.nodes i ≡ p ∷ ancestors t.nodes p }
    ensures root { (t : TreeData) (i : ℕ) → parent_of t.nodes i ≡ None → ancestors t.nodes i ≡ [] }
{}
