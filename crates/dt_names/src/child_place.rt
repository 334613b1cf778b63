//! The place of a node among its siblings.

ghost use Rattle.std.specs.Prelude.{◌≡◌, [], MatchOption, drop, length, nat_lt, option_map, slice_get};
ghost use Rattle.std.specs.List.{filter};
ghost use Rattle.edt_base.specs.TreeData.{IsWellFormed};
ghost use Rattle.dt_names.specs.Facts.{child_place};
ghost use Rattle.dt_names.specs.Inner.Standing.{StandsAt};
ghost use Rattle.dt_names.specs.Inner.Rising.{IsRisingFrom};

use edt_base::{Bound, NodeId, NodeRec};

/// How many children of the node `up` come before the place `n`. Logarithmic in their number.
pub(crate) fn child_place(bound: &Bound, up: u32, n: u32) -> usize
    ensures { result ≡ child_place bound.now.tree.nodes up n }
{
    tree_is_well_formed(bound);
    match node_at(bound, up) {
        Some(node) => count_below(node.children(), n),
        None => 0,
    }
}

/// Shows a caller that the tree is well formed. Does nothing when it runs.
pub(crate) fn tree_is_well_formed(bound: &Bound)
    ensures { IsWellFormed bound.now.tree }
{
    bound.tree.is_well_formed();
}

/// How many nodes there are.
pub(crate) fn node_count(bound: &Bound) -> usize
    ensures { result ≡ length bound.now.tree.nodes }
{
    bound.tree.nodes().len()
}

/// The node at a place.
pub(crate) fn node_at(bound: &Bound, id: u32) -> Option<&NodeRec>
    ensures { option_map (λ x. x.now) result ≡ slice_get bound.now.tree.nodes id }
{
    bound.tree.nodes().get(id as usize)
}

/// The node at a place, with what is behind it; None exactly where no node is left from there on.
pub(crate) fn node_from(bound: &Bound, index: u32) -> Option<&NodeRec>
    ensures { MatchOption result (drop index bound.now.tree.nodes ≡ [])
        (λ x. StandsAt bound.now.tree.nodes index x.now) }
{
    tree_is_well_formed(bound);
    match node_at(bound, index) {
        Some(node) => Some(node),
        None => None,
    }
}

// How many of some rising places are below one.
fn count_below(ids: &[NodeId], n: u32) -> usize
    requires { IsRisingFrom 0 ids.now }
    ensures { result ≡ length (filter (λ c. nat_lt c n) ids.now) }
{
    match ids.binary_search(&NodeId(n)) {
        Ok(place) => place,
        Err(place) => place,
    }
}
