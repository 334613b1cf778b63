//! The order of dependencies of a tree's nodes.

ghost use Rattle.std.specs.Prelude.{◌≡◌, ◌<◌, IfErr, IfOk, length};
ghost use Rattle.std.specs.List.{range_with_len};
ghost use Rattle.std.specs.List.Sorted.{IsPermutation};
ghost use Rattle.dep_order.specs.Order.{AreWithin, IsOrder};
ghost use Rattle.dep_order.specs.Turns.{lists};
ghost use Rattle.edt_bound.specs.Ordering.{IsOrderRefused, IsStuckToldAs, IsStuckWithin};

use dep_order::{OrderEnd, order};
use edt_base::{End, NodeId, Rule, Tree};
use std::alloc::{AllocError, Global};

/// The nodes in the order of dependencies, where these are the nodes that each requires; V36 at the
/// first node that can't be numbered where there is no order.
pub(crate) fn ordered(alloc: Global, t: &Tree, needs: &Vec<Vec<NodeId>>) -> Result<Vec<NodeId>, End>
    requires each { length needs.now.items ≡ length t.now.nodes }
    requires within { AreWithin (lists needs.now.items) }
    ensures order { IfOk result (λ v. IsOrder (lists needs.now.items) v.items) }
    ensures once { IfOk result (λ v. IsPermutation v.items
        (range_with_len 0 (length t.now.nodes))) }
    ensures refused { IfErr result (IsOrderRefused t.now.nodes (lists needs.now.items)) }
{
    t.is_well_formed();
    match order(alloc, needs) {
        Ok(ordered) => Ok(ordered),
        Err(end) => Err(told(alloc, t, &end)),
    }
}

// Why there is no order, with its place.
fn told(alloc: Global, t: &Tree, end: &OrderEnd) -> End
    requires { IsStuckWithin (length t.now.nodes) end.now }
    ensures { IsStuckToldAs t.now.nodes end.now result }
{
    match end {
        OrderEnd::Cycle(id) => t.node(*id).fault(alloc, Rule::V36),
        OrderEnd::Memory(_) => End::Memory(AllocError),
    }
}
