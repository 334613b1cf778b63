//! Orders the nodes.

ghost use Rattle.std.specs.Prelude.{◌≡◌, ◌<◌, ◌^◌, [], IfOk, IfErr, length};
ghost use Rattle.std.specs.List.{range_with_len};
ghost use Rattle.std.specs.List.Sorted.{IsPermutation};
ghost use Rattle.dep_order.specs.Order.{AreWithin, IsOrder, IsEnd};
ghost use Rattle.dep_order.specs.Turns.{lists, IsUnderWay};

use crate::OrderEnd;
use crate::turns::{Turns, everyone};
use edt_base::NodeId;
use std::alloc::{AllocError, Global};

/// The order of dependencies of nodes in preorder, by which they get their ordinals (Zephyr 3.7,
/// "Devicetree API", dependency ordinals). `needs` lists for each node those that it requires: they
/// must be there, and fewer than 2^32. Gives each node once, after all that it requires; the next
/// is always the first in preorder that can come. A node may be named twice in a list; one that
/// names itself can never come. `Cycle` comes exactly where there is no such order, with the first
/// node that is left when no further one can come.
///
/// Takes time proportional to the requirements, and n log n in the nodes.
pub fn order(alloc: Global, needs: &Vec<Vec<NodeId>>) -> Result<Vec<NodeId>, OrderEnd>
    requires few { length needs.now.items < 2 ^ 32 }
    requires within { AreWithin (lists needs.now.items) }
    ensures order { IfOk result (λ v. IsOrder (lists needs.now.items) v.items) }
    ensures once { IfOk result (λ v. IsPermutation v.items
        (range_with_len 0 (length needs.now.items))) }
    ensures end { IfErr result (IsEnd (lists needs.now.items)) }
{
    placed_all(alloc, needs.as_slice())?.finish()
}

// Places nodes until none is ready.
fn placed_all(alloc: Global, needs: &[Vec<NodeId>]) -> Result<Turns, AllocError>
    requires few { length needs.now < 2 ^ 32 }
    requires within { AreWithin (lists needs.now) }
    ensures under_way { IfOk result (λ t. IsUnderWay (lists needs.now) t []) }
    ensures none { IfOk result (λ t. t.ready ≡ []) }
{
    let mut turns = Turns::new(alloc, needs.len())?;
    turns.settle_all(needs, everyone(alloc, needs.len())?.as_slice())?;
    while turns.step(alloc, needs)? {}
    Ok(turns)
}
