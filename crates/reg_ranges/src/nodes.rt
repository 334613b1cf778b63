//! What registers and ranges ask of nodes.

ghost use Rattle.std.specs.Prelude.{◌≡◌, ◌≤◌, ◌<◌, IfSome, length};
ghost use Rattle.edt_base.specs.Nodes.{prop_at};
ghost use Rattle.reg_ranges.specs.Cutting.{address_cells, size_cells};

use crate::cells::cell_count;
use edt_base::{NodeId, Tree};

/// How many cells an address of the node's children has; `None` where the node says so wrongly.
pub(crate) fn address_cells(t: &Tree, id: NodeId) -> Option<usize>
    requires { id < length t.now.nodes }
    ensures count { result ≡ address_cells t.now.nodes id }
    ensures bound { IfSome result (λ n. n ≤ 4) }
{
    cell_count(t.prop(id, "#address-cells"), 2)
}

/// How many cells a size of the node's children has; `None` where the node says so wrongly.
pub(crate) fn size_cells(t: &Tree, id: NodeId) -> Option<usize>
    requires { id < length t.now.nodes }
    ensures count { result ≡ size_cells t.now.nodes id }
    ensures bound { IfSome result (λ n. n ≤ 4) }
{
    cell_count(t.prop(id, "#size-cells"), 1)
}
