//! The definitions of a node that say where it stands: its path and name, its parent and its place
//! among its siblings, its ordinal.

ghost use Rattle.std.specs.Prelude.{◌≡◌};
ghost use Rattle.edt_base.specs.Nodes.{path_at};
ghost use Rattle.edt_base.specs.Ords.{ords_at};
ghost use Rattle.dt_names.specs.Facts.{path_facts, order_facts};

use crate::child_place::child_place;
use crate::fact::Queue;
use crate::piece::Piece;
use crate::row::{At, Body, Ending};
use crate::rows::{number, plain};
use edt_base::{Bound, BoundNode, NodeId, NodeRec};

/// The path, the name, the parent and the place among siblings.
pub(crate) fn path_rows<'a>(bound: &'a Bound, n: u32, node: &'a NodeRec) -> Queue<'a>
    requires { path_at bound.now.tree.nodes n ≡ node.now.path }
    ensures { result ≡ path_facts bound.now.tree.nodes n node.now }
{
    let path = plain(
        n,
        At::Itself,
        Ending::Mark("_PATH"),
        Body::One(Piece::Str(node.path.as_str().as_bytes())),
    );
    let name = plain(
        n,
        At::Itself,
        Ending::Mark("_FULL_NAME"),
        Body::One(Piece::Str(node.name.as_str().as_bytes())),
    );
    match &node.parent {
        Some(up) => {
            let place = child_place(bound, up.0, n) as u128;
            let parent = plain(
                n,
                At::Itself,
                Ending::Mark("_PARENT"),
                Body::Id(up.0 as usize),
            );
            let among = number(n, At::Itself, Ending::Mark("_CHILD_IDX"), place);
            Queue::four(bound, Some(path), Some(name), Some(parent), Some(among))
        }
        None => Queue::four(bound, Some(path), Some(name), None, None),
    }
}

/// That the node is there, its ordinal, and the ordinals of what it requires and supports.
pub(crate) fn order_rows<'a>(bound: &'a Bound, n: u32, node: &'a BoundNode) -> Queue<'a>
    ensures { result
        ≡ order_facts n (path_at bound.now.tree.nodes n) (ords_at bound.now.nodes n) node.now }
{
    let needs = bound.needs_ords(NodeId(n));
    let supports = bound.supports_ords(NodeId(n));
    Queue::four(
        bound,
        Some(number(n, At::Itself, Ending::Mark("_EXISTS"), 1)),
        Some(number(n, At::Itself, Ending::Mark("_ORD"), node.ord as u128)),
        Some(plain(
            n,
            At::Itself,
            Ending::Mark("_REQUIRES_ORDS"),
            Body::Ords(needs),
        )),
        Some(plain(
            n,
            At::Itself,
            Ending::Mark("_SUPPORTS_ORDS"),
            Body::Ords(supports),
        )),
    )
}
