//! How deep a node stands, told from that of the node before it.

ghost use Rattle.std.specs.Prelude.{◌≡◌, ◌-◌, ◌≤◌, unwrap_or};
ghost use Rattle.edt_base.specs.TreeData.{parent_of};
ghost use Rattle.dts_print.specs.Inner.Steps.{depth_of, kept_open};

use edt_base::{NodeId, NodeRec};

/// How many nodes a node at a place stands in, from its parent and how many are open when it comes.
/// Goes up from the node before it, which is the innermost of these, as far as nodes close: over
/// all nodes no more steps than there are nodes.
pub(crate) fn depth_of(
    nodes: &[NodeRec],
    parent: Option<NodeId>,
    opened: usize,
    place: usize,
) -> usize
    ensures depth { result ≡ depth_of nodes.now parent opened (place - 1) }
    ensures within { result ≤ opened }
{
    match parent {
        Some(parent) => kept_open(nodes, parent.0 as usize, opened, place.saturating_sub(1)),
        None => 0,
    }
}

// Of so many open nodes, whose innermost is at a place, those that a child of the parent stands in.
#[tactic(auto, using(crate::proofs::Steps::kept_open_steps))]
fn kept_open(nodes: &[NodeRec], parent: usize, opened: usize, innermost: usize) -> usize
    ensures kept { result ≡ kept_open nodes.now parent opened innermost }
    ensures within { result ≤ opened }
{
    let mut left = opened;
    let mut at = innermost;
    while left > 0 && at != parent {
        at = parent_at(nodes, at);
        left -= 1;
    }
    left
}

// The place of the parent of the node at a place, 0 where there is none.
fn parent_at(nodes: &[NodeRec], place: usize) -> usize
    ensures { result ≡ unwrap_or (parent_of nodes.now place) 0 }
{
    match nodes.get(place) {
        Some(node) => match node.parent {
            Some(parent) => parent.0 as usize,
            None => 0,
        },
        None => 0,
    }
}
