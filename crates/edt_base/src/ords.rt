//! Ordinals in rising order, so that names and headers need no memory for them.

ghost use Rattle.std.specs.Prelude.{◌≡◌, IfOk, map};
ghost use Rattle.std.specs.Ordering.{nat_cmp};
ghost use Rattle.edt_base.specs.Ords.{ord_at, ords_of, rising};

use crate::{BoundNode, NodeId};
use std::alloc::{AllocError, Global};
use std::marker::Model;

/// The ordinals, rising, of the nodes that a node requires and of those that require it.
#[derive(Drop)]
pub(crate) struct Ords {
    pub(crate) needs: Vec<u32>,
    pub(crate) supports: Vec<u32>,
}

impl Model for Ords {
    ghost use Rattle.edt_base.specs.Ords.{OrdsData};

    ghost Value = { OrdsData };

    ghost view = { λ o. record { needs = o.needs.items; supports = o.supports.items } };
}

/// The ordinals of each node. The one error is want of memory.
pub(crate) fn all_ords(alloc: Global, nodes: &[BoundNode]) -> Result<Vec<Ords>, AllocError>
    ensures { IfOk result (λ v. v.items ≡ map (ords_of nodes.now) nodes.now) }
{
    let mut ords = Vec::with_capacity(alloc, nodes.len())?;
    for node in nodes {
        ords.push(Ords {
            needs: ords_rising(alloc, nodes, node.needs.as_slice())?,
            supports: ords_rising(alloc, nodes, node.supports.as_slice())?,
        })?;
    }
    Ok(ords)
}

// The ordinals of some nodes, rising.
fn ords_rising(alloc: Global, nodes: &[BoundNode], ids: &[NodeId]) -> Result<Vec<u32>, AllocError>
    ensures { IfOk result (λ v. v.items ≡ rising (map (ord_at nodes.now) ids.now)) }
{
    let mut ords = Vec::with_capacity(alloc, ids.len())?;
    for id in ids {
        ords.push(ord_at(nodes, *id))?;
    }
    sort(&mut ords);
    Ok(ords)
}

fn sort(ords: &mut Vec<u32>)
    ensures { ords.new.items ≡ rising ords.old.items }
{
    ords.sort_unstable();
}

// The ordinal of a node, 0 past the nodes.
fn ord_at(nodes: &[BoundNode], id: NodeId) -> u32
    ensures { result ≡ ord_at nodes.now id }
{
    match nodes.get(id.0 as usize) {
        Some(node) => node.ord,
        None => 0,
    }
}
