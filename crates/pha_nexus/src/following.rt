//! Follows a specifier from nexus node to nexus node.

ghost use Rattle.std.specs.Prelude.{◌≡◌, ◌<◌, IfOk, IfErr, Ok, length};
ghost use Rattle.edt_base.specs.Nodes.{path_at};
ghost use Rattle.edt_base.specs.Refusals.{IsRefused, IsStop};
ghost use Rattle.pha_nexus.specs.Chain.{followed};

use crate::passing::pass;
use crate::space::Space;
use edt_base::{End, NodeId, Rule, Stop, Text, Tree};
use std::alloc::Global;

/// How many rows are taken at most.
const MOST_ROWS: u32 = 16;

/// Where a specifier of this space, as `gpio`, ends that arrives at the node `start`, and as what:
/// at each node with a map the first row is taken whose child cells are the masked specifier, and
/// leads on to another node with that row's parent cells, in which the pass-through keeps bits of
/// the specifier (Devicetree Specification v0.4, 2.5.1). In the space `interrupt` a row's parent
/// cells begin with an address, of as many cells as the row's node says; no unit address is put
/// before a specifier here, and none is cut off.
///
/// The fault is told at the node `from`, and is the first of these on the way. At each map: V29
/// where 16 rows are taken already, V28 where the mask or the pass-through isn't as long as the
/// specifier. Then by row, up to the one that is taken: V26 where child cells or the phandle aren't
/// there, V20 where no node has the phandle, V21 where the node has no count of cells (V32 in the
/// space `interrupt`), V26 where parent cells aren't there. V27 where no row is taken.
///
/// Takes time in proportion to the rows that are read, and memory for the specifier.
pub fn follow(
    alloc: Global,
    t: &Tree,
    from: NodeId,
    start: NodeId,
    space: &Text,
    spec: &Vec<u32>,
) -> Result<(NodeId, Vec<u32>), End>
    requires from { from < length t.now.nodes }
    requires start { start < length t.now.nodes }
    ensures ends { IfOk result (λ r. followed t.now.nodes space.now start spec.now.items
        ≡ Ok (record { node = r.0; spec = r.1.items })) }
    ensures there { IfOk result (λ r. r.0 < length t.now.nodes) }
    ensures refused { IfErr result (IsRefused (followed t.now.nodes space.now start spec.now.items)
        (path_at t.now.nodes from)) }
{
    match follow_from(alloc, t, start, space, spec.as_slice()) {
        Ok(end) => Ok(end),
        Err(stop) => Err(t.node(from).told(alloc, stop)),
    }
}

// The same without the place of a fault.
fn follow_from(
    alloc: Global,
    t: &Tree,
    start: NodeId,
    space: &Text,
    spec: &[u32],
) -> Result<(NodeId, Vec<u32>), Stop>
    requires { start < length t.now.nodes }
    ensures ends { IfOk result (λ r. followed t.now.nodes space.now start spec.now
        ≡ Ok (record { node = r.0; spec = r.1.items })) }
    ensures there { IfOk result (λ r. r.0 < length t.now.nodes) }
    ensures stop { IfErr result (IsStop (followed t.now.nodes space.now start spec.now)) }
{
    let space = Space::new(alloc, space)?;
    let spec = Vec::from_slice(alloc, spec)?;
    go_along(alloc, t, &space, start, spec)
}

/// Where a specifier ends, and as what; or the first rule that is broken on its way. It is what
/// `follow` tells, for callers that follow many specifiers of a space, or tell the fault elsewhere.
pub fn go_along(
    alloc: Global,
    t: &Tree,
    space: &Space<'_>,
    start: NodeId,
    spec: Vec<u32>,
) -> Result<(NodeId, Vec<u32>), Stop>
    requires { start < length t.now.nodes }
    ensures ends { IfOk result (λ r. followed t.now.nodes space.now start spec.items
        ≡ Ok (record { node = r.0; spec = r.1.items })) }
    ensures there { IfOk result (λ r. r.0 < length t.now.nodes) }
    ensures stop { IfErr result (IsStop (followed t.now.nodes space.now start spec.items)) }
{
    let mut at = start;
    let mut carried = spec;
    let mut left = MOST_ROWS;
    while let Some(map) = space.map(t, at) {
        if left == 0 {
            return Err(Stop::Broken(Rule::V29));
        }
        match pass(alloc, t, space, at, carried.as_slice(), map) {
            Ok((node, sent)) => {
                at = node;
                carried = sent;
            }
            Err(stop) => return Err(stop),
        }
        left -= 1;
    }
    Ok((at, carried))
}
