//! Cuts values of phandles with specifiers into entries.

ghost use Rattle.std.specs.Prelude.{◌≡◌, ◌<◌, IfOk, IfErr, IfSome, Ok, drop, length, position};
ghost use Rattle.edt_base.specs.NodeData.{has_phandle};
ghost use Rattle.edt_base.specs.Refusals.{IsStop};
ghost use Rattle.pha_nexus.specs.Cutting.{cells_behind, first_entry, specified, specified_at};

use crate::space::Space;
use edt_base::{NodeId, Rule, Stop, Tree};
use std::alloc::Global;
use std::marker::Model;

/// A specifier at a node (Devicetree Specification v0.4, 2.5).
#[derive(Drop)]
pub struct Specifier {
    /// The node: the controller that it is for, or a nexus on its way.
    pub node: NodeId,
    /// The cells.
    pub cells: Vec<u32>,
}

impl Model for Specifier {
    ghost use Rattle.pha_nexus.specs.Passing.{Hop};

    ghost Value = { Hop };

    ghost view = { λ s. record { node = s.node; spec = s.cells.items } };
}

/// The entry of this first cell, and the cells that are left behind it; None for an unspecified
/// entry. The fault is V20 where no node has the phandle, V21 where the node doesn't say how many
/// cells its specifiers have, V22 where these aren't there.
pub fn first_entry<'c>(
    alloc: Global,
    t: &Tree,
    space: &Space<'_>,
    phandle: u32,
    behind: &'c [u32],
) -> Result<(Option<Specifier>, &'c [u32]), Stop>
    ensures cut { IfOk result (λ r. first_entry t.now.nodes space.now phandle behind.now ≡ Ok r.0) }
    ensures rest { IfOk result (λ r. r.1.now ≡ drop (cells_behind r.0) behind.now) }
    ensures there { IfOk result (λ r. IfSome r.0 (λ s. s.node < length t.now.nodes)) }
    ensures stop { IfErr result (IsStop (first_entry t.now.nodes space.now phandle behind.now)) }
{
    if phandle == 0 {
        return Ok((None, behind));
    }
    let Some(node) = t.by_phandle(phandle) else {
        return Err(Stop::Broken(Rule::V20));
    };
    specified(alloc, node, behind, space.width(t, node))
}

// The specifier of a node that wants so many cells, and the cells that are left behind it.
fn specified<'c>(
    alloc: Global,
    node: NodeId,
    behind: &'c [u32],
    width: Option<u32>,
) -> Result<(Option<Specifier>, &'c [u32]), Stop>
    ensures cut { IfOk result (λ r. specified node behind.now width ≡ Ok r.0) }
    ensures rest { IfOk result (λ r. r.1.now ≡ drop (cells_behind r.0) behind.now) }
    ensures there { IfOk result (λ r. IfSome r.0 (λ s. s.node ≡ node)) }
    ensures stop { IfErr result (IsStop (specified node behind.now width)) }
{
    let Some(width) = width else {
        return Err(Stop::Broken(Rule::V21));
    };
    let width = width as usize;
    if behind.len() < width {
        return Err(Stop::Broken(Rule::V22));
    }
    let (cells, rest) = behind.split_at(width);
    let cells = Vec::from_slice(alloc, cells)?;
    Ok((Some(Specifier { node, cells }), rest))
}
