//! Cuts what a node writes of its interrupts into specifiers.

ghost use Rattle.std.specs.Prelude.{◌≡◌, ◌<◌, IfErr, IfOk, IfSome, All, Ok, drop, length, map, option_and_then, option_map, position};
ghost use Rattle.edt_base.specs.NodeData.{bytes_of, has_phandle};
ghost use Rattle.edt_base.specs.Refusals.{IsStop};
ghost use Rattle.edt_base.specs.Values.{single_cell, value_cells};
ghost use Rattle.pha_nexus.specs.Cutting.{cut_after, first_entry};
ghost use Rattle.pha_nexus.specs.Passing.{Hop};
ghost use Rattle.reg_ranges.specs.Cutting.{are_whole, entries};
ghost use Rattle.irq_map.specs.Written.{all_of, controller_by, cut_by, extended_in, first_at, interrupt, interrupt_parent, of_interrupts, plain_in, specified};

use edt_base::{NodeId, PropVal, Rule, Stop, Tree};
use pha_nexus::{Space, Specifier, first_entry, has_rest};
use std::alloc::{AllocError, Global};

/// The specifiers of a value of `interrupts-extended`. The fault is V20 where no node has an
/// entry's phandle, or the entry is unspecified, V32 where the node doesn't say how many cells its
/// specifiers have, V22 where these aren't there.
pub(crate) fn extended_in(
    alloc: Global,
    t: &Tree,
    space: &Space<'_>,
    value: &PropVal,
) -> Result<Vec<Specifier>, Stop>
    requires { space.now ≡ interrupt }
    ensures cut { IfOk result (λ v. extended_in t.now.nodes value.now ≡ Ok v.items) }
    ensures there { IfOk result
        (λ v. All (λ (s : Hop). s.node < length t.now.nodes) v.items) }
    ensures stop { IfErr result (IsStop (extended_in t.now.nodes value.now)) }
{
    let cells = value.cells(alloc)?;
    let cells = cells.as_slice();
    extended_from(alloc, t, space, cells, has_rest(value, cells))
}

// The same of these cells, behind which there may be a rest of a cell.
fn extended_from(
    alloc: Global,
    t: &Tree,
    space: &Space<'_>,
    cells: &[u32],
    rest: bool,
) -> Result<Vec<Specifier>, Stop>
    requires { space.now ≡ interrupt }
    ensures cut { IfOk result (λ v. all_of (map specified
        (cut_after t.now.nodes interrupt rest 0 cells.now)) ≡ Ok v.items) }
    ensures there { IfOk result
        (λ v. All (λ (s : Hop). s.node < length t.now.nodes) v.items) }
    ensures stop { IfErr result (IsStop (all_of (map specified
        (cut_after t.now.nodes interrupt rest 0 cells.now)))) }
{
    let mut left = cells;
    let mut read = Vec::new(alloc);
    while let Some((phandle, behind)) = left.split_first() {
        let (first, next) = match specified(alloc, t, space, *phandle, behind) {
            Ok(cut) => cut,
            Err(stop) => return Err(stop),
        };
        read.push(first)?;
        left = next;
    }
    if rest {
        return Err(Stop::Broken(Rule::V20));
    }
    Ok(read)
}

// The specifier behind this phandle, and the cells that are left behind it.
fn specified<'c>(
    alloc: Global,
    t: &Tree,
    space: &Space<'_>,
    phandle: u32,
    behind: &'c [u32],
) -> Result<(Specifier, &'c [u32]), Stop>
    requires { space.now ≡ interrupt }
    ensures cut { IfOk result (λ r. specified
        (first_entry t.now.nodes interrupt phandle behind.now) ≡ Ok r.0) }
    ensures rest { IfOk result (λ r. r.1.now ≡ drop (length r.0.spec) behind.now) }
    ensures there { IfOk result (λ r. r.0.node < length t.now.nodes) }
    ensures stop { IfErr result (IsStop (specified
        (first_entry t.now.nodes interrupt phandle behind.now))) }
{
    match first_entry(alloc, t, space, phandle, behind) {
        Ok((first, rest)) => match first {
            Some(first) => Ok((first, rest)),
            None => Err(Stop::Broken(Rule::V20)),
        },
        Err(Stop::Broken(rule)) => Err(Stop::Broken(of_interrupts(rule))),
        Err(Stop::Memory(e)) => Err(Stop::Memory(e)),
    }
}

fn of_interrupts(rule: Rule) -> Rule
    ensures { result ≡ of_interrupts rule }
{
    match rule {
        Rule::V21 => Rule::V32,
        _ => rule,
    }
}

/// The specifiers of a value of `interrupts` of a node. The fault is V30 where neither the node nor
/// one above it has `interrupt-parent`, V20 where the nearest isn't a node's phandle, V32 where
/// this node doesn't say how many cells its specifiers have, V33 where the value isn't whole
/// specifiers.
pub(crate) fn plain_in(
    alloc: Global,
    t: &Tree,
    space: &Space<'_>,
    id: NodeId,
    value: &PropVal,
) -> Result<Vec<Specifier>, Stop>
    requires space { space.now ≡ interrupt }
    requires there { id < length t.now.nodes }
    ensures cut { IfOk result (λ v. plain_in t.now.nodes id value.now ≡ Ok v.items) }
    ensures there { IfOk result
        (λ v. All (λ (s : Hop). s.node < length t.now.nodes) v.items) }
    ensures stop { IfErr result (IsStop (plain_in t.now.nodes id value.now)) }
{
    match controller_by(t, interrupt_parent(t, id)) {
        Ok(node) => cut_by(alloc, t, node, value, space.width(t, node)),
        Err(rule) => Err(Stop::Broken(rule)),
    }
}

// The first `interrupt-parent` from a node upward.
fn interrupt_parent<'t>(t: &'t Tree, id: NodeId) -> Option<&'t PropVal>
    requires { id < length t.now.nodes }
    ensures { option_map (λ v. v.now) result ≡ interrupt_parent t.now.nodes id }
{
    t.is_well_formed();
    let mut at = id;
    loop {
        if let Some(value) = t.prop(at, "interrupt-parent") {
            return Some(value);
        }
        at = t.parent(at)?;
    }
}

// The node that a value of `interrupt-parent` names.
fn controller_by(t: &Tree, value: Option<&PropVal>) -> Result<NodeId, Rule>
    ensures controller { result ≡ controller_by t.now.nodes (option_map (λ v. v.now) value.entry) }
    ensures there { IfOk result (λ node. node < length t.now.nodes) }
{
    let Some(value) = value else {
        return Err(Rule::V30);
    };
    match named_by(t, value) {
        Some(node) => Ok(node),
        None => Err(Rule::V20),
    }
}

// The node whose phandle a value is.
fn named_by(t: &Tree, value: &PropVal) -> Option<NodeId>
    ensures node { result ≡ option_and_then (λ phandle. position (has_phandle phandle) t.now.nodes)
        (single_cell value.now) }
    ensures there { IfSome result (λ node. node < length t.now.nodes) }
{
    t.by_phandle(value.single_cell()?)
}

// The specifiers of a value at a controller that wants so many cells of each.
fn cut_by(
    alloc: Global,
    t: &Tree,
    node: NodeId,
    value: &PropVal,
    width: Option<u32>,
) -> Result<Vec<Specifier>, Stop>
    requires { node < length t.now.nodes }
    ensures cut { IfOk result (λ v. cut_by node value.now width ≡ Ok v.items) }
    ensures there { IfOk result
        (λ v. All (λ (s : Hop). s.node < length t.now.nodes) v.items) }
    ensures stop { IfErr result (IsStop (cut_by node value.now width)) }
{
    let Some(width) = width else {
        return Err(Stop::Broken(Rule::V32));
    };
    let cells = value.cells(alloc)?;
    let cells = cells.as_slice();
    if !is_whole(value, cells, width) {
        return Err(Stop::Broken(Rule::V33));
    }
    let specs = specifiers(alloc, t, node, cells, width as usize)?;
    Ok(specs)
}

// Whether a value of these cells is whole specifiers of so many.
fn is_whole(value: &PropVal, cells: &[u32], width: u32) -> bool
    requires { cells.now ≡ value_cells value.now }
    ensures { result ≡ are_whole width (length (bytes_of value.now)) }
{
    let bytes = value.byte_len();
    if width == 0 {
        bytes == 0
    } else {
        bytes % (4 * u64::from(width)) == 0
    }
}

// The specifiers of cells, of so many each.
fn specifiers(
    alloc: Global,
    t: &Tree,
    node: NodeId,
    cells: &[u32],
    width: usize,
) -> Result<Vec<Specifier>, AllocError>
    requires some { 0 < length cells.now → 0 < width }
    requires there { node < length t.now.nodes }
    ensures cut { IfOk result (λ v. v.items ≡ entries (first_at node width) width cells.now) }
    ensures there { IfOk result
        (λ v. All (λ (s : Hop). s.node < length t.now.nodes) v.items) }
{
    let _ = t;
    let mut left = cells;
    let mut specs = Vec::new(alloc);
    while !left.is_empty() {
        let (first, rest) = left.split_at(width.min(left.len()));
        specs.push(Specifier {
            node,
            cells: Vec::from_slice(alloc, first)?,
        })?;
        left = rest;
    }
    Ok(specs)
}
