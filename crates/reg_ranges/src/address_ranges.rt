//! The ranges of a node.

ghost use Rattle.std.specs.Prelude.{◌≡◌, ◌+◌, ◌*◌, ◌^◌, ◌≤◌, ◌<◌, [], IfOk, IfErr, IfSome, Ok, length, drop, option_map, unwrap_or, nat_lt};
ghost use Rattle.std.specs.List.{list_any};
ghost use Rattle.edt_base.specs.Cells.{cells_of};
ghost use Rattle.edt_base.specs.NodeData.{bytes_of};
ghost use Rattle.edt_base.specs.Nodes.{path_at, prop_at};
ghost use Rattle.edt_base.specs.Refusals.{IsRefused, IsStop};
ghost use Rattle.edt_base.specs.Values.{value_cells};
ghost use Rattle.reg_ranges.specs.Cutting.{entries, are_whole};
ghost use Rattle.reg_ranges.specs.Ranges.{first_range, range_cells, is_beyond, ranges_cut, cut_ranges, shape_by, shape_of, shaped_ranges, ranges_below, ranges_of, IsSmall};

use crate::cells::{is_whole, number};
use crate::nodes::{address_cells, size_cells};
use edt_base::{Cells, End, NodeId, Part, Range, Rule, Stop, Tree};
use std::alloc::{AllocError, Global};

/// How many cells the numbers of a range have.
#[derive(Clone, Copy, Debug)]
pub(crate) struct Shape {
    pub(crate) child: usize,
    pub(crate) parent: usize,
    pub(crate) len: usize,
}

/// The ranges of a node: the entries of its `ranges` (Devicetree Specification v0.4, 2.3.8). The
/// node's own `#address-cells` says how many cells a child address has, its parent's how many a
/// parent address, and its own `#size-cells` how many a length; a number of no cells is 0. None at
/// the root, without `ranges` and with an empty one.
///
/// The fault is the first of these, at the node: V17 where one of the three counts isn't one cell
/// or is more than 4, V19 where the value isn't whole entries, V38 where a range ends beyond 2^128
/// among the child's or the parent's addresses.
pub fn ranges(alloc: Global, t: &Tree, id: NodeId) -> Result<Vec<Range>, End>
    requires { id < length t.now.nodes }
    ensures cut { IfOk result (λ v. ranges_of t.now.nodes id ≡ Ok v.items) }
    ensures refused { IfErr result (IsRefused (ranges_of t.now.nodes id) (path_at t.now.nodes id)) }
{
    match ranges_below(alloc, t, t.parent(id), id) {
        Ok(ranges) => Ok(ranges),
        Err(stop) => Err(t.node(id).told(alloc, stop)),
    }
}

// The ranges of a node with this parent.
fn ranges_below(
    alloc: Global,
    t: &Tree,
    parent: Option<NodeId>,
    id: NodeId,
) -> Result<Vec<Range>, Stop>
    requires there { id < length t.now.nodes }
    requires parent { IfSome parent (λ up. up < length t.now.nodes) }
    ensures cut { IfOk result
        (λ v. unwrap_or (ranges_below t.now.nodes parent id) (Ok []) ≡ Ok v.items) }
    ensures stop { IfErr result (IsStop (unwrap_or (ranges_below t.now.nodes parent id) (Ok []))) }
{
    let Some(up) = parent else {
        return Ok(Vec::new(alloc));
    };
    let Some(value) = t.prop(id, "ranges") else {
        return Ok(Vec::new(alloc));
    };
    shaped_ranges(alloc, shape_of(t, up, id), value.parts.as_slice())
}

// The counts of cells of a node's ranges; `None` where one of them is wrong.
pub(crate) fn shape_of(t: &Tree, up: NodeId, id: NodeId) -> Option<Shape>
    requires up { up < length t.now.nodes }
    requires there { id < length t.now.nodes }
    ensures shape { result ≡ shape_of t.now.nodes up id }
    ensures small { IfSome result IsSmall }
{
    shape_by(
        address_cells(t, id),
        address_cells(t, up),
        size_cells(t, id),
    )
}

fn shape_by(child: Option<usize>, parent: Option<usize>, len: Option<usize>) -> Option<Shape>
    requires child { IfSome child (λ n. n ≤ 4) }
    requires parent { IfSome parent (λ n. n ≤ 4) }
    requires len { IfSome len (λ n. n ≤ 4) }
    ensures shape { result ≡ shape_by child parent len }
    ensures small { IfSome result IsSmall }
{
    match (child, parent, len) {
        (Some(child), Some(parent), Some(len)) => Some(Shape { child, parent, len }),
        _ => None,
    }
}

fn shaped_ranges(alloc: Global, shape: Option<Shape>, value: &[Part]) -> Result<Vec<Range>, Stop>
    requires { IfSome shape IsSmall }
    ensures cut { IfOk result (λ v. shaped_ranges shape value.now ≡ Ok v.items) }
    ensures stop { IfErr result (IsStop (shaped_ranges shape value.now)) }
{
    match shape {
        Some(shape) => cut_ranges(alloc, shape, value),
        None => Err(Stop::Broken(Rule::V17)),
    }
}

// The ranges of a value, of so many cells.
fn cut_ranges(alloc: Global, shape: Shape, value: &[Part]) -> Result<Vec<Range>, Stop>
    requires { IsSmall shape }
    ensures cut { IfOk result (λ v. cut_ranges shape value.now ≡ Ok v.items) }
    ensures stop { IfErr result (IsStop (cut_ranges shape value.now)) }
{
    if !is_whole(value, range_cells(shape)) {
        return Err(Stop::Broken(Rule::V19));
    }
    if range_cells(shape) == 0 {
        return Ok(Vec::new(alloc));
    }
    let ranges = ranges_cut(alloc, Cells::of(value), shape)?;
    if any_beyond(ranges.as_slice()) {
        return Err(Stop::Broken(Rule::V38));
    }
    Ok(ranges)
}

pub(crate) fn range_cells(shape: Shape) -> usize
    requires { IsSmall shape }
    ensures { result ≡ range_cells shape }
{
    shape.child + shape.parent + shape.len
}

// The ranges of cells.
fn ranges_cut(alloc: Global, cells: Cells<'_>, shape: Shape) -> Result<Vec<Range>, AllocError>
    requires small { IsSmall shape }
    requires some { 0 < range_cells shape }
    ensures { IfOk result
        (λ v. v.items ≡ entries (first_range shape) (range_cells shape) (cells_of cells.entry)) }
{
    let mut cells = cells;
    let mut ranges = Vec::new(alloc);
    while !cells.is_empty() {
        ranges.push(first_range(&mut cells, shape))?;
    }
    Ok(ranges)
}

/// The first range of cells.
pub(crate) fn first_range(cells: &mut Cells<'_>, shape: Shape) -> Range
    requires { IsSmall shape }
    ensures range { result ≡ first_range shape (cells_of cells.old) }
    ensures rest { cells_of cells.new ≡ drop (range_cells shape) (cells_of cells.old) }
{
    let child = number(cells, shape.child);
    let parent = number(cells, shape.parent);
    let len = number(cells, shape.len);
    Range { child, parent, len }
}

fn any_beyond(ranges: &[Range]) -> bool
    ensures { result ≡ list_any is_beyond ranges.now }
{
    ranges.iter().any(|range| is_beyond(*range))
}

// Whether a range reaches beyond 128 bits, without a sum that does.
fn is_beyond(range: Range) -> bool
    ensures { result ≡ is_beyond range }
{
    ends_beyond(range.child, range.len) || ends_beyond(range.parent, range.len)
}

fn ends_beyond(first: u128, len: u128) -> bool
    ensures { result ≡ nat_lt (2 ^ 128) (first + len) }
{
    len > 0 && first > u128::MAX - (len - 1)
}
