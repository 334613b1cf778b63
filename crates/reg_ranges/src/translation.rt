//! Addresses on their way up to the root.

ghost use Rattle.std.specs.Prelude.{◌≡◌, ◌+◌, ◌-◌, ◌*◌, ◌^◌, ◌≤◌, ◌<◌, [], true, false, All, IfSome, IsOk, Ok, Some, None, length, map, option_map, unwrap_or, ◌⊎◌};
ghost use Rattle.std.specs.List.{find};
ghost use Rattle.edt_base.specs.Cells.{cells_of};
ghost use Rattle.edt_base.specs.NodeData.{bytes_of};
ghost use Rattle.edt_base.specs.Nodes.{prop_at};
ghost use Rattle.edt_base.specs.TreeData.{ancestors, ancestors_within, parent_of};
ghost use Rattle.edt_base.specs.Values.{value_cells};
ghost use Rattle.reg_ranges.specs.Cutting.{entries};
ghost use Rattle.reg_ranges.specs.Ranges.{first_range, range_cells, ranges_cut, cut_ranges, shaped_ranges, ranges_below, ranges_of, IsSmall};
ghost use Rattle.reg_ranges.specs.Translation.{fits, moved, passed, passed_by, when_whole, way_through, translated, translation, AreWhole, IsWithin};

use crate::address_ranges::{Shape, first_range, range_cells, shape_of};
use edt_base::{Cells, NodeId, Part, Range, Tree};

// Whether an address is one of a range's child addresses, without the range's end.
fn fits(address: u128, range: Range) -> bool
    ensures { result ≡ fits address range }
{
    range.child <= address && address - range.child < range.len
}

// The address that the parent has for one that fits.
fn moved(address: u128, range: Range) -> u128
    requires fits { fits address range ≡ true }
    requires within { IsWithin range }
    ensures { result ≡ moved address range }
{
    range.parent + (address - range.child)
}

// Through the first range that fits.
fn first_fit(cells: Cells<'_>, shape: Shape, address: u128) -> Option<u128>
    requires small { IsSmall shape }
    requires some { 0 < range_cells shape }
    requires within { All IsWithin
        (entries (first_range shape) (range_cells shape) (cells_of cells)) }
    ensures { result
        ≡ option_map (moved address)
        (find (fits address) (entries (first_range shape) (range_cells shape)
        (cells_of cells.entry))) }
{
    let mut cells = cells;
    while !cells.is_empty() {
        let range = first_range(&mut cells, shape);
        if fits(address, range) {
            return Some(moved(address, range));
        }
    }
    None
}

// Through the ranges of a value. `None` where none fits.
fn pass_cut(shape: Shape, value: &[Part], address: u128) -> Option<u128>
    requires small { IsSmall shape }
    requires whole { IsOk (cut_ranges shape value.now) }
    ensures { result ≡ passed (when_whole (cut_ranges shape value.now)) address }
{
    let cells = Cells::of(value);
    if cells.is_empty() {
        return Some(address);
    }
    first_fit(cells, shape, address)
}

fn pass_shaped(shape: Option<Shape>, value: &[Part], address: u128) -> Option<u128>
    requires small { IfSome shape IsSmall }
    requires whole { IsOk (shaped_ranges shape value.now) }
    ensures { result ≡ passed (when_whole (shaped_ranges shape value.now)) address }
{
    match shape {
        Some(shape) => pass_cut(shape, value, address),
        None => None,
    }
}

// Through a node with this parent. `None` where translation stops there.
fn pass_below(t: &Tree, parent: Option<NodeId>, id: NodeId, address: u128) -> Option<u128>
    requires there { id < length t.now.nodes }
    requires parent { IfSome parent (λ up. up < length t.now.nodes) }
    requires whole { IsOk (unwrap_or (ranges_below t.now.nodes parent id) (Ok [])) }
    ensures { result ≡ passed_by (ranges_below t.now.nodes parent id) address }
{
    let Some(up) = parent else {
        return None;
    };
    let Some(value) = t.prop(id, "ranges") else {
        return None;
    };
    pass_shaped(shape_of(t, up, id), value.parts.as_slice(), address)
}

// Through the node at a place.
fn pass(t: &Tree, id: NodeId, address: u128) -> Option<u128>
    requires there { id < length t.now.nodes }
    requires whole { IsOk (ranges_of t.now.nodes id) }
    ensures { result ≡ passed (way_through t.now.nodes id) address }
{
    pass_below(t, t.parent(id), id, address)
}

/// An address of a node as the root sees it: from the node's parent upward, each node's `ranges`
/// lead it on (Devicetree Specification v0.4, 2.3.8). An empty `ranges` leaves it as it is; without
/// `ranges`, at the root, and where no range fits it, translation stops. The `ranges` of all nodes
/// above must be without fault, as `ranges` tells it. Reads each of these values once, and takes no
/// memory.
pub fn translate(t: &Tree, id: NodeId, a: u128) -> u128
    requires there { id < length t.now.nodes }
    requires whole { AreWhole t.now.nodes (ancestors t.now.nodes id) }
    ensures { result ≡ translation t.now.nodes id a }
{
    let mut at = id;
    let mut address = a;
    // No node has as many above it as there are nodes.
    for _ in 0..t.nodes().len() {
        let Some(up) = t.parent(at) else {
            return address;
        };
        let Some(next) = pass(t, up, address) else {
            return address;
        };
        at = up;
        address = next;
    }
    address
}
