//! Where specifiers end that go through interrupt maps with the unit address of their node.

ghost use Rattle.std.specs.Prelude.{◌≡◌, ◌<◌, IfErr, IfOk, IfSome, Ok, drop, length, option_map};
ghost use Rattle.edt_base.specs.Refusals.{IsStop};
ghost use Rattle.irq_map.specs.Unit.{address_width, arrived, cells_in, first_cells, through_maps, unit_of, unit_width};
ghost use Rattle.irq_map.specs.Written.{interrupt};

use edt_base::{NodeId, PropVal, Rule, Stop, Tree};
use pha_nexus::{Space, Specifier, cell_count, go_along};
use std::alloc::{AllocError, Global};

/// The unit address of a node: the first cells of its `reg`. None where there aren't as many as the
/// node's parent says.
pub(crate) fn unit_of(alloc: Global, t: &Tree, id: NodeId) -> Result<Option<Vec<u32>>, AllocError>
    requires { id < length t.now.nodes }
    ensures { IfOk result (λ unit. option_map (λ v. v.items) unit ≡ unit_of t.now.nodes id) }
{
    let width = unit_width(t, t.parent(id));
    let cells = cells_in(alloc, t.prop(id, "reg"))?;
    Ok(first_cells(cells, width))
}

fn unit_width(t: &Tree, parent: Option<NodeId>) -> usize
    requires { IfSome parent (λ up. up < length t.now.nodes) }
    ensures { result ≡ unit_width t.now.nodes parent }
{
    match parent {
        Some(up) => cell_count(t, up, "#address-cells").unwrap_or(2) as usize,
        None => 0,
    }
}

fn cells_in(alloc: Global, value: Option<&PropVal>) -> Result<Vec<u32>, AllocError>
    ensures { IfOk result (λ v. v.items ≡ cells_in (option_map (λ v. v.now) value.entry)) }
{
    match value {
        Some(value) => value.cells(alloc),
        None => Ok(Vec::new(alloc)),
    }
}

fn first_cells(cells: Vec<u32>, count: usize) -> Option<Vec<u32>>
    ensures { option_map (λ v. v.items) result ≡ first_cells count cells.items }
{
    if cells.len() < count {
        return None;
    }
    let mut cells = cells;
    cells.truncate(count);
    Some(cells)
}

/// Where a specifier ends of a node with this unit address, and as what: at its controller, or
/// where the maps lead from there, without the address that stands in front of it then. The fault
/// is V34 where there is a map and no unit address, else the first on the way.
pub(crate) fn arrived(
    alloc: Global,
    t: &Tree,
    space: &Space<'_>,
    unit: Option<&[u32]>,
    start: Specifier,
) -> Result<Specifier, Stop>
    requires space { space.now ≡ interrupt }
    requires there { start.node < length t.now.nodes }
    ensures end { IfOk result (λ end. arrived t.now.nodes (option_map (λ u. u.now) unit.entry) start
        ≡ Ok end) }
    ensures there { IfOk result (λ end. end.node < length t.now.nodes) }
    ensures stop { IfErr result
        (IsStop (arrived t.now.nodes (option_map (λ u. u.now) unit.entry) start)) }
{
    if space.map(t, start.node).is_none() {
        return Ok(start);
    }
    match unit {
        Some(unit) => through_maps(alloc, t, space, unit, start),
        None => Err(Stop::Broken(Rule::V34)),
    }
}

fn through_maps(
    alloc: Global,
    t: &Tree,
    space: &Space<'_>,
    unit: &[u32],
    start: Specifier,
) -> Result<Specifier, Stop>
    requires space { space.now ≡ interrupt }
    requires there { start.node < length t.now.nodes }
    ensures end { IfOk result (λ end. through_maps t.now.nodes (Some unit.now) start ≡ Ok end) }
    ensures there { IfOk result (λ end. end.node < length t.now.nodes) }
    ensures stop { IfErr result (IsStop (through_maps t.now.nodes (Some unit.now) start)) }
{
    let mut spec = Vec::from_slice(alloc, unit)?;
    spec.extend_from_slice(start.cells.as_slice())?;
    match go_along(alloc, t, space, start.node, spec) {
        Ok((node, cells)) => {
            let cells = without_first(alloc, cells.as_slice(), address_width(t, node))?;
            Ok(Specifier { node, cells })
        }
        Err(stop) => Err(stop),
    }
}

// How many cells of an address stand in front of a specifier at a node to which a map leads.
fn address_width(t: &Tree, id: NodeId) -> usize
    requires { id < length t.now.nodes }
    ensures { result ≡ address_width t.now.nodes id }
{
    cell_count(t, id, "#address-cells").unwrap_or(0) as usize
}

fn without_first(alloc: Global, cells: &[u32], count: usize) -> Result<Vec<u32>, AllocError>
    ensures { IfOk result (λ v. v.items ≡ drop count cells.now) }
{
    let (_, rest) = cells.split_at(count.min(cells.len()));
    Vec::from_slice(alloc, rest)
}
