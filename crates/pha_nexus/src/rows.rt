//! The rows of a nexus node's map, read one after another.

ghost use Rattle.std.specs.Prelude.{◌≡◌, ◌<◌, ◌∷◌, [], IfOk, IfErr, IfSome, MatchOption, Ok, length, position};
ghost use Rattle.edt_base.specs.Cells.{cells_of};
ghost use Rattle.edt_base.specs.NodeData.{has_phandle};
ghost use Rattle.edt_base.specs.Refusals.{IsStop};
ghost use Rattle.pha_nexus.specs.Inner.Reading.{rows_left};
ghost use Rattle.pha_nexus.specs.Rows.{lead_to, rows_of, taken};

use crate::cells::{begin_with, parent_cells, skip};
use crate::space::Space;
use edt_base::{Cells, NodeId, Part, Rule, Stop, Tree};
use std::alloc::Global;

/// Where a row leads.
#[derive(Clone, Copy, Debug)]
pub(crate) struct Lead {
    /// The node of its phandle.
    pub(crate) node: NodeId,
    /// How many parent cells that one wants.
    pub(crate) width: usize,
}

/// A row that is taken.
#[derive(Drop)]
pub(crate) struct Exit {
    /// The node that it leads to.
    pub(crate) node: NodeId,
    /// Its parent cells.
    pub(crate) parent: Vec<u32>,
}

/// The first row of a map whose child cells are these. The fault is V27 where there is none, or the
/// first that a row before it has.
pub(crate) fn taken_row(
    alloc: Global,
    t: &Tree,
    space: &Space<'_>,
    child: &[u32],
    map: &[Part],
) -> Result<Exit, Stop>
    ensures row { IfOk result (λ e. taken child.now (rows_of t.now.nodes space.now
        (length child.now) map.now) ≡ Ok (record { child = child.now; node = e.node; parent = e.parent.items })) }
    ensures there { IfOk result (λ e. e.node < length t.now.nodes) }
    ensures stop { IfErr result (IsStop (taken child.now (rows_of t.now.nodes space.now
        (length child.now) map.now))) }
{
    let mut cells = Cells::of(map);
    while !cells.is_at_end() {
        if let Some(exit) = read_row(alloc, t, space, child, &mut cells)? {
            return Ok(exit);
        }
    }
    Err(Stop::Broken(Rule::V27))
}

// Reads a row. Gives it where its child cells are these.
fn read_row(
    alloc: Global,
    t: &Tree,
    space: &Space<'_>,
    child: &[u32],
    cells: &mut Cells<'_>,
) -> Result<Option<Exit>, Stop>
    requires { 0 < length cells.old }
    ensures row { IfOk result (λ row. MatchOption row
        ((taken child.now (rows_left t.now.nodes space.now (length child.now) cells.old)
        ≡ taken child.now (rows_left t.now.nodes space.now (length child.now) cells.new))
        × (length cells.new < length cells.old))
        (λ e. (taken child.now (rows_left t.now.nodes space.now (length child.now) cells.old)
        ≡ Ok (record { child = child.now; node = e.node; parent = e.parent.items }))
        × (e.node < length t.now.nodes))) }
    ensures stop { IfErr result (IsStop (taken child.now
        (rows_left t.now.nodes space.now (length child.now) cells.old))) }
{
    let is_same = begin_with(cells, child);
    let Some(phandle) = cells.next() else {
        return Err(Stop::Broken(Rule::V26));
    };
    let lead = match lead_to(t, space, phandle) {
        Ok(lead) => lead,
        Err(rule) => return Err(Stop::Broken(rule)),
    };
    if is_same {
        return match parent_cells(alloc, cells, lead.width) {
            Ok(parent) => Ok(Some(Exit {
                node: lead.node,
                parent,
            })),
            Err(stop) => Err(stop),
        };
    }
    if skip(cells, lead.width) {
        Ok(None)
    } else {
        Err(Stop::Broken(Rule::V26))
    }
}

fn lead_to(t: &Tree, space: &Space<'_>, phandle: u32) -> Result<Lead, Rule>
    ensures place { result
        ≡ lead_to t.now.nodes space.now (position (has_phandle phandle) t.now.nodes) }
    ensures there { IfOk result (λ lead. lead.node < length t.now.nodes) }
{
    let Some(node) = t.by_phandle(phandle) else {
        return Err(Rule::V20);
    };
    match space.parent_width(t, node) {
        Ok(width) => Ok(Lead { node, width }),
        Err(rule) => Err(rule),
    }
}
