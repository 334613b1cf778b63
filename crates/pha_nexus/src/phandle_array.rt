//! The entries of a phandle-array.

ghost use Rattle.std.specs.Prelude.{◌≡◌, ◌<◌, IfOk, IfErr, Ok, length, option_map};
ghost use Rattle.edt_base.specs.NodeData.{bytes_of};
ghost use Rattle.edt_base.specs.Nodes.{path_at};
ghost use Rattle.edt_base.specs.Refusals.{IsRefused, IsStop};
ghost use Rattle.edt_base.specs.Values.{name_parts, value_cells};
ghost use Rattle.pha_nexus.specs.Cutting.{cut_after};
ghost use Rattle.pha_nexus.specs.Matching.{IsMatches};
ghost use Rattle.pha_nexus.specs.Naming.{cell_names, entries_from, entries_in, entries_of, names_at};
ghost use Rattle.pha_nexus.specs.Rows.{has_rest};

use crate::cutting::first_entry;
use crate::matches::Matches;
use crate::naming::entry_of;
use crate::space::Space;
use bind_merge::Library;
use edt_base::{End, Entry, NodeId, PropVal, Rule, Stop, Text, Tree, entry_name, names_fit};
use std::alloc::{AllocError, Global};

/// The entries of a node's property of the type phandle-array (Zephyr 3.7, "Devicetree bindings
/// syntax"), whose specifiers are of this space, as `gpio`. A cell 0 is an unspecified entry. Any
/// other first cell of an entry is a phandle, behind which stand as many cells as its node's
/// `#<space>-cells` says. The specifier is followed through maps, as `follow` does, and the binding
/// of the node at which it ends names its cells by `<space>-cells`; one without such names gives
/// none. `<space>-names` names the entries of the property `<space>s` and of no other. A property
/// that isn't there has no entries.
///
/// The fault is told at the node, and is the first of these. By entry: V20 where no node has the
/// phandle, V21 where the node has no count of cells, V22 where these aren't there, then those that
/// `follow` tells, then V23 where the last node has no binding, V24 where the binding doesn't name
/// as many cells. After all entries V25 where the names aren't as many strings as the entries, the
/// unspecified ones counted.
///
/// `m` must be the matches of this tree and library.
pub fn entries(
    alloc: Global,
    t: &Tree,
    lib: &Library,
    m: &Matches,
    id: NodeId,
    name: &Text,
    space: &Text,
) -> Result<Vec<Option<Entry>>, End>
    requires there { id < length t.now.nodes }
    requires matches { IsMatches t.now.nodes lib.now m.now }
    ensures entries { IfOk result
        (λ v. entries_of t.now.nodes lib.now id name.now space.now ≡ Ok v.items) }
    ensures refused { IfErr result (IsRefused
        (entries_of t.now.nodes lib.now id name.now space.now) (path_at t.now.nodes id)) }
{
    match entries_at(alloc, t, lib, m, id, name, space) {
        Ok(entries) => Ok(entries),
        Err(stop) => Err(t.node(id).told(alloc, stop)),
    }
}

// The same without the place of a fault.
fn entries_at(
    alloc: Global,
    t: &Tree,
    lib: &Library,
    m: &Matches,
    id: NodeId,
    name: &Text,
    space: &Text,
) -> Result<Vec<Option<Entry>>, Stop>
    requires there { id < length t.now.nodes }
    requires matches { IsMatches t.now.nodes lib.now m.now }
    ensures entries { IfOk result
        (λ v. entries_of t.now.nodes lib.now id name.now space.now ≡ Ok v.items) }
    ensures stop { IfErr result
        (IsStop (entries_of t.now.nodes lib.now id name.now space.now)) }
{
    let Some(value) = t.prop(id, name.as_str()) else {
        return Ok(Vec::new(alloc));
    };
    let names = names_at(alloc, t, id, name, space)?;
    let space = Space::new(alloc, space)?;
    match entries_in(alloc, t, lib, m, &space, names, value) {
        Ok(entries) => Ok(entries),
        Err(stop) => Err(stop),
    }
}

// The value that names the entries of a property.
fn names_at<'t>(
    alloc: Global,
    t: &'t Tree,
    id: NodeId,
    name: &Text,
    space: &Text,
) -> Result<Option<&'t PropVal>, AllocError>
    requires { id < length t.now.nodes }
    ensures { IfOk result (λ names. option_map (λ v. v.now) names
        ≡ names_at t.now.nodes id name.now space.now) }
{
    let space = space.as_str();
    let named = format!(in alloc; "{space}s")?;
    if name.as_str() != named.as_str() {
        return Ok(None);
    }
    let names = format!(in alloc; "{space}-names")?;
    Ok(t.prop(id, names.as_str()))
}

// The entries of a value with these names.
fn entries_in(
    alloc: Global,
    t: &Tree,
    lib: &Library,
    m: &Matches,
    space: &Space<'_>,
    names: Option<&PropVal>,
    value: &PropVal,
) -> Result<Vec<Option<Entry>>, Stop>
    requires matches { IsMatches t.now.nodes lib.now m.now }
    ensures entries { IfOk result (λ v. entries_in t.now.nodes space.now
        (cell_names t.now.nodes lib.now space.now) (option_map (λ n. n.now) names.entry) value.now
        ≡ Ok v.items) }
    ensures stop { IfErr result (IsStop (entries_in t.now.nodes space.now
        (cell_names t.now.nodes lib.now space.now) (option_map (λ n. n.now) names.entry)
        value.now)) }
{
    let cells = value.cells(alloc)?;
    let cells = cells.as_slice();
    let rest = has_rest(value, cells);
    let entries = match entries_from(alloc, t, lib, m, space, names, cells, rest) {
        Ok(entries) => entries,
        Err(stop) => return Err(stop),
    };
    if names_fit(entries.len(), names) {
        Ok(entries)
    } else {
        Err(Stop::Broken(Rule::V25))
    }
}

/// Whether there is a rest of 1 to 3 bytes behind the cells of a value, which must be these. Takes no
/// memory.
pub fn has_rest(value: &PropVal, cells: &[u32]) -> bool
    requires { cells.now ≡ value_cells value.now }
    ensures { result ≡ has_rest (length (bytes_of value.now)) }
{
    4 * (cells.len() as u64) < value.byte_len()
}

// The entries of these cells, behind which there may be a rest of a cell.
fn entries_from(
    alloc: Global,
    t: &Tree,
    lib: &Library,
    m: &Matches,
    space: &Space<'_>,
    names: Option<&PropVal>,
    cells: &[u32],
    rest: bool,
) -> Result<Vec<Option<Entry>>, Stop>
    requires matches { IsMatches t.now.nodes lib.now m.now }
    ensures entries { IfOk result (λ v. entries_from t.now.nodes space.now
        (cell_names t.now.nodes lib.now space.now)
        (name_parts (option_map (λ n. n.now) names.entry)) 0
        (cut_after t.now.nodes space.now rest 0 cells.now) ≡ Ok v.items) }
    ensures stop { IfErr result (IsStop (entries_from t.now.nodes space.now
        (cell_names t.now.nodes lib.now space.now)
        (name_parts (option_map (λ n. n.now) names.entry)) 0
        (cut_after t.now.nodes space.now rest 0 cells.now))) }
{
    let mut left = cells;
    let mut entries = Vec::new(alloc);
    while let Some((phandle, behind)) = left.split_first() {
        let (start, next) = match first_entry(alloc, t, space, *phandle, behind) {
            Ok(cut) => cut,
            Err(stop) => return Err(stop),
        };
        let name = entry_name(alloc, names, entries.as_slice().len())?;
        let entry = match entry_of(alloc, t, lib, m, space, name, start) {
            Ok(entry) => entry,
            Err(stop) => return Err(stop),
        };
        entries.push(entry)?;
        left = next;
    }
    if rest {
        return Err(Stop::Broken(Rule::V20));
    }
    Ok(entries)
}
