//! Names the cells of specifiers by the bindings of the nodes where they end.

ghost use Rattle.std.specs.Prelude.{◌≡◌, ◌<◌, [], IfOk, IfErr, IfSome, Ok, length, option_map, unwrap_or, zip};
ghost use Rattle.edt_base.specs.Refusals.{IsStop};
ghost use Rattle.bind_merge.specs.ViewData.{cells_in};
ghost use Rattle.pha_nexus.specs.Chain.{followed};
ghost use Rattle.pha_nexus.specs.Matching.{IsMatches};
ghost use Rattle.pha_nexus.specs.Naming.{cell_names, ended, entry_of, with_names};

use crate::cutting::Specifier;
use crate::following::go_along;
use crate::matches::Matches;
use crate::space::Space;
use bind_merge::{Library, View};
use edt_base::{Entry, NodeId, Rule, Stop, Text, Tree};
use std::alloc::{AllocError, Global};

/// The entry of this name that begins as a specifier. An unspecified entry has neither cells nor a
/// name. The fault is the first on the specifier's way, else V23 where the node at which it ends
/// has no binding, V24 where the binding doesn't name as many cells as the specifier has.
pub(crate) fn entry_of(
    alloc: Global,
    t: &Tree,
    lib: &Library,
    m: &Matches,
    space: &Space<'_>,
    name: Option<Text>,
    start: Option<Specifier>,
) -> Result<Option<Entry>, Stop>
    requires there { IfSome start (λ s. s.node < length t.now.nodes) }
    requires matches { IsMatches t.now.nodes lib.now m.now }
    ensures entry { IfOk result (λ e. entry_of t.now.nodes space.now
        (cell_names t.now.nodes lib.now space.now) name start ≡ Ok e) }
    ensures stop { IfErr result (IsStop (entry_of t.now.nodes space.now
        (cell_names t.now.nodes lib.now space.now) name start)) }
{
    let Some(start) = start else {
        return Ok(None);
    };
    match ended(alloc, t, lib, m, space, name, start) {
        Ok(entry) => Ok(Some(entry)),
        Err(stop) => Err(stop),
    }
}

// The same of a specified entry.
fn ended(
    alloc: Global,
    t: &Tree,
    lib: &Library,
    m: &Matches,
    space: &Space<'_>,
    name: Option<Text>,
    start: Specifier,
) -> Result<Entry, Stop>
    requires there { start.node < length t.now.nodes }
    requires matches { IsMatches t.now.nodes lib.now m.now }
    ensures entry { IfOk result (λ e. ended (cell_names t.now.nodes lib.now space.now) name
        (followed t.now.nodes space.now start.node start.spec) ≡ Ok e) }
    ensures stop { IfErr result (IsStop (ended (cell_names t.now.nodes lib.now space.now) name
        (followed t.now.nodes space.now start.node start.spec))) }
{
    let (node, cells) = match go_along(alloc, t, space, start.node, start.cells) {
        Ok(end) => end,
        Err(stop) => return Err(stop),
    };
    named(alloc, t, lib, m, space, name, Specifier { node, cells })
}

/// The entry of this name of a specifier that ends at its node: with the names that the node's
/// binding gives to the cells of this space. The fault is V23 where the node has no binding, V24
/// where the binding doesn't name as many cells as the specifier has. These must be the matches of
/// this tree and library.
pub fn named(
    alloc: Global,
    t: &Tree,
    lib: &Library,
    m: &Matches,
    space: &Space<'_>,
    name: Option<Text>,
    end: Specifier,
) -> Result<Entry, Stop>
    requires there { end.node < length t.now.nodes }
    requires matches { IsMatches t.now.nodes lib.now m.now }
    ensures entry { IfOk result (λ e. with_names end name
        (cell_names t.now.nodes lib.now space.now end.node) ≡ Ok e) }
    ensures controller { IfOk result (λ e. e.controller ≡ end.node) }
    ensures stop { IfErr result (IsStop (with_names end name
        (cell_names t.now.nodes lib.now space.now end.node))) }
{
    let names = cell_names(alloc, t, lib, m, space, end.node)?;
    with_names(alloc, end, name, names)
}

// The names that a node's binding gives to the cells of its specifiers; None where it has no
// binding.
fn cell_names<'a>(
    alloc: Global,
    t: &Tree,
    lib: &'a Library,
    m: &Matches,
    space: &Space<'_>,
    node: NodeId,
) -> Result<Option<&'a [Text]>, AllocError>
    requires there { node < length t.now.nodes }
    requires matches { IsMatches t.now.nodes lib.now m.now }
    ensures { IfOk result (λ names. option_map (λ v. v.now) names
        ≡ cell_names t.now.nodes lib.now space.now node) }
{
    match m.view(alloc, t, lib, node)? {
        Some(view) => Ok(Some(names_in(&view, space.name))),
        None => Ok(None),
    }
}

fn names_in<'a>(view: &View<'a>, space: &Text) -> &'a [Text]
    ensures { result.now ≡ unwrap_or (cells_in space.now view.now) [] }
{
    match view.cells(space) {
        Some(names) => names.as_slice(),
        None => &[],
    }
}

// The entry of a specifier whose cells have these names.
fn with_names(
    alloc: Global,
    end: Specifier,
    name: Option<Text>,
    names: Option<&[Text]>,
) -> Result<Entry, Stop>
    ensures entry { IfOk result
        (λ e. with_names end name (option_map (λ v. v.now) names.entry) ≡ Ok e) }
    ensures controller { IfOk result (λ e. e.controller ≡ end.node) }
    ensures stop { IfErr result
        (IsStop (with_names end name (option_map (λ v. v.now) names.entry))) }
{
    let Some(names) = names else {
        return Err(Stop::Broken(Rule::V23));
    };
    if names.len() != end.cells.len() {
        return Err(Stop::Broken(Rule::V24));
    }
    let cells = named_cells(alloc, names, end.cells.as_slice())?;
    Ok(Entry {
        controller: end.node,
        cells,
        name,
    })
}

// The cells with their names.
fn named_cells(alloc: Global, names: &[Text], cells: &[u32]) -> Result<Vec<(Text, u32)>, AllocError>
    ensures { IfOk result (λ v. v.items ≡ zip names.now cells.now) }
{
    let mut named = Vec::with_capacity(alloc, cells.len())?;
    let mut names_left = names;
    let mut cells_left = cells;
    while let Some((name, names_behind)) = names_left.split_first() {
        let Some((cell, cells_behind)) = cells_left.split_first() else {
            return Ok(named);
        };
        named.push((name.copy(alloc)?, *cell))?;
        names_left = names_behind;
        cells_left = cells_behind;
    }
    Ok(named)
}
