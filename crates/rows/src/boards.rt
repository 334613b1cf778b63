//! Trees of the sources that rows hold, and the bindings for them.

ghost use Rattle.std.specs.Prelude.{◌<◌, length};

use crate::bindings::files_of;
use crate::table::Row;
use bind_merge::Library;
use dts_parse::parse;
use dts_tree::build;
use edt_base::{End, NodeId, Text, Tree};
use std::alloc::{AllocError, Global};

/// The tree that a source leaves.
pub fn tree_of(alloc: Global, source: &[u8]) -> Result<Tree, End> {
    let name = Text::new(String::from_str(alloc, "b.dts")?);
    let script = parse(alloc, &name, source, true)?;
    let files = vec![in alloc; name]?;
    let scripts = vec![in alloc; script]?;
    build(alloc, &files, &scripts)
}

/// The node of a path, or the root.
pub fn node_at(tree: &Tree, path: &str) -> NodeId
    ensures { result < length tree.now.nodes }
{
    tree.is_well_formed();
    match tree.find_str(path) {
        Some(id) => id,
        None => NodeId(0),
    }
}

/// The binding files of a row, loaded for a tree.
pub fn library_of(alloc: Global, row: &Row, tree: &Tree) -> Result<Library, End> {
    let mut library = listed(alloc, row.text("library").unwrap_or(""))?;
    let mut compats = Vec::new(alloc);
    for node in tree.nodes().iter() {
        for compat in node.compats.iter() {
            compats.push(compat.copy(alloc)?)?;
        }
    }
    library.load(alloc, &compats)?;
    Ok(library)
}

fn listed(alloc: Global, listing: &str) -> Result<Library, AllocError> {
    let files = files_of(alloc, listing)?;
    if files.len() > 100000 {
        return Ok(Library::new(Vec::new(alloc)));
    }
    Ok(Library::new(files))
}
