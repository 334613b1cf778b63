//! Rows of `pha_nexus`: `board` is a source, and `follow` the path of a node of it, at which a
//! specifier of the space `space` with the cells `cells`, numbers with blanks between them,
//! arrives.
//!
//! The answer is the path of the node at which the specifier ends, and its cells, or the fault,
//! which is told at the root.
//!
//! Or `entries` is the path of a node, `property` the name of a property of it whose specifiers are
//! of the space, and `library` has binding files, each after a line `== NAME`. The answer has a line
//! for each entry, the path of its last node, the cells with their names and, in quotes, the entry's
//! name; `-` for an unspecified one.

use crate::boards::{library_of, node_at, tree_of};
use crate::table::{Row, numbers_of};
use edt_base::{End, Entry, NodeId, Text, Tree};
use edt_bound::matches;
use pha_nexus::{entries, follow};
use std::alloc::{AllocError, Global};

pub fn answer(alloc: Global, row: &Row) -> Result<Option<String>, AllocError> {
    let Some(source) = row.bytes("board") else {
        return Ok(None);
    };
    let mut out = String::new(alloc);
    match asked(alloc, row, source, &mut out) {
        Ok(()) => {}
        Err(End::Fault(fault)) => write!(out, "{fault}")?,
        Err(End::Memory(e)) => return Err(e),
    }
    Ok(Some(out))
}

fn asked(alloc: Global, row: &Row, source: &[u8], out: &mut String) -> Result<(), End> {
    match row.text("entries") {
        Some(path) => show_entries(alloc, row, source, path, out),
        None => followed(alloc, row, source, out),
    }
}

fn show_entries(
    alloc: Global,
    row: &Row,
    source: &[u8],
    path: &str,
    out: &mut String,
) -> Result<(), End> {
    let tree = tree_of(alloc, source)?;
    let library = library_of(alloc, row, &tree)?;
    let found = matches(alloc, &tree, &library)?;
    let id = node_at(&tree, path);
    let name = Text::new(String::from_str(alloc, row.text("property").unwrap_or(""))?);
    let space = Text::new(String::from_str(alloc, row.text("space").unwrap_or(""))?);
    let entries = entries(alloc, &tree, &library, &found, id, &name, &space)?;
    for (at, entry) in entries.iter().enumerate() {
        if at > 0 {
            out.push_str("\n")?;
        }
        match entry {
            Some(entry) => show_entry(out, &tree, entry)?,
            None => out.push_str("-")?,
        }
    }
    Ok(())
}

fn show_entry(out: &mut String, tree: &Tree, entry: &Entry) -> Result<(), AllocError> {
    if let Some(node) = tree.nodes().get(entry.controller.0 as usize) {
        out.push_str(node.path.as_str())?;
    }
    for (name, value) in entry.cells.iter() {
        write!(out, " {}={value}", name.as_str())?;
    }
    if let Some(name) = &entry.name {
        write!(out, " '{}'", name.as_str())?;
    }
    Ok(())
}

fn followed(alloc: Global, row: &Row, source: &[u8], out: &mut String) -> Result<(), End> {
    let tree = tree_of(alloc, source)?;
    let spec = numbers_of(alloc, row, "cells")?;
    let space = Text::new(String::from_str(alloc, row.text("space").unwrap_or(""))?);
    let start = node_at(&tree, row.text("follow").unwrap_or("/"));
    tree.is_well_formed();
    let (end, cells) = follow(alloc, &tree, NodeId(0), start, &space, &spec)?;
    write!(out, "{}", tree.node(end).path.as_str())?;
    for cell in cells.iter() {
        write!(out, " {cell}")?;
    }
    Ok(())
}
