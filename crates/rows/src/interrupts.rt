//! Rows of `irq_map`: `board` is a source, `interrupts` the path of a node of it, and `library` has
//! binding files, each after a line `== NAME`.
//!
//! The answer has a line for each interrupt, the path of its last node, the cells with their names
//! and, in quotes, the interrupt's name; or the fault.

use crate::boards::{library_of, node_at, tree_of};
use crate::table::Row;
use edt_base::{End, Irq, Tree};
use edt_bound::matches;
use irq_map::interrupts;
use std::alloc::{AllocError, Global};

pub fn answer(alloc: Global, row: &Row) -> Result<Option<String>, AllocError> {
    let (Some(source), Some(path)) = (row.bytes("board"), row.text("interrupts")) else {
        return Ok(None);
    };
    let mut out = String::new(alloc);
    match show_irqs(alloc, row, source, path, &mut out) {
        Ok(()) => {}
        Err(End::Fault(fault)) => write!(out, "{fault}")?,
        Err(End::Memory(e)) => return Err(e),
    }
    Ok(Some(out))
}

fn show_irqs(
    alloc: Global,
    row: &Row,
    source: &[u8],
    path: &str,
    out: &mut String,
) -> Result<(), End> {
    let tree = tree_of(alloc, source)?;
    let library = library_of(alloc, row, &tree)?;
    let found = matches(alloc, &tree, &library)?;
    let id = node_at(&tree, path);
    let irqs = interrupts(alloc, &tree, &library, &found, id)?;
    for (at, irq) in irqs.iter().enumerate() {
        if at > 0 {
            out.push_str("\n")?;
        }
        show_irq(out, &tree, irq)?;
    }
    Ok(())
}

fn show_irq(out: &mut String, tree: &Tree, irq: &Irq) -> Result<(), AllocError> {
    if let Some(node) = tree.nodes().get(irq.controller.0 as usize) {
        out.push_str(node.path.as_str())?;
    }
    for (name, value) in irq.cells.iter() {
        write!(out, " {}={value}", name.as_str())?;
    }
    if let Some(name) = &irq.name {
        write!(out, " '{}'", name.as_str())?;
    }
    Ok(())
}
