//! Rows of `reg_ranges`, on trees of three nodes, each in the one before it: `/`, `/b` and `/b/e`.
//!
//! `top`, `middle` and `low` have the properties of these: `a=1,2` of cells, `a:x,y` of strings and
//! `a*xy` of the bytes of a text, with blanks between them. `registers` or `ranges` is the number
//! of a node, from 0: the answer has its registers or its ranges, or the rule that it breaks.
//! `address` is one of `/b/e`: the answer is the address as the root sees it.

ghost use Rattle.std.specs.Prelude.{◌<◌, IfSome, length};

use crate::table::Row;
use crate::three_nodes::{are_whole, board};
use edt_base::{End, NodeId, Range, Reg, Tree};
use reg_ranges::{ranges, regs, translate};
use std::alloc::{AllocError, Global};

pub fn answer(alloc: Global, row: &Row) -> Result<Option<String>, AllocError> {
    let top = row.text("top").unwrap_or("");
    let middle = row.text("middle").unwrap_or("");
    let low = row.text("low").unwrap_or("");
    let tree = board(alloc, top, middle, low)?;
    let mut out = String::new(alloc);
    if let Some(id) = node_of(row, "registers") {
        push_registers(alloc, &tree, id, &mut out)?;
    } else if let Some(id) = node_of(row, "ranges") {
        push_ranges(alloc, &tree, id, &mut out)?;
    } else if let Some(Ok(address)) = row.text("address").map(|text| text.parse::<u128>()) {
        if !are_whole(alloc, &tree) {
            return Ok(None);
        }
        write!(out, "{}", translate(&tree, NodeId(2), address))?;
    } else {
        return Ok(None);
    }
    Ok(Some(out))
}

/// The node that a row asks for.
fn node_of(row: &Row, name: &str) -> Option<NodeId>
    ensures { IfSome result (λ id. id < 3) }
{
    match row.text(name)? {
        "0" => Some(NodeId(0)),
        "1" => Some(NodeId(1)),
        "2" => Some(NodeId(2)),
        _ => None,
    }
}

fn push_registers(
    alloc: Global,
    tree: &Tree,
    id: NodeId,
    out: &mut String,
) -> Result<(), AllocError>
    requires { id < length tree.now.nodes }
{
    match regs(alloc, tree, id) {
        Ok(regs) => show_registers(out, regs.as_slice()),
        Err(end) => push_end(end, out),
    }
}

fn show_registers(out: &mut String, regs: &[Reg]) -> Result<(), AllocError> {
    for reg in regs {
        push_number(out, reg.addr)?;
        out.push_str("+")?;
        push_number(out, reg.size)?;
        if let Some(name) = &reg.name {
            write!(out, " {}", name.as_str())?;
        }
        out.push_str("; ")?;
    }
    Ok(())
}

/// Adds a number, or a dash where there is none.
fn push_number(out: &mut String, number: Option<u128>) -> Result<(), AllocError> {
    match number {
        Some(number) => write!(out, "{number}"),
        None => out.push_str("-"),
    }
}

fn push_ranges(alloc: Global, tree: &Tree, id: NodeId, out: &mut String) -> Result<(), AllocError>
    requires { id < length tree.now.nodes }
{
    match ranges(alloc, tree, id) {
        Ok(ranges) => show_ranges(out, ranges.as_slice()),
        Err(end) => push_end(end, out),
    }
}

fn show_ranges(out: &mut String, ranges: &[Range]) -> Result<(), AllocError> {
    for range in ranges {
        write!(out, "{}>{}+{}; ", range.child, range.parent, range.len)?;
    }
    Ok(())
}

fn push_end(end: End, out: &mut String) -> Result<(), AllocError> {
    match end {
        End::Fault(fault) => write!(out, "{fault}"),
        End::Memory(e) => Err(e),
    }
}
