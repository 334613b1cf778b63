//! Counts the numbers of interrupts as the controllers do.

ghost use Rattle.std.specs.Prelude.{◌≡◌, ◌<◌, ◌≤◌, IfErr, IfOk, Ok, length, map};
ghost use Rattle.edt_base.specs.Refusals.{IsStop};
ghost use Rattle.irq_map.specs.Gic.{cell_named, counted_by, is_gic, raised, rise_at, rise_of};

use edt_base::{Entry, Irq, NodeId, Rule, Stop, Text, Tree};
use std::alloc::{AllocError, Global};

/// An interrupt at the node where it ends: at an Arm GIC its number is raised by 32 where its type
/// is 0, and by 16 where it is 1. The fault is V35 where a GIC's interrupt has no cell `type`, or
/// another type.
pub(crate) fn counted(alloc: Global, t: &Tree, entry: Entry) -> Result<Irq, Stop>
    requires { entry.controller < length t.now.nodes }
    ensures irq { IfOk result (λ irq. counted_by entry
        (rise_at (is_gic t.now.nodes entry.controller) entry.cells) ≡ Ok irq) }
    ensures controller { IfOk result (λ irq. irq.controller ≡ entry.controller) }
    ensures stop { IfErr result (IsStop (counted_by entry
        (rise_at (is_gic t.now.nodes entry.controller) entry.cells))) }
{
    let Entry {
        controller,
        cells,
        name,
    } = entry;
    match rise_at(is_gic(t, controller), cells.as_slice()) {
        Ok(rise) => {
            let cells = raised_all(alloc, cells, rise)?;
            Ok(Irq {
                controller,
                cells,
                name,
            })
        }
        Err(rule) => Err(Stop::Broken(rule)),
    }
}

fn is_gic(t: &Tree, id: NodeId) -> bool
    requires { id < length t.now.nodes }
    ensures { result ≡ is_gic t.now.nodes id }
{
    let node = t.node(id);
    node.compats
        .iter()
        .any(|compat| compat.as_str() == "arm,gic")
}

// How far the numbers of these cells are raised.
fn rise_at(is_gic: bool, cells: &[(Text, u32)]) -> Result<u64, Rule>
    ensures rise { result ≡ rise_at is_gic cells.now }
    ensures small { IfOk result (λ rise. rise ≤ 32) }
{
    if is_gic {
        rise_of(cell_named(cells, "type"))
    } else {
        Ok(0)
    }
}

fn rise_of(kind: Option<u32>) -> Result<u64, Rule>
    ensures rise { result ≡ rise_of kind }
    ensures small { IfOk result (λ rise. rise ≤ 32) }
{
    match kind {
        Some(0) => Ok(32),
        Some(1) => Ok(16),
        _ => Err(Rule::V35),
    }
}

// The first cell of this name.
fn cell_named(cells: &[(Text, u32)], name: &str) -> Option<u32>
    ensures { result ≡ cell_named name.now cells.now }
{
    for (cell, value) in cells {
        if cell.as_str() == name {
            return Some(*value);
        }
    }
    None
}

fn raised_all(
    alloc: Global,
    cells: Vec<(Text, u32)>,
    rise: u64,
) -> Result<Vec<(Text, u64)>, AllocError>
    requires { rise ≤ 32 }
    ensures { IfOk result (λ v. v.items ≡ map (raised rise) cells.items) }
{
    let mut all = Vec::with_capacity(alloc, cells.len())?;
    for (name, value) in cells {
        let value = raised(name.as_str(), value, rise);
        all.push((name, value))?;
    }
    Ok(all)
}

// The value of a cell of this name; a number of interrupts is raised.
fn raised(name: &str, value: u32, rise: u64) -> u64
    requires { rise ≤ 32 }
    ensures { result ≡ (raised rise (name.now, value)).1 }
{
    if name == "irq" {
        u64::from(value) + rise
    } else {
        u64::from(value)
    }
}
