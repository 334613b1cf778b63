//! The registers of a node.

ghost use Rattle.std.specs.Prelude.{◌≡◌, ◌+◌, ◌≤◌, ◌<◌, IfOk, IfErr, IfSome, Ok, length, drop, option_map};
ghost use Rattle.std.specs.List.{list_any};
ghost use Rattle.edt_base.specs.Cells.{cells_of};
ghost use Rattle.edt_base.specs.NodeData.{bytes_of};
ghost use Rattle.edt_base.specs.Nodes.{path_at, prop_at};
ghost use Rattle.edt_base.specs.Refusals.{IsRefused, IsStop};
ghost use Rattle.edt_base.specs.Values.{names_fit, name_parts};
ghost use Rattle.reg_ranges.specs.Cutting.{entries};
ghost use Rattle.reg_ranges.specs.Registers.{first_cut, is_empty_cut, with_names, named_regs, cut_regs, counted_regs, regs_below, regs_of};

use crate::cells::{is_whole, some_number};
use crate::nodes::{address_cells, size_cells};
use edt_base::{Cells, End, NodeId, Part, PropVal, Reg, Rule, Stop, Tree, entry_name, names_fit};
use std::alloc::{AllocError, Global};

/// A register as `reg` gives it, without a name.
#[derive(Clone, Copy, Debug)]
pub(crate) struct Cut {
    pub(crate) addr: Option<u128>,
    pub(crate) size: Option<u128>,
}

/// The registers of a node: the entries of its `reg` (Devicetree Specification v0.4, 2.3.6), with
/// the names that `reg-names` gives them, and with their addresses as they are written. The
/// parent's `#address-cells` and `#size-cells` say how many cells each number has; one of no cells
/// isn't there. None at the root and without `reg`.
///
/// The fault is the first of these, at the node: V17 where one of the counts isn't one cell or is
/// more than 4, V15 where the value isn't whole entries of one or more cells, V16 where a size is
/// 0, V18 where `reg-names` is there and isn't as many strings.
pub fn regs(alloc: Global, t: &Tree, id: NodeId) -> Result<Vec<Reg>, End>
    requires { id < length t.now.nodes }
    ensures cut { IfOk result (λ v. regs_of t.now.nodes id ≡ Ok v.items) }
    ensures refused { IfErr result (IsRefused (regs_of t.now.nodes id) (path_at t.now.nodes id)) }
{
    match regs_below(alloc, t, t.parent(id), id) {
        Ok(regs) => Ok(regs),
        Err(stop) => Err(t.node(id).told(alloc, stop)),
    }
}

// The registers of a node with this parent.
fn regs_below(alloc: Global, t: &Tree, parent: Option<NodeId>, id: NodeId) -> Result<Vec<Reg>, Stop>
    requires there { id < length t.now.nodes }
    requires parent { IfSome parent (λ up. up < length t.now.nodes) }
    ensures cut { IfOk result (λ v. regs_below t.now.nodes parent id ≡ Ok v.items) }
    ensures stop { IfErr result (IsStop (regs_below t.now.nodes parent id)) }
{
    let Some(up) = parent else {
        return Ok(Vec::new(alloc));
    };
    let Some(value) = t.prop(id, "reg") else {
        return Ok(Vec::new(alloc));
    };
    counted_regs(
        alloc,
        address_cells(t, up),
        size_cells(t, up),
        value.parts.as_slice(),
        t.prop(id, "reg-names"),
    )
}

// The registers of a value, by counts of cells that may be wrong.
fn counted_regs(
    alloc: Global,
    address: Option<usize>,
    size: Option<usize>,
    value: &[Part],
    names: Option<&PropVal>,
) -> Result<Vec<Reg>, Stop>
    requires address { IfSome address (λ n. n ≤ 4) }
    requires size { IfSome size (λ n. n ≤ 4) }
    ensures cut { IfOk result
        (λ v. counted_regs address size value.now (option_map (λ n. n.now) names.entry)
        ≡ Ok v.items) }
    ensures stop { IfErr result (IsStop (counted_regs address size value.now (option_map
        (λ n. n.now) names.entry))) }
{
    match (address, size) {
        (Some(address), Some(size)) => cut_regs(alloc, address, size, value, names),
        _ => Err(Stop::Broken(Rule::V17)),
    }
}

// The registers of a value, of so many address and size cells.
fn cut_regs(
    alloc: Global,
    address: usize,
    size: usize,
    value: &[Part],
    names: Option<&PropVal>,
) -> Result<Vec<Reg>, Stop>
    requires address { address ≤ 4 }
    requires size { size ≤ 4 }
    ensures cut { IfOk result
        (λ v. cut_regs address size value.now (option_map (λ n. n.now) names.entry) ≡ Ok v.items) }
    ensures stop { IfErr result (IsStop (cut_regs address size value.now (option_map
        (λ n. n.now) names.entry))) }
{
    if address + size == 0 || !is_whole(value, address + size) {
        return Err(Stop::Broken(Rule::V15));
    }
    let cuts = cuts_of(alloc, Cells::of(value), address, size)?;
    named_regs(alloc, cuts.as_slice(), names)
}

// The registers of cells, of so many address and size cells.
fn cuts_of(
    alloc: Global,
    cells: Cells<'_>,
    address: usize,
    size: usize,
) -> Result<Vec<Cut>, AllocError>
    requires address { address ≤ 4 }
    requires size { size ≤ 4 }
    requires some { 0 < address + size }
    ensures { IfOk result
        (λ v. v.items ≡ entries (first_cut address size) (address + size) (cells_of cells.entry)) }
{
    let mut cells = cells;
    let mut cuts = Vec::new(alloc);
    while !cells.is_empty() {
        cuts.push(first_cut(&mut cells, address, size))?;
    }
    Ok(cuts)
}

// The first register of cells.
fn first_cut(cells: &mut Cells<'_>, address: usize, size: usize) -> Cut
    requires address { address ≤ 4 }
    requires size { size ≤ 4 }
    ensures cut { result ≡ first_cut address size (cells_of cells.old) }
    ensures rest { cells_of cells.new ≡ drop (address + size) (cells_of cells.old) }
{
    let addr = some_number(cells, address);
    let size = some_number(cells, size);
    Cut { addr, size }
}

// The registers with their names.
fn named_regs(alloc: Global, cuts: &[Cut], names: Option<&PropVal>) -> Result<Vec<Reg>, Stop>
    ensures cut { IfOk result
        (λ v. named_regs cuts.now (option_map (λ n. n.now) names.entry) ≡ Ok v.items) }
    ensures stop { IfErr result (IsStop (named_regs cuts.now (option_map
        (λ n. n.now) names.entry))) }
{
    if any_empty(cuts) {
        return Err(Stop::Broken(Rule::V16));
    }
    if !names_fit(cuts.len(), names) {
        return Err(Stop::Broken(Rule::V18));
    }
    let regs = with_names(alloc, cuts, names)?;
    Ok(regs)
}

fn any_empty(cuts: &[Cut]) -> bool
    ensures { result ≡ list_any is_empty_cut cuts.now }
{
    cuts.iter().any(|cut| is_empty_cut(*cut))
}

fn is_empty_cut(cut: Cut) -> bool
    ensures { result ≡ is_empty_cut cut }
{
    match cut.size {
        Some(size) => size == 0,
        None => false,
    }
}

fn with_names(alloc: Global, cuts: &[Cut], names: Option<&PropVal>) -> Result<Vec<Reg>, AllocError>
    ensures { IfOk result
        (λ v. v.items ≡ with_names 0 cuts.now (name_parts (option_map (λ n. n.now) names.entry))) }
{
    let mut regs = Vec::with_capacity(alloc, cuts.len())?;
    for (at, cut) in cuts.iter().enumerate() {
        regs.push(Reg {
            addr: cut.addr,
            size: cut.size,
            name: entry_name(alloc, names, at)?,
        })?;
    }
    Ok(regs)
}
