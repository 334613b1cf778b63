//! The value of a property that is written, by its type.

ghost use Rattle.std.specs.Prelude.{◌≡◌, IfErr, IfOk, Ok, Some, option_map};
ghost use Rattle.edt_base.specs.Cells.{cells_of};
ghost use Rattle.edt_base.specs.Refusals.{IsStop};
ghost use Rattle.edt_base.specs.ValData.{nodes_val, val_data};
ghost use Rattle.prop_types.specs.Written.{are_bytes, are_cells, named_node, named_path};
ghost use Rattle.prop_types.specs.Written.{node_of_phandle, nodes_of_phandles, phandle_value};
ghost use Rattle.prop_types.specs.Written.{there_or, written};
ghost use Rattle.edt_base.specs.declared.fault.Rule.TheVariants as rule;

use edt_base::{Cells, Kind, NodeId, Part, PropType, PropVal, Rule, Stop, Text, Tree, Val};
use std::alloc::{AllocError, Global};

/// The value of a property of this type. Broken where it is of the wrong kind, which is V11, or
/// where a cell is no node's phandle, which is V20.
#[tactic(auto, unfolding(crate::specs::Written::written))]
pub(crate) fn written(alloc: Global, t: &Tree, ty: PropType, value: &PropVal) -> Result<Val, Stop>
    ensures is { IfOk result (λ v. written t.now.nodes ty value.now ≡ Ok (val_data v)) }
    ensures stop { IfErr result (IsStop (written t.now.nodes ty value.now)) }
{
    match ty {
        PropType::Boolean if value.byte_len() == 0 => Ok(Val::Bool(true)),
        PropType::Int => match value.one_cell() {
            Some(cell) => Ok(Val::Int(cell)),
            None => Err(Stop::Broken(Rule::V11)),
        },
        PropType::Array if are_cells(value) => Ok(Val::Ints(value.cells(alloc)?)),
        PropType::U8Array if are_bytes(value) => Ok(Val::U8s(value.bytes(alloc)?)),
        PropType::Str => match value.string() {
            Some(string) => Ok(Val::Str(text(alloc, string)?)),
            None => Err(Stop::Broken(Rule::V11)),
        },
        PropType::StrArray if value.are_strings() => Ok(Val::Strs(value.strings(alloc)?)),
        PropType::Phandle => match value.one_cell() {
            Some(cell) => Ok(Val::Node(node_of_phandle(t, cell)?)),
            None => Err(Stop::Broken(Rule::V11)),
        },
        PropType::Phandles if are_cells(value) => {
            Ok(Val::Nodes(nodes_of_phandles(alloc, t, Cells::of(value.parts.as_slice()))?))
        }
        PropType::PhandleArray if are_cells(value) => Ok(Val::Entries(Vec::new(alloc))),
        PropType::Path => match named_node(t, value.parts.as_slice()) {
            Some(node) => Ok(Val::Node(node)),
            None => Err(Stop::Broken(Rule::V11)),
        },
        PropType::Compound => Ok(Val::Compound),
        _ => Err(Stop::Broken(Rule::V11)),
    }
}

fn are_cells(value: &PropVal) -> bool
    ensures { result ≡ are_cells value.now }
{
    value.are_all(Kind::Cells) && value.byte_len() >= 4
}

fn are_bytes(value: &PropVal) -> bool
    ensures { result ≡ are_bytes value.now }
{
    value.are_all(Kind::Hex) && value.byte_len() >= 1
}

fn text(alloc: Global, string: &str) -> Result<Text, AllocError>
    ensures { IfOk result (λ t. t ≡ string.now) }
{
    Ok(Text::new(String::from_str(alloc, string)?))
}

// The node of a phandle; V20 where there is none.
fn node_of_phandle(t: &Tree, cell: u32) -> Result<NodeId, Stop>
    ensures is { IfOk result (λ id. node_of_phandle t.now.nodes cell ≡ Some id) }
    ensures stop { IfErr result
        (IsStop (there_or rule.V20 (node_of_phandle t.now.nodes cell))) }
{
    match t.by_phandle(cell) {
        Some(id) => Ok(id),
        None => Err(Stop::Broken(Rule::V20)),
    }
}

// The nodes of the phandles that are left, in order; V20 where there is none.
#[tactic(auto, using(crate::proofs::There::after_next, crate::proofs::There::after_nothing))]
fn nodes_of_phandles(alloc: Global, t: &Tree, cells: Cells<'_>) -> Result<Vec<NodeId>, Stop>
    ensures is { IfOk result
        (λ ids. nodes_of_phandles t.now.nodes (cells_of cells.entry) ≡ Some ids.items) }
    ensures stop { IfErr result
        (IsStop (there_or rule.V20
        (option_map nodes_val (nodes_of_phandles t.now.nodes (cells_of cells.entry))))) }
{
    let mut cells = cells;
    let mut ids = Vec::new(alloc);
    while let Some(cell) = cells.next() {
        ids.push(node_of_phandle(t, cell)?)?;
    }
    Ok(ids)
}

// The path that a part names.
fn named_path(part: &Part) -> Option<&str>
    ensures { option_map (λ s. s.now) result ≡ named_path part.now }
{
    if part.is(Kind::Path) || part.is(Kind::Str) {
        part.text()
    } else {
        None
    }
}

// The node that a value names by its path.
fn named_node(t: &Tree, parts: &[Part]) -> Option<NodeId>
    ensures { result ≡ named_node t.now.nodes parts.now }
{
    match parts {
        [part] => t.find_str(named_path(part)?),
        _ => None,
    }
}
