//! What a space of specifiers names its properties, and what nodes have of them.

ghost use Rattle.std.specs.Prelude.{◌≡◌, ◌<◌, ◌^◌, IfOk, IfErr, IfSome, Ok, length, option_map};
ghost use Rattle.edt_base.specs.Nodes.{prop_at};
ghost use Rattle.edt_base.specs.Refusals.{IsStop};
ghost use Rattle.pha_nexus.specs.Space.{cells_name, count_at, is_interrupt, map_at, mask_at, parent_width, pass_at, width_by};

use edt_base::{NodeId, PropVal, Rule, Stop, Text, Tree};
use std::alloc::{AllocError, Global};
use std::marker::Model;

/// A space of specifiers, as `gpio`, with the names of its properties (Devicetree Specification
/// v0.4, 2.5.1), which are spelled once for many look-ups. Contracts see the bytes of its own name.
#[derive(Drop)]
pub struct Space<'a> {
    pub(crate) name: &'a Text,
    cells: String,
    map: String,
    mask: String,
    pass: String,
}

impl<'a> Model for Space<'a> {
    ghost use Rattle.std.specs.Prelude.{◌≡◌, List, ℕ};
    ghost use Rattle.std.specs.String.{string_bytes};
    ghost use Rattle.pha_nexus.specs.Space.{cells_name, map_name, mask_name, pass_name};

    ghost Value = { List ℕ };

    ghost view = { λ s. s.name.now };

    ghost invariant = { λ s. (string_bytes s.cells ≡ cells_name s.name.now)
        × (string_bytes s.map ≡ map_name s.name.now)
        × (string_bytes s.mask ≡ mask_name s.name.now)
        × (string_bytes s.pass ≡ pass_name s.name.now) };
}

impl<'a> Space<'a> {
    /// The space of this name. The one error is want of memory.
    pub fn new(alloc: Global, name: &'a Text) -> Result<Space<'a>, AllocError>
        ensures { IfOk result (λ s. s ≡ name.now) }
    {
        let space = name;
        let name = space.as_str();
        Ok(Space {
            name: space,
            cells: format!(in alloc; "#{name}-cells")?,
            map: format!(in alloc; "{name}-map")?,
            mask: format!(in alloc; "{name}-map-mask")?,
            pass: format!(in alloc; "{name}-map-pass-thru")?,
        })
    }

    /// The map of a node; None where it is no nexus of this space. Takes no memory.
    pub fn map<'t>(&self, t: &'t Tree, id: NodeId) -> Option<&'t PropVal>
        requires { id < length t.now.nodes }
        ensures { option_map (λ v. v.now) result ≡ map_at t.now.nodes self.now id }
    {
        t.prop(id, self.map.as_str())
    }

    /// The mask of a node.
    pub(crate) fn mask<'t>(&self, t: &'t Tree, id: NodeId) -> Option<&'t PropVal>
        requires { id < length t.now.nodes }
        ensures { option_map (λ v. v.now) result ≡ mask_at t.now.nodes self.now id }
    {
        t.prop(id, self.mask.as_str())
    }

    /// The pass-through of a node.
    pub(crate) fn pass<'t>(&self, t: &'t Tree, id: NodeId) -> Option<&'t PropVal>
        requires { id < length t.now.nodes }
        ensures { option_map (λ v. v.now) result ≡ pass_at t.now.nodes self.now id }
    {
        t.prop(id, self.pass.as_str())
    }

    /// How many parent cells a map's row has that leads to a node. In the space of interrupts an
    /// address comes before them.
    pub(crate) fn parent_width(&self, t: &Tree, id: NodeId) -> Result<usize, Rule>
        requires { id < length t.now.nodes }
        ensures { result ≡ parent_width t.now.nodes self.now id }
    {
        width_by(
            self.is_interrupt(),
            cell_count(t, id, "#address-cells"),
            cell_count(t, id, self.cells.as_str()),
        )
    }

    /// How many cells a node's specifiers have; None where it doesn't say. Takes no memory.
    pub fn width(&self, t: &Tree, id: NodeId) -> Option<u32>
        requires { id < length t.now.nodes }
        ensures { result ≡ count_at t.now.nodes id (cells_name self.now) }
    {
        cell_count(t, id, self.cells.as_str())
    }

    fn is_interrupt(&self) -> bool
        ensures { result ≡ is_interrupt self.now }
    {
        self.name.as_str() == "interrupt"
    }
}

/// The number of cells that a node's property of this name gives, as `#address-cells`; None where
/// it isn't there or has another number of bytes than 4. Takes no memory.
pub fn cell_count(t: &Tree, id: NodeId, name: &str) -> Option<u32>
    requires { id < length t.now.nodes }
    ensures { result ≡ count_at t.now.nodes id name.now }
{
    t.prop(id, name)?.single_cell()
}

fn width_by(is_interrupt: bool, address: Option<u32>, cells: Option<u32>) -> Result<usize, Rule>
    ensures { result ≡ width_by is_interrupt address cells }
{
    match cells {
        Some(cells) if is_interrupt => Ok(address.unwrap_or(0) as usize + cells as usize),
        Some(cells) => Ok(cells as usize),
        None if is_interrupt => Err(Rule::V32),
        None => Err(Rule::V21),
    }
}
