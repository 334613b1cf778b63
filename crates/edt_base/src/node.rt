//! A node of the tree with its properties.

ghost use Rattle.std.specs.Prelude.{◌≡◌, ◌+◌, ◌<◌, ◌≤◌, ◌++◌, IfSome, IfNone, option_map, length, take};
ghost use Rattle.edt_base.specs.NodeData.{prop_of, one_cell, phandle_of, is_cells};
ghost use Rattle.edt_base.specs.Refusals.{IsFaultAt, IsToldAs};

use crate::{Bytes, End, Fault, Place, Rule, Stop, Text};
use indexmap::IndexMap;
use std::alloc::Global;
use std::marker::Model;

/// A node's place among the tree's nodes, which stand in preorder. The root's is 0.
#[derive(Clone, Copy, Debug, PartialEq, Eq, PartialOrd, Ord, Hash)]
pub struct NodeId(pub u32);

impl Model for NodeId {
    ghost use Rattle.std.specs.Prelude.{ℕ};

    ghost Value = { ℕ };

    ghost view = { λ n. n.0 };

    ghost inverse = { λ n. record { 0 = n } };
}

/// A file's place in a list of files.
#[derive(Clone, Copy, Debug, PartialEq, Eq, PartialOrd, Ord, Hash)]
pub struct FileNo(pub u32);

impl Model for FileNo {
    ghost use Rattle.std.specs.Prelude.{ℕ};

    ghost Value = { ℕ };

    ghost view = { λ n. n.0 };

    ghost inverse = { λ n. record { 0 = n } };
}

/// How a part of a value was written (Devicetree Specification v0.4, 6.3).
#[derive(Clone, Copy, Debug, PartialEq, Eq)]
pub enum Kind {
    /// A text in quotes; its bytes end with a zero.
    Str,
    /// Cells of 32 bits, 4 bytes each, the big end first.
    Cells,
    /// Bytes: pairs of hexadecimal digits, or elements of 8 bits.
    Hex,
    /// Elements of 16 or 64 bits, the big end first.
    Wide,
    /// The path of a node that a reference names, and a zero.
    Path,
}

/// A part of a property's value, as it stands between two commas.
#[derive(Debug, Drop)]
pub struct Part {
    /// How it was written.
    pub kind: Kind,
    /// What it stands for.
    pub bytes: Bytes,
}

/// A property's value: its parts in order, none for a property without a value.
#[derive(Drop)]
pub struct PropVal {
    /// The parts.
    pub parts: Vec<Part>,
}

impl Model for PropVal {
    ghost use Rattle.std.specs.Prelude.{List};
    ghost use Rattle.edt_base.specs.declared.node.Part.{Part};

    ghost Value = { List Part };

    ghost view = { λ p. p.parts.items };
}

/// A node. Contracts see it as the plain `NodeData`.
#[derive(Drop)]
pub struct NodeRec {
    /// The name with its unit address; the root's is `/`.
    pub name: Text,
    /// The path from the root.
    pub path: Text,
    /// The node that it stands in; the root has none.
    pub parent: Option<NodeId>,
    /// The nodes that stand in it.
    pub children: Vec<NodeId>,
    /// The labels.
    pub labels: Vec<Text>,
    /// The properties by name, in order.
    pub props: IndexMap<Text, PropVal>,
    /// The strings of `compatible`, in order.
    pub compats: Vec<Text>,
    /// The string of `status`.
    pub status: Text,
}

impl Model for NodeRec {
    ghost use Rattle.edt_base.specs.NodeData.{NodeData};

    ghost Value = { NodeData };

    ghost view = { λ n. record {
      name = n.name;
      path = n.path;
      parent = n.parent;
      children = n.children.items;
      labels = n.labels.items;
      props = n.props.entries;
      compats = n.compats.items;
      status = n.status;
    } };
}

impl NodeRec {
    /// The nodes that stand in it.
    pub fn children(&self) -> &[NodeId]
        ensures { result.now ≡ self.now.children }
    {
        self.children.as_slice()
    }

    /// The value of the property of this name; None exactly where the node has no such property.
    /// Goes over the properties; of a node of a tree `Tree::prop` tells it in logarithmic time.
    /// Takes no memory.
    pub fn prop(&self, name: &str) -> Option<&PropVal>
        ensures { option_map (λ v. v.now) result ≡ prop_of name.now self.now.props }
    {
        for (key, value) in self.props.iter() {
            if key.as_str() == name {
                return Some(value);
            }
        }
        None
    }

    /// This rule is broken at this node: the fault, or that memory for the path was wanted.
    pub fn fault(&self, alloc: Global, rule: Rule) -> End
        ensures { IsFaultAt rule self.now.path result }
    {
        match self.path.copy(alloc) {
            Ok(path) => End::Fault(Fault {
                rule,
                place: Place::Node(path),
            }),
            Err(e) => End::Memory(e),
        }
    }

    /// The same of why its value isn't read to its end.
    pub fn told(&self, alloc: Global, stop: Stop) -> End
        ensures { IsToldAs stop self.now.path result }
    {
        match stop {
            Stop::Broken(rule) => self.fault(alloc, rule),
            Stop::Memory(e) => End::Memory(e),
        }
    }

    /// The node's phandle: the number of its property `phandle`, where that is one cell, whose
    /// parts are all of cells. Takes no memory.
    pub fn phandle(&self) -> Option<u32>
        ensures { result ≡ phandle_of self.now }
    {
        self.prop("phandle")?.one_cell()
    }
}

impl PropVal {
    /// The number of a value that is one cell: all its parts are of cells, and they have 4 bytes
    /// together. Takes no memory.
    pub fn one_cell(&self) -> Option<u32>
        ensures { result ≡ one_cell self.now }
    {
        cell_in(self.parts.as_slice())
    }
}

impl Part {
    // It is of cells.
    fn is_cells(&self) -> bool
        ensures { result ≡ is_cells self.now.kind }
    {
        match self.kind {
            Kind::Cells => true,
            _ => false,
        }
    }
}

// The number of a value that is one cell.
fn cell_in(parts: &[Part]) -> Option<u32>
    ensures { result ≡ one_cell parts.now }
{
    let mut cell = [0; 4];
    let mut filled = 0;
    for part in parts {
        if !part.is_cells() {
            return None;
        }
        filled = fill(&mut cell, filled, part.bytes.as_slice())?;
    }
    if filled == 4 {
        Some(u32::from_be_bytes(cell))
    } else {
        None
    }
}

// Puts bytes after those that a cell has so far, and says how many it has then; None where they are
// too many.
fn fill(cell: &mut [u8; 4], filled: usize, bytes: &[u8]) -> Option<usize>
    requires { filled ≤ 4 }
    ensures fits { IfSome result
        (λ n. (n ≤ 4) × (take n cell.new ≡ take filled cell.old ++ bytes.now)) }
    ensures full { IfNone result (4 < filled + length bytes.now) }
{
    let mut end = filled;
    for byte in bytes {
        if end == 4 {
            return None;
        }
        cell[end] = *byte;
        end += 1;
    }
    Some(end)
}
