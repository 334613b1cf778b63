//! The bound tree: the tree with all that bindings say of its nodes.

ghost use Rattle.std.specs.Prelude.{◌≡◌, ◌<◌, All, IfOk, length};
ghost use Rattle.edt_base.specs.BoundData.{IsBound};
ghost use Rattle.edt_base.specs.BoundNodeData.{buses_on};
ghost use Rattle.edt_base.specs.Nodes.{path_at};
ghost use Rattle.edt_base.specs.Ids.{id_size};
ghost use Rattle.edt_base.specs.Ords.{ords_at};

use crate::id_len::id_lens;
use crate::ords::{Ords, all_ords};
use crate::{Bytes, NodeId, Text, Tree};
use std::alloc::{AllocError, Global};
use std::marker::Model;

/// The type that a binding gives a property (Zephyr 3.7, "Devicetree bindings syntax", `type`).
#[derive(Clone, Copy, Debug, PartialEq, Eq)]
pub enum PropType {
    /// `string`.
    Str,
    /// `int`: one cell.
    Int,
    /// `boolean`: true where the property is there.
    Boolean,
    /// `array`: cells.
    Array,
    /// `uint8-array`: bytes.
    U8Array,
    /// `string-array`.
    StrArray,
    /// `phandle`: one node.
    Phandle,
    /// `phandles`: nodes.
    Phandles,
    /// `phandle-array`: nodes with specifiers.
    PhandleArray,
    /// `path`: a node by its path.
    Path,
    /// `compound`: anything, of which no value is kept.
    Compound,
}

/// An entry of a phandle-array: a controller and the cells of its specifier, after all nexus maps.
#[derive(Drop)]
pub struct Entry {
    /// The node at which the specifier ends.
    pub controller: NodeId,
    /// The cells, by the names that the controller's binding gives them, in order.
    pub cells: Vec<(Text, u32)>,
    /// The entry's name, where the node names its entries.
    pub name: Option<Text>,
}

impl Model for Entry {
    ghost use Rattle.edt_base.specs.EntryData.{EntryData};

    ghost Value = { EntryData };

    ghost view = { λ e. record { controller = e.controller; cells = e.cells.items; name = e.name } };
}

/// An interrupt that a node raises: the controller and the cells of its specifier, after all
/// interrupt maps.
#[derive(Drop)]
pub struct Irq {
    /// The interrupt controller.
    pub controller: NodeId,
    /// The cells, by the names that the controller's binding gives them, in order. The number of a
    /// GIC's interrupt counts from the first of its type, and so can pass 32 bits.
    pub cells: Vec<(Text, u64)>,
    /// The interrupt's name, where the node names its interrupts.
    pub name: Option<Text>,
}

impl Model for Irq {
    ghost use Rattle.edt_base.specs.EntryData.{EntryData};

    ghost Value = { EntryData };

    ghost view = { λ i. record { controller = i.controller; cells = i.cells.items; name = i.name } };
}

/// A register block, an entry of `reg` (Devicetree Specification v0.4, 2.3.6).
#[derive(Drop)]
pub struct Reg {
    /// The address as the root sees it, through all `ranges` above; none without address cells.
    pub addr: Option<u128>,
    /// The size in bytes; none without size cells.
    pub size: Option<u128>,
    /// The block's name, where the node names its blocks.
    pub name: Option<Text>,
}

/// An entry of `ranges` (Devicetree Specification v0.4, 2.3.8): where a stretch of the addresses of
/// a node's children stands among those of its parent.
#[derive(Clone, Copy, Debug, PartialEq, Eq)]
pub struct Range {
    /// The first address, as the children have it.
    pub child: u128,
    /// The first address, as the parent has it.
    pub parent: u128,
    /// The number of addresses.
    pub len: u128,
}

/// A property's value. Its variant goes with the property's type.
#[derive(Drop)]
pub enum Val {
    /// Of a boolean: whether the property is there.
    Bool(bool),
    /// Of an int.
    Int(u32),
    /// Of an array: its cells.
    Ints(Vec<u32>),
    /// Of a uint8-array.
    U8s(Bytes),
    /// Of a string, without the zero at its end.
    Str(Text),
    /// Of a string-array, without their zeros.
    Strs(Vec<Text>),
    /// Of a phandle or a path.
    Node(NodeId),
    /// Of phandles.
    Nodes(Vec<NodeId>),
    /// Of a phandle-array: its entries; none stands for an entry that names no node.
    Entries(Vec<Option<Entry>>),
    /// Of a compound, of which nothing is kept.
    Compound,
}

/// A property with its type, as the node's binding declares it.
#[derive(Drop)]
pub struct Prop {
    /// The name.
    pub name: Text,
    /// The type.
    pub ty: PropType,
    /// The value, of that type.
    pub val: Val,
    /// For each value that `enum` was tested on, in order, its place in `enum` and its form as a
    /// token. Empty where the binding has no `enum`.
    pub choices: Vec<(u32, Text)>,
}

impl Model for Prop {
    ghost use Rattle.edt_base.specs.PropData.{PropData};
    ghost use Rattle.edt_base.specs.ValData.{val_data};

    ghost Value = { PropData };

    ghost view = { λ p. record { name = p.name; ty = p.ty; val = val_data p.val; choices = p.choices.items } };
}

/// What is bound to a node.
#[derive(Drop)]
pub struct BoundNode {
    /// The declared properties that have a value, in byte order of their names.
    pub props: Vec<Prop>,
    /// The entries of `reg`, in order.
    pub regs: Vec<Reg>,
    /// The entries of `ranges`, in order.
    pub ranges: Vec<Range>,
    /// The interrupts that the node raises, in order.
    pub irqs: Vec<Irq>,
    /// The nodes that the node requires, in preorder, each once.
    pub needs: Vec<NodeId>,
    /// The nodes that require the node, in preorder, each once.
    pub supports: Vec<NodeId>,
    /// The node's ordinal: its place in the order of dependencies, from 0.
    pub ord: u32,
    /// The node of the bus that the node is on.
    pub bus: Option<NodeId>,
    /// The buses that the binding of the bus node names, in its order.
    pub buses: Vec<Text>,
}

impl Model for BoundNode {
    ghost use Rattle.edt_base.specs.BoundNodeData.{BoundNodeData};

    ghost Value = { BoundNodeData };

    ghost view = { λ n. record {
      props = n.props.items;
      regs = n.regs.items;
      ranges = n.ranges.items;
      irqs = n.irqs.items;
      needs = n.needs.items;
      supports = n.supports.items;
      ord = n.ord;
      bus = n.bus;
      buses = n.buses.items;
    } };
}

/// The instances of a compatible string: the nodes that list it.
#[derive(Drop)]
pub struct Inst {
    /// The compatible string.
    pub compat: Text,
    /// The nodes by the number of the instance: the okay ones in preorder, then the others in
    /// preorder.
    pub nodes: Vec<NodeId>,
    /// How many of the nodes are okay.
    pub okay: u32,
}

impl Model for Inst {
    ghost use Rattle.edt_base.specs.InstData.{InstData};

    ghost Value = { InstData };

    ghost view = { λ i. record { compat = i.compat; nodes = i.nodes.items; okay = i.okay } };
}

/// The bound tree, from which the header is written. Contracts see it as the plain `BoundData`, and
/// `IsBound` holds of it.
#[derive(Drop)]
pub struct Bound {
    /// The tree.
    pub tree: Tree,
    /// What is bound to each node of the tree, in preorder.
    pub nodes: Vec<BoundNode>,
    /// The nodes in the order of dependencies: each once, after all that it requires.
    pub order: Vec<NodeId>,
    /// One item for each compatible string of the tree, in byte order.
    pub insts: Vec<Inst>,
    /// The places, rising and counted from 0, of the header's definitions that equal an earlier
    /// one.
    pub doubles: Vec<u64>,
    id_lens: Vec<u64>,
    ords: Vec<Ords>,
}

impl Model for Bound {
    ghost use Rattle.std.specs.Prelude.{◌≡◌, map};
    ghost use Rattle.edt_base.specs.BoundData.{BoundData, IsBound};
    ghost use Rattle.edt_base.specs.Ids.{id_size};
    ghost use Rattle.edt_base.specs.Ords.{ords_of};

    ghost Value = { BoundData };

    ghost view = { λ b. record {
      tree = b.tree;
      nodes = b.nodes.items;
      order = b.order.items;
      insts = b.insts.items;
      doubles = b.doubles.items;
    } };

    ghost invariant = { λ b.
        IsBound (record {
          tree = b.tree;
          nodes = b.nodes.items;
          order = b.order.items;
          insts = b.insts.items;
          doubles = b.doubles.items;
        })
        × (b.id_lens.items ≡ map (λ n. id_size n.path) b.tree.nodes)
        × (b.ords.items ≡ map (ords_of b.nodes.items) b.nodes.items) };
}

impl BoundNode {
    /// The buses that the node is on: those that the binding of its bus node names, none where it
    /// is on none. Takes no memory.
    pub fn buses_on(&self) -> &[Text]
        ensures { result.now ≡ buses_on self.now.bus self.now.buses }
    {
        match self.bus {
            Some(_) => self.buses.as_slice(),
            None => &[],
        }
    }
}

impl Bound {
    /// The bound tree of its parts, which it takes over. The one error is want of memory.
    pub fn new(
        alloc: Global,
        tree: Tree,
        nodes: Vec<BoundNode>,
        order: Vec<NodeId>,
        insts: Vec<Inst>,
        doubles: Vec<u64>,
    ) -> Result<Bound, AllocError>
        requires { IsBound (record {
          tree = tree;
          nodes = nodes.items;
          order = order.items;
          insts = insts.items;
          doubles = doubles.items;
        }) }
        ensures { IfOk result (λ b. b ≡ record {
          tree = tree;
          nodes = nodes.items;
          order = order.items;
          insts = insts.items;
          doubles = doubles.items;
        }) }
    {
        let id_lens = id_lens(alloc, tree.nodes())?;
        let ords = all_ords(alloc, nodes.as_slice())?;
        Ok(Bound {
            tree,
            nodes,
            order,
            insts,
            doubles,
            id_lens,
            ords,
        })
    }

    #[tactic(auto, unfolding(crate::specs::Ids::id_text))]
    /// The length of a node's id in the header, at most the greatest 64-bit number; that of an id
    /// past the nodes is the root's. Takes no memory.
    pub fn id_len(&self, id: NodeId) -> u64
        ensures { result ≡ id_size (path_at self.now.tree.nodes id) }
    {
        match self.id_lens.get(id.0 as usize) {
            Some(len) => *len,
            None => 4,
        }
    }

    /// The ordinals, rising, of the nodes that a node requires. Takes no memory.
    pub fn needs_ords(&self, id: NodeId) -> &[u32]
        ensures { result.now ≡ (ords_at self.now.nodes id).needs }
    {
        match self.ords.get(id.0 as usize) {
            Some(ords) => ords.needs.as_slice(),
            None => &[],
        }
    }

    /// The ordinals, rising, of the nodes that require a node. Takes no memory.
    pub fn supports_ords(&self, id: NodeId) -> &[u32]
        ensures { result.now ≡ (ords_at self.now.nodes id).supports }
    {
        match self.ords.get(id.0 as usize) {
            Some(ords) => ords.supports.as_slice(),
            None => &[],
        }
    }

    /// Shows a caller what every bound tree keeps. Does nothing when it runs.
    pub fn is_bound(&self)
        ensures bound { IsBound self.now }
        ensures order_below { All (λ id. id < length self.now.nodes) self.now.order }
    {
        let _ = &self.nodes;
    }
}
