//! The tree: nodes in preorder with what `/aliases` and `/chosen` name.

ghost use Rattle.std.specs.Prelude.{◌≡◌, ◌<◌, ◌∷◌, [], All, Some, IfOk, IfSome, MatchOption, length, option_map, position, slice_get};
ghost use Rattle.edt_base.specs.NodeData.{has_path, has_label, has_phandle};
ghost use Rattle.edt_base.specs.Nodes.{children_at, is_okay, okay_of, prop_at};
ghost use Rattle.edt_base.specs.TreeData.{IsWellFormed, parent_of};

use crate::index::Index;
use crate::{NodeId, NodeRec, PropVal, Text};
use std::alloc::{AllocError, Global};
use std::marker::Model;

/// A devicetree. Contracts see its nodes, aliases and chosen nodes as the plain `TreeData`, and
/// every tree is well formed, as `IsWellFormed` says field by field.
#[derive(Drop)]
pub struct Tree {
    nodes: Vec<NodeRec>,
    aliases: Vec<(Text, NodeId)>,
    chosen: Vec<(Text, NodeId)>,
    index: Index,
}

impl Model for Tree {
    ghost use Rattle.edt_base.specs.TreeData.{TreeData, IsWellFormed};
    ghost use Rattle.edt_base.specs.Inner.IndexData.{IsIndexOf};

    ghost Value = { TreeData };

    ghost view = { λ t. record { nodes = t.nodes.items; aliases = t.aliases.items; chosen = t.chosen.items } };

    ghost invariant = { λ t. IsWellFormed (record { nodes = t.nodes.items; aliases = t.aliases.items; chosen = t.chosen.items })
        × IsIndexOf t.nodes.items t.index };
}

impl Tree {
    /// The tree of these nodes, aliases and chosen nodes, which it takes over; they must be well
    /// formed together. Makes the lists for the look-ups, in time n log n. The one error is want of
    /// memory.
    pub fn new(
        alloc: Global,
        nodes: Vec<NodeRec>,
        aliases: Vec<(Text, NodeId)>,
        chosen: Vec<(Text, NodeId)>,
    ) -> Result<Tree, AllocError>
        requires { IsWellFormed (record { nodes = nodes.items; aliases = aliases.items; chosen = chosen.items }) }
        ensures { IfOk result (λ t. t ≡ record {
          nodes = nodes.items;
          aliases = aliases.items;
          chosen = chosen.items;
        }) }
    {
        let index = Index::new(alloc, nodes.as_slice())?;
        Ok(Tree {
            nodes,
            aliases,
            chosen,
            index,
        })
    }

    /// The nodes in preorder, the root first.
    pub fn nodes(&self) -> &Vec<NodeRec>
        ensures { result.now.items ≡ self.now.nodes }
    {
        &self.nodes
    }

    /// The properties of `/aliases` that name a node, in order, with the nodes.
    pub fn aliases(&self) -> &Vec<(Text, NodeId)>
        ensures { result.now.items ≡ self.now.aliases }
    {
        &self.aliases
    }

    /// The properties of `/chosen` that name a node, in order, with the nodes.
    pub fn chosen(&self) -> &Vec<(Text, NodeId)>
        ensures { result.now.items ≡ self.now.chosen }
    {
        &self.chosen
    }

    /// The tree is well formed, as every tree: by a call, a caller's proof learns it.
    pub fn is_well_formed(&self)
        ensures { IsWellFormed self.now }
    {
        let _ = &self.nodes;
    }

    /// The node at a place, which must be below the number of nodes. Takes no memory.
    pub fn node(&self, id: NodeId) -> &NodeRec
        requires { id < length self.now.nodes }
        ensures { slice_get self.now.nodes id ≡ Some result.now }
    {
        &self.nodes[id.0 as usize]
    }

    /// The parent of a node, whose place must be below the number of nodes; None for the root. A
    /// parent stands before its children. Takes no memory.
    pub fn parent(&self, id: NodeId) -> Option<NodeId>
        requires { id < length self.now.nodes }
        ensures parent { result ≡ parent_of self.now.nodes id }
        ensures before { IfSome result (λ up. up < id) }
        ensures there { IfSome result (λ up. up < length self.now.nodes) }
    {
        self.is_well_formed();
        self.node(id).parent
    }

    /// The children of a node, whose place must be below the number of nodes, in preorder. Takes no
    /// memory.
    pub fn children(&self, id: NodeId) -> &[NodeId]
        requires { id < length self.now.nodes }
        ensures children { result.now ≡ children_at self.now.nodes id }
        ensures there { All (λ child. child < length self.now.nodes) result.now }
    {
        self.is_well_formed();
        self.node(id).children()
    }

    /// Whether a node is okay: its status is `okay`, which an absent one and `ok` count as too.
    /// None past the nodes is. Takes no memory.
    pub fn is_okay(&self, id: NodeId) -> bool
        ensures { result ≡ is_okay self.now.nodes id }
    {
        match self.nodes.get(id.0 as usize) {
            Some(node) => node.status.as_str() == "okay",
            None => false,
        }
    }

    /// The first of some nodes that is okay, and those after it. Takes no memory.
    pub fn next_okay<'a>(&self, ids: &'a [NodeId]) -> Option<(NodeId, &'a [NodeId])>
        ensures { MatchOption result (okay_of self.now.nodes ids.now ≡ [])
            (λ r. okay_of self.now.nodes ids.now ≡ r.0 ∷ okay_of self.now.nodes r.1.now) }
    {
        let mut left = ids;
        while let Some((id, rest)) = left.split_first() {
            if self.is_okay(*id) {
                return Some((*id, rest));
            }
            left = rest;
        }
        None
    }

    /// How many of some nodes are okay. Takes no memory.
    pub fn okay_count(&self, ids: &[NodeId]) -> usize
        ensures { result ≡ length (okay_of self.now.nodes ids.now) }
    {
        let mut count: usize = 0;
        let mut left = ids;
        while let Some((id, rest)) = left.split_first() {
            if self.is_okay(*id) {
                count += 1;
            }
            left = rest;
        }
        count
    }

    /// The value of a node's property of this name; None exactly where the node has no such
    /// property. The node's place must be below the number of nodes. Logarithmic in the number of
    /// the node's properties; takes no memory.
    pub fn prop(&self, id: NodeId, name: &str) -> Option<&PropVal>
        requires { id < length self.now.nodes }
        ensures { option_map (λ v. v.now) result ≡ prop_at self.now.nodes id name.now }
    {
        self.index.prop(self.nodes.as_slice(), id, name)
    }

    /// The node of this path; None exactly where no node has it. Logarithmic in the number of
    /// nodes; takes no memory.
    pub fn find(&self, path: &Text) -> Option<NodeId>
        ensures { result ≡ position (has_path path.now) self.now.nodes }
    {
        self.find_str(path.as_str())
    }

    /// The same of a path that is no `Text`.
    pub fn find_str(&self, path: &str) -> Option<NodeId>
        ensures { result ≡ position (has_path path.now) self.now.nodes }
    {
        self.index.find(self.nodes.as_slice(), path)
    }

    /// The node of this label; None exactly where no node has it. Logarithmic in the number of
    /// labels; takes no memory.
    pub fn by_label(&self, label: &Text) -> Option<NodeId>
        ensures { result ≡ position (has_label label.now) self.now.nodes }
    {
        self.index.by_label(self.nodes.as_slice(), label)
    }

    /// The node of this phandle; None exactly where no node has it. Logarithmic in the number of
    /// phandles; takes no memory.
    pub fn by_phandle(&self, n: u32) -> Option<NodeId>
        ensures { result ≡ position (has_phandle n) self.now.nodes }
    {
        self.index.by_phandle(self.nodes.as_slice(), n)
    }
}
