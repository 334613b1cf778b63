//! All definitions of a bound tree, in order.

ghost use Rattle.std.specs.Prelude.{◌≡◌, ◌∷◌, [], MatchOption, unwrap_or, MatchBool};
ghost use Rattle.edt_base.specs.Nodes.{path_at};
ghost use Rattle.dt_names.specs.Facts.{each, facts, titled_node};

use crate::child_place::node_from;
use crate::fact::Fact;
use crate::node_rows::{TitledNode, titled_node};
use crate::tree_rows::TitledTree;
use edt_base::{Bound, NodeRec};
use std::marker::Model;

/// The definitions of all nodes that are left.
#[derive(Drop)]
struct NodesRows<'a> {
    bound: &'a Bound,
    node: Option<TitledNode<'a>>,
    index: u32,
}

impl<'a> Model for NodesRows<'a> {
    ghost use Rattle.std.specs.Prelude.{◌++◌, [], List, drop, unwrap_or};
    ghost use Rattle.dt_names.specs.Facts.{FactData, each, titled_node};

    ghost Value = { List FactData };

    ghost view = { λ s. unwrap_or s.node [] ++ each (titled_node s.bound.now) s.index
        (drop s.index s.bound.now.tree.nodes) };
}

impl<'a> NodesRows<'a> {
    fn new(bound: &'a Bound) -> NodesRows<'a>
        ensures { result ≡ each (titled_node bound.now) 0 bound.now.tree.nodes }
    {
        NodesRows {
            bound,
            node: None,
            index: 0,
        }
    }

    fn next(&mut self, fact: &mut Fact<'a>) -> bool
        ensures { MatchBool result (self.old ≡ fact.new ∷ self.new) ((self.old ≡ [])
            × (self.new ≡ [])) }
    {
        loop {
            if let Some(node) = &mut self.node {
                if node.next(fact) {
                    return true;
                }
            }
            let Some(node) = node_from(self.bound, self.index) else {
                return false;
            };
            begin_node(&mut self.node, self.bound, self.index, node);
            self.index += 1;
        }
    }
}

// Puts the definitions of the node n in the place of others. Apart from `next`, which needn't hold
// room for them: a function pays for its locals at each call.
#[inline(never)]
fn begin_node<'a>(rows: &mut Option<TitledNode<'a>>, bound: &'a Bound, n: u32, node: &'a NodeRec)
    requires { path_at bound.now.tree.nodes n ≡ node.now.path }
    ensures { unwrap_or rows.new [] ≡ titled_node bound.now n node.now }
{
    *rows = titled_node(bound, n, node);
}

/// The definitions of a bound tree that are still to come, in the header's order: those of each
/// node in preorder, then those of the tree. Contracts see the list of them. Takes no memory.
#[derive(Drop)]
pub struct Facts<'a> {
    nodes: NodesRows<'a>,
    tree: TitledTree<'a>,
}

impl<'a> Model for Facts<'a> {
    ghost use Rattle.std.specs.Prelude.{◌++◌, List};
    ghost use Rattle.dt_names.specs.Facts.{FactData};

    ghost Value = { List FactData };

    ghost view = { λ s. s.nodes ++ s.tree };
}

impl<'a> Facts<'a> {
    /// All definitions of a bound tree.
    pub fn new(b: &'a Bound) -> Facts<'a>
        ensures { result ≡ facts b.now }
    {
        Facts {
            nodes: NodesRows::new(b),
            tree: TitledTree::new(b),
        }
    }

    /// The next definition; None exactly after the last. Takes no memory.
    pub fn next(&mut self) -> Option<Fact<'a>>
        ensures { MatchOption result ((self.old ≡ []) × (self.new ≡ []))
            (λ x. self.old ≡ x ∷ self.new) }
    {
        let mut fact = Fact::nothing(self.nodes.bound);
        if self.nodes.next(&mut fact) {
            return Some(fact);
        }
        if self.tree.next(&mut fact) {
            return Some(fact);
        }
        None
    }
}
