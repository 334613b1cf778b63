//! All definitions of a node, in two parts: those before its properties, and those on them.

ghost use Rattle.std.specs.Prelude.{◌≡◌, ◌∷◌, [], option_map, slice_get, unwrap_or, MatchBool};
ghost use Rattle.edt_base.specs.Nodes.{path_at};
ghost use Rattle.dt_names.specs.Facts.{node_facts, titled, titled_node};
ghost use Rattle.dt_names.specs.Inner.Sections.{head_facts, head_section, props_at};

use crate::child_rows::ChildRows;
use crate::fact::{Fact, Queue};
use crate::irq_rows::ResourceRows;
use crate::match_rows::MatchRows;
use crate::place_rows::{order_rows, path_rows};
use crate::prop_rows::PropsRows;
use edt_base::{Bound, BoundNode, NodeRec, Prop};
use std::marker::Model;

/// The definitions of a node before those on its properties that are left.
#[derive(Drop)]
struct HeadRows<'a> {
    path: Queue<'a>,
    children: ChildRows<'a>,
    order: Queue<'a>,
    matches: MatchRows<'a>,
    resources: ResourceRows<'a>,
}

impl<'a> Model for HeadRows<'a> {
    ghost use Rattle.std.specs.Prelude.{◌++◌, List};
    ghost use Rattle.dt_names.specs.Facts.{FactData};

    ghost Value = { List FactData };

    ghost view = { λ s. s.path ++ (s.children ++ (s.order ++ (s.matches ++ s.resources))) };
}

impl<'a> HeadRows<'a> {
    fn new(bound: &'a Bound, n: u32, node: &'a NodeRec, bind: &'a BoundNode) -> HeadRows<'a>
        requires { path_at bound.now.tree.nodes n ≡ node.now.path }
        ensures { result ≡ head_facts bound.now n node.now bind.now }
    {
        HeadRows {
            path: path_rows(bound, n, node),
            children: ChildRows::new(bound, n, node.children()),
            order: order_rows(bound, n, bind),
            matches: MatchRows::new(bound, n, node, bind),
            resources: ResourceRows::new(bound, n, bind),
        }
    }

    fn next(&mut self, fact: &mut Fact<'a>) -> bool
        ensures { MatchBool result (self.old ≡ fact.new ∷ self.new) ((self.old ≡ [])
            × (self.new ≡ [])) }
    {
        if self.path.next(fact) {
            return true;
        }
        if self.children.next(fact) {
            return true;
        }
        if self.order.next(fact) {
            return true;
        }
        if self.matches.next(fact) {
            return true;
        }
        self.resources.next(fact)
    }
}

/// The definitions of a node before those on its properties that are left, the first of which has
/// the node's comment.
#[derive(Drop)]
pub(crate) struct TitledHead<'a> {
    title: Option<&'a [u8]>,
    rows: HeadRows<'a>,
}

impl<'a> Model for TitledHead<'a> {
    ghost use Rattle.std.specs.Prelude.{List, option_map};
    ghost use Rattle.dt_names.specs.Facts.{FactData};
    ghost use Rattle.dt_names.specs.Inner.Rows.{titled_by};

    ghost Value = { List FactData };

    ghost view = { λ s. titled_by (option_map (λ t. t.now) s.title) s.rows };
}

impl<'a> TitledHead<'a> {
    /// Those of the node n.
    pub(crate) fn new(
        bound: &'a Bound,
        n: u32,
        node: &'a NodeRec,
        bind: &'a BoundNode,
    ) -> TitledHead<'a>
        requires { path_at bound.now.tree.nodes n ≡ node.now.path }
        ensures { result ≡ titled node.now.path (head_facts bound.now n node.now bind.now) }
    {
        TitledHead {
            title: Some(node.path.as_str().as_bytes()),
            rows: HeadRows::new(bound, n, node, bind),
        }
    }

    /// Puts the next definition into `fact`; false exactly where none is left.
    pub(crate) fn next(&mut self, fact: &mut Fact<'a>) -> bool
        ensures { MatchBool result (self.old ≡ fact.new ∷ self.new) ((self.old ≡ [])
            × (self.new ≡ [])) }
    {
        if !self.rows.next(fact) {
            return false;
        }
        if let Some(title) = self.title {
            self.title = None;
            fact.title(title);
        }
        true
    }
}

/// The definitions of a node that are left.
#[derive(Drop)]
pub(crate) struct TitledNode<'a> {
    head: TitledHead<'a>,
    props: PropsRows<'a>,
}

impl<'a> Model for TitledNode<'a> {
    ghost use Rattle.std.specs.Prelude.{◌++◌, List};
    ghost use Rattle.dt_names.specs.Facts.{FactData};

    ghost Value = { List FactData };

    ghost view = { λ s. s.head ++ s.props };
}

impl<'a> TitledNode<'a> {
    #[tactic(auto, using(crate::proofs::Parted::node_parts))]
    /// Those of the node n, the first of which has the node's comment.
    pub(crate) fn new(
        bound: &'a Bound,
        n: u32,
        node: &'a NodeRec,
        bind: &'a BoundNode,
    ) -> TitledNode<'a>
        requires { path_at bound.now.tree.nodes n ≡ node.now.path }
        ensures { result ≡ titled node.now.path (node_facts bound.now n node.now bind.now) }
    {
        TitledNode {
            head: TitledHead::new(bound, n, node, bind),
            props: PropsRows::new(bound, n, props_of(bind)),
        }
    }

    /// Puts the next definition into `fact`; false exactly where none is left.
    pub(crate) fn next(&mut self, fact: &mut Fact<'a>) -> bool
        ensures { MatchBool result (self.old ≡ fact.new ∷ self.new) ((self.old ≡ [])
            × (self.new ≡ [])) }
    {
        if self.head.next(fact) {
            return true;
        }
        self.props.next(fact)
    }
}

/// The definitions of the node n before those on its properties, with its comment.
pub(crate) fn titled_head<'a>(bound: &'a Bound, n: u32, node: &'a NodeRec) -> Option<TitledHead<'a>>
    requires { path_at bound.now.tree.nodes n ≡ node.now.path }
    ensures { unwrap_or result [] ≡ head_section bound.now n node.now }
{
    let bind = bind_at(bound, n)?;
    Some(TitledHead::new(bound, n, node, bind))
}

/// The properties that are bound to the node at a place.
pub(crate) fn props_at(bound: &Bound, n: u32) -> &[Prop]
    ensures { result.now ≡ props_at bound.now n }
{
    match bind_at(bound, n) {
        Some(bind) => props_of(bind),
        None => &[],
    }
}

fn props_of(bind: &BoundNode) -> &[Prop]
    ensures { result.now ≡ bind.now.props }
{
    bind.props.as_slice()
}

/// The definitions of the node n with its comment.
pub(crate) fn titled_node<'a>(bound: &'a Bound, n: u32, node: &'a NodeRec) -> Option<TitledNode<'a>>
    requires { path_at bound.now.tree.nodes n ≡ node.now.path }
    ensures { unwrap_or result [] ≡ titled_node bound.now n node.now }
{
    let bind = bind_at(bound, n)?;
    Some(TitledNode::new(bound, n, node, bind))
}

// What is bound to the node at a place.
fn bind_at(bound: &Bound, n: u32) -> Option<&BoundNode>
    ensures { option_map (λ y. y.now) result ≡ slice_get bound.now.nodes n }
{
    bound.nodes.get(n as usize)
}
