//! The definitions of a bound tree in sections that stand together, one by one.

ghost use Rattle.std.specs.Prelude.{◌≡◌, [], List, MatchOption, drop, true};
ghost use Rattle.edt_base.specs.Nodes.{path_at};
ghost use Rattle.dt_names.specs.Facts.{facts, id_at, prop_facts};
ghost use Rattle.dt_names.specs.Inner.Keys.{GoOn};
ghost use Rattle.dt_names.specs.Inner.Parts.{IsNext, IsSplit, SpeakOf, base_in, base_left, props_of, sections_left};
ghost use Rattle.dt_names.specs.Pieces.{PieceData};
ghost use Rattle.dt_names.specs.Inner.Sections.{AreBased, head_section, joined, props_at, tree_section};
ghost use Rattle.dt_names.specs.Inner.Standing.{StandsAt};

use crate::child_place::node_from;
use crate::node_rows::{props_at, titled_head};
use crate::prop_rows::shown;
use crate::section::{Of, Rows, Section};
use crate::tree_rows::TitledTree;
use crate::word::Id;
use edt_base::{Bound, NodeRec, Prop};

/// The properties of a node whose definitions are left.
#[derive(Clone, Copy)]
pub(crate) struct NodeLeft<'a> {
    owner: u32,
    props: &'a [Prop],
}

/// What is left of the walk over the sections: those of the current node's properties, those of the
/// nodes from a place on, and that of the tree.
#[derive(Clone, Copy)]
pub(crate) struct Sections<'a> {
    pub(crate) bound: &'a Bound,
    node: Option<NodeLeft<'a>>,
    index: u32,
    tree: bool,
}

#[tactic(auto, using(crate::proofs::Sectioned::facts_sectioned))]
/// All sections.
pub(crate) fn all_sections(bound: &Bound) -> Sections<'_>
    ensures all { joined (sections_left result) ≡ facts bound.now }
    ensures base { base_left result ≡ [] }
{
    Sections {
        bound,
        node: None,
        index: 0,
        tree: true,
    }
}

/// The next section, and what is left then; None exactly after the last.
pub(crate) fn next_section<'a>(left: Sections<'a>) -> Option<(Section<'a>, Sections<'a>)>
    ensures { MatchOption result (sections_left left.entry ≡ [])
        (λ r. IsNext left.entry r.0.of r.0.rows r.1) }
{
    if let Some((prop, node)) = split_props(left.node) {
        return Some(next_prop(left, prop, node));
    }
    if let Some(node) = node_from(left.bound, left.index) {
        return Some(next_node(left, node));
    }
    if left.tree {
        return Some(last_section(left));
    }
    None
}

// The next of a node's properties, and what is left of the node then.
fn split_props<'a>(node: Option<NodeLeft<'a>>) -> Option<(&'a Prop, NodeLeft<'a>)>
    ensures { MatchOption result (props_of node.entry ≡ []) (λ r. IsSplit node.entry r.0.now r.1) }
{
    let node = node?;
    let (prop, props) = node.props.split_first()?;
    let left = NodeLeft {
        owner: node.owner,
        props,
    };
    Some((prop, left))
}

// The section of the next property.
fn next_prop<'a>(
    left: Sections<'a>,
    prop: &'a Prop,
    node: NodeLeft<'a>,
) -> (Section<'a>, Sections<'a>)
    requires { IsSplit left.node prop.now node }
    ensures { IsNext left.entry result.0.of result.0.rows result.1 }
{
    let section = on_prop(left.bound, node.owner, prop);
    let after = Sections {
        bound: left.bound,
        node: Some(node),
        index: left.index,
        tree: left.tree,
    };
    (section, after)
}

// The section of the next node, where no property is left of the one before.
fn next_node<'a>(left: Sections<'a>, node: &'a NodeRec) -> (Section<'a>, Sections<'a>)
    requires past { props_of left.node ≡ [] }
    requires stands { StandsAt left.bound.now.tree.nodes left.index node.now }
    ensures { IsNext left.entry result.0.of result.0.rows result.1 }
{
    let owner = left.index;
    let section = before_props(left.bound, owner, node);
    let props = props_at(left.bound, owner);
    let begun = NodeLeft { owner, props };
    let after = Sections {
        bound: left.bound,
        node: Some(begun),
        index: owner + 1,
        tree: left.tree,
    };
    (section, after)
}

// The section of the tree, where no node is left.
fn last_section<'a>(left: Sections<'a>) -> (Section<'a>, Sections<'a>)
    requires past { props_of left.node ≡ [] }
    requires none { drop left.index left.bound.now.tree.nodes ≡ [] }
    requires tree { left.tree ≡ true }
    ensures { IsNext left.entry result.0.of result.0.rows result.1 }
{
    let section = of_tree(left.bound);
    let after = Sections {
        bound: left.bound,
        node: None,
        index: left.index,
        tree: false,
    };
    (section, after)
}

#[tactic(auto, using(crate::proofs::Based::prop_based, crate::proofs::OfProp::props_of_prop))]
// The definitions on a property.
fn on_prop<'a>(bound: &'a Bound, n: u32, prop: &'a Prop) -> Section<'a>
    ensures rows { result.rows
        ≡ prop_facts bound.now.tree.nodes n (path_at bound.now.tree.nodes n) prop.now }
    ensures base { (before : List PieceData) → base_in before result.of ≡ before }
    ensures based { AreBased (id_at bound.now.tree.nodes n) result.rows }
    ensures own { SpeakOf result.of result.rows }
    ensures going { GoOn result.rows }
{
    match shown(bound, n, prop) {
        Some(rows) => Section {
            of: Of::Prop(prop.name.as_str().as_bytes()),
            rows: Rows::prop(rows),
        },
        None => Section::none(),
    }
}

#[tactic(auto, using(crate::proofs::Based::head_based))]
// The definitions of a node before those on its properties.
fn before_props<'a>(bound: &'a Bound, n: u32, node: &'a NodeRec) -> Section<'a>
    requires { path_at bound.now.tree.nodes n ≡ node.now.path }
    ensures rows { result.rows ≡ head_section bound.now n node.now }
    ensures base { (before : List PieceData) → base_in before result.of
        ≡ id_at bound.now.tree.nodes n }
    ensures based { AreBased (id_at bound.now.tree.nodes n) result.rows }
    ensures own { SpeakOf result.of result.rows }
    ensures going { GoOn result.rows }
{
    Section {
        of: Of::Node(Id::of(bound, n as usize)),
        rows: Rows::head(titled_head(bound, n, node)),
    }
}

#[tactic(auto, using(crate::proofs::Based::tree_based))]
// The definitions of the tree.
fn of_tree(bound: &Bound) -> Section<'_>
    ensures rows { result.rows ≡ tree_section bound.now }
    ensures base { (before : List PieceData) → base_in before result.of ≡ [] }
    ensures based { AreBased [] result.rows }
    ensures own { SpeakOf result.of result.rows }
    ensures going { GoOn result.rows }
{
    Section {
        of: Of::Tree,
        rows: Rows::tree(TitledTree::new(bound)),
    }
}
