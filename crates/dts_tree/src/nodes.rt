//! The nodes of the tree.

ghost use Rattle.std.specs.Prelude.{◌≡◌, ◌≤◌, ◌<◌, ◌^◌, ◌++◌, ◌∷◌, [], All, IfOk, IfSome, OnOk};
ghost use Rattle.std.specs.Prelude.{is_none, length, map, replicate, unwrap_or};
ghost use Rattle.std.specs.List.{range_with_len};
ghost use Rattle.dts_tree.specs.Final.{compats_of, okay_for_ok, status_of, below_from, node_of};
ghost use Rattle.dts_tree.specs.Rules.{is_mistyped};
ghost use Rattle.dts_tree.specs.Inner.Nodes.{with_child, nodes_from, HasLowParent};

use crate::draft::Draft;
use crate::values::{Props, text};
use edt_base::{NodeId, NodeRec, Text};
use std::alloc::{AllocError, Global};
use std::marker::Model;

/// Nodes, in order.
#[derive(Drop)]
pub(crate) struct Ids {
    list: Vec<NodeId>,
}

impl Model for Ids {
    ghost use Rattle.std.specs.Prelude.{ℕ, List};

    ghost Value = { List ℕ };

    ghost view = { λ i. i.list.items };
}

impl Ids {
    fn new(alloc: Global) -> Ids
        ensures { result ≡ [] }
    {
        Ids {
            list: Vec::new(alloc),
        }
    }

    fn push(&mut self, id: NodeId) -> Result<(), AllocError>
        ensures { OnOk result (self.new ≡ self.old ++ id ∷ []) }
    {
        self.list.push(id)?;
        Ok(())
    }
}

/// The children of each node.
pub(crate) fn children_of(alloc: Global, drafts: &[Draft]) -> Result<Vec<Ids>, AllocError>
    requires { length drafts.now ≤ 65535 }
    ensures { IfOk result
        (λ v. v.items ≡ map (below_from 0 drafts.now) (range_with_len 0 (length drafts.now))) }
{
    let mut lists = lists(alloc, drafts.len())?;
    for (place, draft) in drafts.iter().enumerate() {
        put(&mut lists, draft.parent, NodeId(place as u32))?;
    }
    Ok(lists)
}

// So many empty lists.
fn lists(alloc: Global, count: usize) -> Result<Vec<Ids>, AllocError>
    ensures { IfOk result (λ v. v.items ≡ replicate count []) }
{
    let mut lists = Vec::new(alloc);
    for _ in 0..count {
        lists.push(Ids::new(alloc))?;
    }
    Ok(lists)
}

fn put(lists: &mut Vec<Ids>, parent: Option<usize>, id: NodeId) -> Result<(), AllocError>
    ensures { OnOk result (lists.new.items ≡ with_child lists.old.items parent id) }
{
    match parent {
        Some(parent) => match lists.get_mut(parent) {
            Some(ids) => ids.push(id),
            None => Ok(()),
        },
        None => Ok(()),
    }
}

/// The nodes of drafts, with their properties and children.
pub(crate) fn nodes(
    alloc: Global,
    drafts: Vec<Draft>,
    all: Vec<Props>,
    children: Vec<Ids>,
) -> Result<Vec<NodeRec>, AllocError>
    requires { All HasLowParent drafts.items }
    ensures { IfOk result (λ v. v.items ≡ nodes_from drafts.items all.items children.items) }
{
    let mut nodes = Vec::new(alloc);
    for ((draft, props), ids) in drafts.into_iter().zip(all).zip(children) {
        nodes.push(node(alloc, draft, props, ids)?)?;
    }
    Ok(nodes)
}

fn node(alloc: Global, draft: Draft, props: Props, children: Ids) -> Result<NodeRec, AllocError>
    requires { IfSome draft.parent (λ p. p < 2 ^ 32) }
    ensures { IfOk result (λ n. n ≡ node_of draft props children) }
{
    let compats = compats_of(alloc, &props)?;
    let status = status_of(alloc, &props)?;
    let Props { map } = props;
    let Ids { list } = children;
    let Draft {
        name,
        path,
        parent,
        labels,
        props: _,
    } = draft;
    Ok(NodeRec {
        name,
        path,
        parent: id_of(parent),
        children: list,
        labels,
        props: map,
        compats,
        status,
    })
}

fn id_of(place: Option<usize>) -> Option<NodeId>
    requires { IfSome place (λ p. p < 2 ^ 32) }
    ensures { result ≡ place }
{
    match place {
        Some(place) => Some(NodeId(place as u32)),
        None => None,
    }
}

/// Whether `compatible` is no list of strings, or `status` is no string.
pub(crate) fn is_mistyped(props: &Props) -> bool
    ensures { result ≡ is_mistyped props.now }
{
    has_no_compats(props) || has_no_status(props)
}

fn has_no_compats(props: &Props) -> bool
    ensures { result ≡ is_none (compats_of props.now) }
{
    match props.get("compatible") {
        Some(value) => !value.are_strings(),
        None => false,
    }
}

fn has_no_status(props: &Props) -> bool
    ensures { result ≡ is_none (status_of props.now) }
{
    match props.get("status") {
        Some(value) => value.string().is_none(),
        None => false,
    }
}

fn compats_of(alloc: Global, props: &Props) -> Result<Vec<Text>, AllocError>
    ensures { IfOk result (λ v. v.items ≡ unwrap_or (compats_of props.now) []) }
{
    match props.get("compatible") {
        Some(value) => {
            if value.are_strings() {
                value.strings(alloc)
            } else {
                Ok(Vec::new(alloc))
            }
        }
        None => Ok(Vec::new(alloc)),
    }
}

fn status_of(alloc: Global, props: &Props) -> Result<Text, AllocError>
    ensures { IfOk result (λ t. t ≡ unwrap_or (status_of props.now) []) }
{
    match props.get("status") {
        Some(value) => match value.string() {
            Some(status) => text(alloc, okay_for_ok(status)),
            None => text(alloc, ""),
        },
        None => text(alloc, "okay"),
    }
}

fn okay_for_ok(status: &str) -> &str
    ensures { result.now ≡ okay_for_ok status.now }
{
    if status == "ok" { "okay" } else { status }
}
