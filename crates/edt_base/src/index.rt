//! Sorted lists through which a tree finds its nodes: no look-up goes over all of them.

ghost use Rattle.std.specs.Prelude.{◌≡◌, ◌^◌, option_map, ◌<◌, ◌++◌, Some, IfOk, OnOk, length, position, slice_get, unwrap_or, map, []};
ghost use Rattle.std.specs.List.{range_with_len};
ghost use Rattle.std.specs.List.Sorted.{IsPermutation, IsSortedByKey};
ghost use Rattle.std.specs.Ordering.{nat_cmp};
ghost use Rattle.std.specs.Cmp.Lexicographic.{slice_cmp};
ghost use Rattle.edt_base.specs.NodeData.{has_path, has_label, has_phandle};
ghost use Rattle.edt_base.specs.TreeData.{PathsApart, LabelsApart, PhandlesApart};
ghost use Rattle.edt_base.specs.Inner.IndexData.{ArePropOrders, IsPathIndex, IsLabelIndex, IsPhandleIndex, IsIndexOf, IsFound, label_at, label_places, label_entries, phandle_entries, entries_from};
ghost use Rattle.edt_base.specs.Nodes.{path_at, prop_at};

use crate::prop_order::PropOrder;
use crate::{NodeId, NodeRec, PropVal, Text};
use std::alloc::{AllocError, Global};
use std::cmp::Ordering;
use std::marker::Model;

/// Where a label stands: a node, and the place among its labels.
#[derive(Clone, Copy)]
pub struct LabelPlace {
    node: NodeId,
    label: usize,
}

/// A phandle and the node that has it.
#[derive(Clone, Copy)]
pub struct PhandlePlace {
    phandle: u32,
    node: NodeId,
}

/// The nodes by their paths, the labels by their texts, the phandles by their numbers and each
/// node's properties by their names, each list sorted. It holds places alone, and no copy of a
/// text.
#[derive(Drop)]
pub struct Index {
    paths: Vec<NodeId>,
    labels: Vec<LabelPlace>,
    phandles: Vec<PhandlePlace>,
    props: Vec<PropOrder>,
}

impl Model for Index {
    ghost use Rattle.edt_base.specs.Inner.IndexData.{IndexData};

    ghost Value = { IndexData };

    ghost view = { λ x. record { paths = x.paths.items; labels = x.labels.items; phandles = x.phandles.items; props = x.props.items } };
}

impl Index {
    /// The lists of these nodes, in time n log n. The one error is want of memory.
    pub fn new(alloc: Global, nodes: &[NodeRec]) -> Result<Index, AllocError>
        requires { length nodes.now < 2 ^ 32 }
        ensures { IfOk result (λ x. IsIndexOf nodes.now x) }
    {
        Ok(Index {
            paths: paths_of(alloc, nodes)?,
            labels: labels_of(alloc, nodes)?,
            phandles: phandles_of(alloc, nodes)?,
            props: prop_orders(alloc, nodes)?,
        })
    }

    /// The value of a node's property of this name, found by halving.
    pub fn prop<'a>(&self, nodes: &'a [NodeRec], id: NodeId, name: &str) -> Option<&'a PropVal>
        requires { IsIndexOf nodes.now self.now }
        ensures { option_map (λ v. v.now) result ≡ prop_at nodes.now id name.now }
    {
        let node = node_at(nodes, id)?;
        let order = self.order(id)?;
        order.find(&node.props, name)
    }

    fn order(&self, id: NodeId) -> Option<&PropOrder>
        ensures { option_map (λ o. o.now) result ≡ slice_get self.now.props id }
    {
        self.props.get(id.0 as usize)
    }

    /// The node of this path, found by halving.
    pub fn find(&self, nodes: &[NodeRec], path: &str) -> Option<NodeId>
        requires index { IsIndexOf nodes.now self.now }
        requires apart { PathsApart nodes.now }
        ensures { result ≡ position (has_path path.now) nodes.now }
    {
        find_path(nodes, self.paths.as_slice(), path)
    }

    /// The node of this label, found by halving.
    pub fn by_label(&self, nodes: &[NodeRec], label: &Text) -> Option<NodeId>
        requires index { IsIndexOf nodes.now self.now }
        requires apart { LabelsApart nodes.now }
        ensures { result ≡ position (has_label label.now) nodes.now }
    {
        find_label(nodes, self.labels.as_slice(), label)
    }

    /// The node of this phandle, found by halving.
    pub fn by_phandle(&self, nodes: &[NodeRec], number: u32) -> Option<NodeId>
        requires index { IsIndexOf nodes.now self.now }
        requires apart { PhandlesApart nodes.now }
        ensures { result ≡ position (has_phandle number) nodes.now }
    {
        find_phandle(nodes, self.phandles.as_slice(), number)
    }
}

fn node_at(nodes: &[NodeRec], id: NodeId) -> Option<&NodeRec>
    ensures { option_map (λ n. n.now) result ≡ slice_get nodes.now id }
{
    nodes.get(id.0 as usize)
}

// The path of the node at a place, empty past the nodes.
fn path_of(nodes: &[NodeRec], id: NodeId) -> &str
    ensures { result.now ≡ path_at nodes.now id }
{
    match nodes.get(id.0 as usize) {
        Some(node) => node.path.as_str(),
        None => "",
    }
}

// The label at a place, empty where there is none.
fn label_of(nodes: &[NodeRec], place: LabelPlace) -> &str
    ensures { result.now ≡ label_at nodes.now place }
{
    match nodes.get(place.node.0 as usize) {
        Some(node) => text_at(node.labels.as_slice(), place.label),
        None => "",
    }
}

// The text at a place, empty past the texts.
fn text_at(texts: &[Text], at: usize) -> &str
    ensures { result.now ≡ unwrap_or (slice_get texts.now at) [] }
{
    match texts.get(at) {
        Some(text) => text.as_str(),
        None => "",
    }
}

// The places of all nodes, in order.
fn list_paths(alloc: Global, nodes: &[NodeRec]) -> Result<Vec<NodeId>, AllocError>
    requires { length nodes.now < 2 ^ 32 }
    ensures { IfOk result (λ v. v.items ≡ map (λ i. i) (range_with_len 0 (length nodes.now))) }
{
    let mut paths = Vec::new(alloc);
    for i in 0..nodes.len() as u32 {
        paths.push(NodeId(i))?;
    }
    Ok(paths)
}

fn sort_paths(nodes: &[NodeRec], paths: &mut Vec<NodeId>)
    ensures moved { IsPermutation paths.old.items paths.new.items }
    ensures sorted { IsSortedByKey (path_at nodes.now) (slice_cmp nat_cmp) paths.new.items }
{
    paths.sort_unstable_by(|a, b| path_of(nodes, *a).cmp(path_of(nodes, *b)));
}

// The places of all nodes, sorted by their paths.
fn paths_of(alloc: Global, nodes: &[NodeRec]) -> Result<Vec<NodeId>, AllocError>
    requires { length nodes.now < 2 ^ 32 }
    ensures { IfOk result (λ v. IsPathIndex nodes.now v.items) }
{
    let mut paths = list_paths(alloc, nodes)?;
    sort_paths(nodes, &mut paths);
    Ok(paths)
}

fn find_path(nodes: &[NodeRec], paths: &[NodeId], path: &str) -> Option<NodeId>
    requires { IsPathIndex nodes.now paths.now }
    ensures { IsFound (has_path path.now) nodes.now result }
{
    match paths.binary_search_by(|id| path_of(nodes, *id).cmp(path)) {
        Ok(at) => Some(paths[at]),
        Err(_) => None,
    }
}

// The orders of all nodes' properties.
fn prop_orders(alloc: Global, nodes: &[NodeRec]) -> Result<Vec<PropOrder>, AllocError>
    ensures { IfOk result (λ v. ArePropOrders nodes.now v.items) }
{
    let mut orders = Vec::with_capacity(alloc, nodes.len())?;
    for node in nodes {
        orders.push(PropOrder::new(alloc, &node.props)?)?;
    }
    Ok(orders)
}

// Adds the places of so many labels of a node.
fn add_labels(labels: &mut Vec<LabelPlace>, node: NodeId, count: usize) -> Result<(), AllocError>
    ensures { OnOk result (labels.new.items ≡ labels.old.items ++ label_places node count) }
{
    for label in 0..count {
        labels.push(LabelPlace { node, label })?;
    }
    Ok(())
}

// The places of all labels, node by node.
fn list_labels(alloc: Global, nodes: &[NodeRec]) -> Result<Vec<LabelPlace>, AllocError>
    requires { length nodes.now < 2 ^ 32 }
    ensures { IfOk result (λ v. v.items ≡ entries_from label_entries 0 nodes.now) }
{
    let mut labels = Vec::new(alloc);
    for (i, node) in nodes.iter().enumerate() {
        add_labels(&mut labels, NodeId(i as u32), node.labels.len())?;
    }
    Ok(labels)
}

fn sort_labels(nodes: &[NodeRec], labels: &mut Vec<LabelPlace>)
    ensures moved { IsPermutation labels.old.items labels.new.items }
    ensures sorted { IsSortedByKey (label_at nodes.now) (slice_cmp nat_cmp) labels.new.items }
{
    labels.sort_unstable_by(|a, b| label_of(nodes, *a).cmp(label_of(nodes, *b)));
}

// The places of all labels, sorted by their texts.
fn labels_of(alloc: Global, nodes: &[NodeRec]) -> Result<Vec<LabelPlace>, AllocError>
    requires { length nodes.now < 2 ^ 32 }
    ensures { IfOk result (λ v. IsLabelIndex nodes.now v.items) }
{
    let mut labels = list_labels(alloc, nodes)?;
    sort_labels(nodes, &mut labels);
    Ok(labels)
}

fn find_label(nodes: &[NodeRec], labels: &[LabelPlace], label: &Text) -> Option<NodeId>
    requires { IsLabelIndex nodes.now labels.now }
    ensures { IsFound (has_label label.now) nodes.now result }
{
    match labels.binary_search_by(|place| label_of(nodes, *place).cmp(label.as_str())) {
        Ok(at) => Some(labels[at].node),
        Err(_) => None,
    }
}

// All phandles with their nodes, node by node.
fn list_phandles(alloc: Global, nodes: &[NodeRec]) -> Result<Vec<PhandlePlace>, AllocError>
    requires { length nodes.now < 2 ^ 32 }
    ensures { IfOk result (λ v. v.items ≡ entries_from phandle_entries 0 nodes.now) }
{
    let mut phandles = Vec::new(alloc);
    for (i, node) in nodes.iter().enumerate() {
        let id = NodeId(i as u32);
        match node.phandle() {
            Some(phandle) => phandles.push(PhandlePlace { phandle, node: id })?,
            None => {}
        }
    }
    Ok(phandles)
}

fn sort_phandles(phandles: &mut Vec<PhandlePlace>)
    ensures moved { IsPermutation phandles.old.items phandles.new.items }
    ensures sorted { IsSortedByKey (λ e. e.phandle) nat_cmp phandles.new.items }
{
    phandles.sort_unstable_by_key(|place| place.phandle);
}

// All phandles with their nodes, sorted by their numbers.
fn phandles_of(alloc: Global, nodes: &[NodeRec]) -> Result<Vec<PhandlePlace>, AllocError>
    requires { length nodes.now < 2 ^ 32 }
    ensures { IfOk result (λ v. IsPhandleIndex nodes.now v.items) }
{
    let mut phandles = list_phandles(alloc, nodes)?;
    sort_phandles(&mut phandles);
    Ok(phandles)
}

fn find_phandle(nodes: &[NodeRec], phandles: &[PhandlePlace], number: u32) -> Option<NodeId>
    requires { IsPhandleIndex nodes.now phandles.now }
    ensures { IsFound (has_phandle number) nodes.now result }
{
    match phandles.binary_search_by_key(&number, |place| place.phandle) {
        Ok(at) => Some(phandles[at].node),
        Err(_) => None,
    }
}
