//! Trees of three nodes, each in the one before it, made by hand.

ghost use Rattle.std.specs.Prelude.{◌≡◌, ◌<◌, [], ◌∷◌, true, false, Some, None, IfOk, IsOk, codes};
ghost use Rattle.std.specs.Prelude.{length};
ghost use Rattle.edt_base.specs.TreeData.{EndsWithZero, ancestors};
ghost use Rattle.reg_ranges.specs.Ranges.{ranges_of};
ghost use Rattle.reg_ranges.specs.Translation.{AreWhole};
ghost use Rattle.rows.specs.ThreeNodes.{node_of, top_of, middle_of, low_of, IsPlainPart};
ghost use Rattle.rows.specs.ThreeNodes.{ArePlainParts, IsPlain, IsWellFormedAlone};

use edt_base::{Bytes, Kind, NodeId, NodeRec, Part, PropVal, Text, Tree};
use indexmap::IndexMap;
use reg_ranges::ranges;
use std::alloc::{AllocError, Global};

fn text(alloc: Global, s: &str) -> Result<Text, AllocError>
    ensures { IfOk result (λ t. t ≡ s.now) }
{
    Ok(Text::new(String::from_str(alloc, s)?))
}

fn part(alloc: Global, kind: Kind, bytes: &[u8]) -> Result<Part, AllocError> {
    Ok(Part {
        kind,
        bytes: Bytes::new(Vec::from_slice(alloc, bytes)?),
    })
}

// A part for each cell: a value's bytes are read over the ends of its parts.
fn cell_parts(alloc: Global, cells: &str) -> Result<Vec<Part>, AllocError> {
    let mut parts = Vec::new(alloc);
    for cell in cells.split(',') {
        if let Ok(number) = cell.parse::<u32>() {
            parts.push(part(alloc, Kind::Hex, &number.to_be_bytes())?)?;
        }
    }
    Ok(parts)
}

// A part for each word, with a zero at its end.
fn text_parts(alloc: Global, words: &str) -> Result<Vec<Part>, AllocError> {
    let mut parts = Vec::new(alloc);
    for word in words.split(',') {
        let mut bytes = Vec::from_slice(alloc, word.as_bytes())?;
        bytes.push(0)?;
        parts.push(part(alloc, Kind::Str, bytes.as_slice())?)?;
    }
    Ok(parts)
}

// Properties: `a=1,2` of cells, `a:x,y` of strings, and `a*xy` of the bytes of a text.
fn props(alloc: Global, rows: &str) -> Result<IndexMap<Text, PropVal>, AllocError> {
    let mut props = IndexMap::new(alloc);
    for row in rows.split(' ') {
        add_row(alloc, &mut props, row)?;
    }
    Ok(props)
}

fn add_row(
    alloc: Global,
    props: &mut IndexMap<Text, PropVal>,
    row: &str,
) -> Result<(), AllocError> {
    if let Some((name, cells)) = row.split_once('=') {
        add(alloc, props, name, cell_parts(alloc, cells)?)
    } else if let Some((name, words)) = row.split_once(':') {
        add(alloc, props, name, text_parts(alloc, words)?)
    } else if let Some((name, bytes)) = row.split_once('*') {
        add(alloc, props, name, byte_parts(alloc, bytes.as_bytes())?)
    } else {
        Ok(())
    }
}

fn add(
    alloc: Global,
    props: &mut IndexMap<Text, PropVal>,
    name: &str,
    parts: Vec<Part>,
) -> Result<(), AllocError> {
    props.insert(text(alloc, name)?, PropVal { parts })?;
    Ok(())
}

fn byte_parts(alloc: Global, bytes: &[u8]) -> Result<Vec<Part>, AllocError> {
    let mut parts = Vec::new(alloc);
    parts.push(part(alloc, Kind::Hex, bytes)?)?;
    Ok(parts)
}

fn is_plain_part(part: &Part) -> bool
    ensures { result ≡ true → IsPlainPart part.now.kind part.now.bytes }
{
    match part.kind {
        Kind::Str => ends_with_zero(part.bytes.as_slice()),
        Kind::Hex => true,
        _ => false,
    }
}

fn ends_with_zero(bytes: &[u8]) -> bool
    ensures { result ≡ true → EndsWithZero bytes.now }
{
    match bytes.split_last() {
        Some((last, _)) => *last == 0,
        None => false,
    }
}

fn are_plain(parts: &[Part]) -> bool
    ensures { result ≡ true → ArePlainParts parts.now }
{
    for part in parts {
        if !is_plain_part(part) {
            return false;
        }
    }
    true
}

fn is_plain(props: &IndexMap<Text, PropVal>) -> bool
    ensures { result ≡ true → IsPlain props.now.entries }
{
    for (name, value) in props.iter() {
        if name.as_str() == "phandle" || !are_plain(value.parts.as_slice()) {
            return false;
        }
    }
    true
}

#[tactic(auto, unfolding(crate::specs::ThreeNodes::node_of))]
fn node(
    alloc: Global,
    name: &str,
    path: &str,
    parent: Option<NodeId>,
    children: Vec<NodeId>,
    props: IndexMap<Text, PropVal>,
) -> Result<NodeRec, AllocError>
    ensures { IfOk result (λ n. n ≡ node_of name.now path.now parent children.items props.entries) }
{
    Ok(NodeRec {
        name: text(alloc, name)?,
        path: text(alloc, path)?,
        parent,
        children,
        labels: Vec::new(alloc),
        props,
        compats: Vec::new(alloc),
        status: text(alloc, "okay")?,
    })
}

#[tactic(auto, unfolding(crate::specs::ThreeNodes::top_of))]
fn top_node(alloc: Global, props: IndexMap<Text, PropVal>) -> Result<NodeRec, AllocError>
    ensures { IfOk result (λ n. n ≡ top_of props.entries) }
{
    let below = only(alloc, NodeId(1))?;
    let made = node(alloc, "/", "/", None, below, props)?;
    Ok(made)
}

#[tactic(auto, unfolding(crate::specs::ThreeNodes::middle_of))]
fn middle_node(alloc: Global, props: IndexMap<Text, PropVal>) -> Result<NodeRec, AllocError>
    ensures { IfOk result (λ n. n ≡ middle_of props.entries) }
{
    let below = only(alloc, NodeId(2))?;
    let made = node(alloc, "b", "/b", Some(NodeId(0)), below, props)?;
    Ok(made)
}

#[tactic(auto, unfolding(crate::specs::ThreeNodes::low_of))]
fn low_node(alloc: Global, props: IndexMap<Text, PropVal>) -> Result<NodeRec, AllocError>
    ensures { IfOk result (λ n. n ≡ low_of props.entries) }
{
    let made = node(alloc, "e", "/b/e", Some(NodeId(1)), Vec::new(alloc), props)?;
    Ok(made)
}

fn only(alloc: Global, id: NodeId) -> Result<Vec<NodeId>, AllocError>
    ensures { IfOk result (λ v. v.items ≡ id ∷ []) }
{
    let mut ids = Vec::new(alloc);
    ids.push(id)?;
    Ok(ids)
}

fn three(
    alloc: Global,
    top: NodeRec,
    middle: NodeRec,
    low: NodeRec,
) -> Result<Vec<NodeRec>, AllocError>
    ensures { IfOk result (λ v. v.items ≡ top ∷ middle ∷ low ∷ []) }
{
    let mut nodes = Vec::new(alloc);
    nodes.push(top)?;
    nodes.push(middle)?;
    nodes.push(low)?;
    Ok(nodes)
}

// The tree of these nodes, without aliases and chosen nodes.
fn grown(alloc: Global, nodes: Vec<NodeRec>) -> Result<Tree, AllocError>
    requires { IsWellFormedAlone nodes.items }
    ensures { IfOk result (λ t. t.nodes ≡ nodes.items) }
{
    let tree = Tree::new(alloc, nodes, Vec::new(alloc), Vec::new(alloc))?;
    Ok(tree)
}

// The nodes of these properties.
fn nodes_of(
    alloc: Global,
    top: IndexMap<Text, PropVal>,
    middle: IndexMap<Text, PropVal>,
    low: IndexMap<Text, PropVal>,
) -> Result<Vec<NodeRec>, AllocError>
    ensures { IfOk result (λ v. v.items ≡ top_of top.entries ∷ middle_of middle.entries
        ∷ low_of low.entries ∷ []) }
{
    let first = top_node(alloc, top)?;
    let second = middle_node(alloc, middle)?;
    let third = low_node(alloc, low)?;
    let nodes = three(alloc, first, second, third)?;
    Ok(nodes)
}

// The tree of these properties.
fn tree_of(
    alloc: Global,
    top: IndexMap<Text, PropVal>,
    middle: IndexMap<Text, PropVal>,
    low: IndexMap<Text, PropVal>,
) -> Result<Tree, AllocError>
    requires top { IsPlain top.entries }
    requires middle { IsPlain middle.entries }
    requires low { IsPlain low.entries }
    ensures { IfOk result (λ t. length t.nodes ≡ 3) }
{
    let nodes = nodes_of(alloc, top, middle, low)?;
    let tree = grown(alloc, nodes)?;
    Ok(tree)
}

// The tree of these properties. No row has a `phandle`.
pub fn board(alloc: Global, top: &str, middle: &str, low: &str) -> Result<Tree, AllocError>
    ensures { IfOk result (λ t. length t.nodes ≡ 3) }
{
    let (top, middle, low) = (
        props(alloc, top)?,
        props(alloc, middle)?,
        props(alloc, low)?,
    );
    if !is_plain(&top) || !is_plain(&middle) || !is_plain(&low) {
        return Err(AllocError);
    }
    tree_of(alloc, top, middle, low)
}

/// Whether the ranges of all nodes are without fault, so that addresses of `/b/e` can be
/// translated.
pub fn are_whole(alloc: Global, tree: &Tree) -> bool
    ensures { result ≡ true → AreWhole tree.now.nodes (ancestors tree.now.nodes 2) }
{
    tree.is_well_formed();
    let count = tree.nodes().len() as u32;
    for id in 0..count {
        if !is_whole_at(alloc, tree, NodeId(id)) {
            return false;
        }
    }
    true
}

fn is_whole_at(alloc: Global, tree: &Tree, id: NodeId) -> bool
    requires { id < length tree.now.nodes }
    ensures { result ≡ true → IsOk (ranges_of tree.now.nodes id) }
{
    match ranges(alloc, tree, id) {
        Ok(_) => true,
        Err(_) => false,
    }
}
