//! Nodes by their paths, and those that the properties of `/aliases` and `/chosen` name.

ghost use Rattle.std.specs.Prelude.{◌≡◌, ◌≤◌, ℕ, List, [], IfOk, length, option_map};
ghost use Rattle.std.specs.List.{filter_map, list_any};
ghost use Rattle.std.specs.Prelude.{is_none, Some, None, OnOk, if◌then◌else◌};
ghost use Rattle.std.specs.Option.{option_or};
ghost use Rattle.std.specs.BTreeMap.{get_by};
ghost use Rattle.std.specs.Ordering.{nat_cmp};
ghost use Rattle.std.specs.Cmp.Lexicographic.{slice_cmp};
ghost use Rattle.std.specs.Str.{bytes_eq};
ghost use Rattle.edt_base.specs.declared.node.Part.{Part};
ghost use Rattle.dts_tree.specs.Final.{before_last, spells_path, named_with, naming_with};
ghost use Rattle.dts_tree.specs.Final.{props_found};
ghost use Rattle.dts_tree.specs.Inner.Naming.{AreFound, finder, props_or_none};

use crate::draft::Draft;
use crate::values::Props;
use edt_base::{Kind, NodeId, PropVal, Text};
use std::alloc::{AllocError, Global};
use std::collections::BTreeMap;

/// The nodes by their paths.
pub(crate) fn paths_of<'a>(
    alloc: Global,
    drafts: &'a [Draft],
) -> Result<BTreeMap<&'a [u8], NodeId>, AllocError>
    requires { length drafts.now ≤ 65535 }
    ensures { IfOk result (λ m. AreFound drafts.now m) }
{
    let mut paths = BTreeMap::new(alloc);
    for (place, draft) in drafts.iter().enumerate() {
        note(
            &mut paths,
            draft.path.as_str().as_bytes(),
            NodeId(place as u32),
        )?;
    }
    Ok(paths)
}

// One path more, where it isn't there.
fn note<'a>(
    paths: &mut BTreeMap<&'a [u8], NodeId>,
    path: &'a [u8],
    place: NodeId,
) -> Result<(), AllocError>
    ensures { OnOk result ((q : List ℕ) → get_by (λ k. slice_cmp nat_cmp q k.now) paths.new
        ≡ option_or (get_by (λ k. slice_cmp nat_cmp q k.now) paths.old)
        (if bytes_eq path.now q then Some place else None)) }
{
    if paths.contains_key(path) {
        return Ok(());
    }
    match paths.insert(path, place) {
        Ok(_) => Ok(()),
        Err(_) => Err(AllocError),
    }
}

/// The properties of the node of a path.
fn props_at<'p>(paths: &BTreeMap<&[u8], NodeId>, all: &'p [Props], path: &str) -> Option<&'p Props>
    ensures { props_or_none (option_map (λ p. p.now) result) ≡ props_found (finder paths.now) all.now path.now }
{
    let place = paths.get(path.as_bytes())?;
    all.get(place.0 as usize)
}

/// Whether a property of the node of a path names no node.
pub(crate) fn is_one_nameless_at(paths: &BTreeMap<&[u8], NodeId>, all: &[Props], path: &str) -> bool
    ensures { result ≡ list_any
        (λ (p : List ℕ × List Part). is_none (named_with (finder paths.now) p.1))
        (props_found (finder paths.now) all.now path.now) }
{
    match props_at(paths, all, path) {
        Some(props) => is_one_nameless(paths, props),
        None => false,
    }
}

/// The properties of the node of a path that name a node, with the nodes.
pub(crate) fn named_at(
    alloc: Global,
    paths: &BTreeMap<&[u8], NodeId>,
    all: &[Props],
    path: &str,
) -> Result<Vec<(Text, NodeId)>, AllocError>
    ensures { IfOk result (λ v. v.items
        ≡ filter_map (naming_with (finder paths.now)) (props_found (finder paths.now) all.now path.now)) }
{
    match props_at(paths, all, path) {
        Some(props) => named(alloc, paths, props),
        None => Ok(Vec::new(alloc)),
    }
}

/// Whether one of these properties names no node.
fn is_one_nameless(paths: &BTreeMap<&[u8], NodeId>, props: &Props) -> bool
    ensures { result ≡ list_any
        (λ (p : List ℕ × List Part). is_none (named_with (finder paths.now) p.1))
        props.now }
{
    for (_, value) in props.map.iter() {
        if named_by(paths, value).is_none() {
            return true;
        }
    }
    false
}

/// Those of these properties that name a node, with the nodes.
fn named(
    alloc: Global,
    paths: &BTreeMap<&[u8], NodeId>,
    props: &Props,
) -> Result<Vec<(Text, NodeId)>, AllocError>
    ensures { IfOk result (λ v. v.items ≡ filter_map (naming_with (finder paths.now)) props.now) }
{
    let mut pairs = Vec::new(alloc);
    for (name, value) in props.map.iter() {
        match named_by(paths, value) {
            Some(place) => pairs.push((name.copy(alloc)?, place))?,
            None => {}
        }
    }
    Ok(pairs)
}

// The node whose path a value spells.
fn named_by(paths: &BTreeMap<&[u8], NodeId>, value: &PropVal) -> Option<NodeId>
    ensures { result ≡ named_with (finder paths.now) value.now }
{
    match value.parts.as_slice() {
        [part] if spells_path(part.kind) => {
            paths.get(before_last(part.bytes.as_slice())).copied()
        }
        _ => None,
    }
}

fn spells_path(kind: Kind) -> bool
    ensures { result ≡ spells_path kind }
{
    match kind {
        Kind::Str | Kind::Path => true,
        _ => false,
    }
}

fn before_last(bytes: &[u8]) -> &[u8]
    ensures { result.now ≡ before_last bytes.now }
{
    match bytes {
        [front @ .., _] => front,
        [] => bytes,
    }
}
