//! The instances of each compatible string.

ghost use Rattle.std.specs.Prelude.{◌≡◌, ◌<◌, ◌^◌, [], false, IfOk, List, OnOk, Some, ℕ};
ghost use Rattle.std.specs.Prelude.{if◌then◌else◌, length};
ghost use Rattle.std.specs.Map.{lookup};
ghost use Rattle.std.specs.Str.{bytes_eq};
ghost use Rattle.edt_base.specs.Instances.{AreInstances};
ghost use Rattle.edt_base.specs.Nodes.{okay_of};
ghost use Rattle.edt_bound.specs.Gathering.{AreAdded, AreGathered, IsAdded, held, inst_of};
ghost use Rattle.edt_bound.specs.Gathering.{is_last, okay_first, with_last};

use crate::matching::compats_of;
use crate::relations::Ids;
use edt_base::{Inst, NodeId, Text, Tree};
use std::alloc::{AllocError, Global};
use std::collections::BTreeMap;

/// The instances of each compatible string of a tree (Zephyr 3.7, "Devicetree API", instance
/// numbers): the okay nodes that list it in preorder, then the others in preorder. The strings
/// stand in byte order. Takes time n log n in the strings of all nodes. The one error is want of
/// memory.
pub(crate) fn instances(alloc: Global, t: &Tree) -> Result<Vec<Inst>, AllocError>
    ensures { IfOk result (λ v. AreInstances t.now.nodes v.items) }
{
    t.is_well_formed();
    let mut listing = gathered(alloc, t)?;
    let mut insts = Vec::with_capacity(alloc, listing.len())?;
    while let Some((compat, ids)) = listing.pop_first() {
        insts.push(inst(alloc, t, compat, &ids)?)?;
    }
    Ok(insts)
}

// The instances of a compatible string, by the nodes that list it.
fn inst(alloc: Global, t: &Tree, compat: Text, ids: &Ids) -> Result<Inst, AllocError>
    requires { length ids.now < 2 ^ 32 }
    ensures { IfOk result (λ i. i ≡ inst_of t.now.nodes compat ids.now) }
{
    let nodes = okay_first(alloc, t, ids.list.as_slice())?;
    let okay = okay_count(t, ids.list.as_slice());
    Ok(Inst {
        compat,
        nodes,
        okay,
    })
}

// How many of some nodes are okay.
fn okay_count(t: &Tree, ids: &[NodeId]) -> u32
    requires { length ids.now < 2 ^ 32 }
    ensures { result ≡ length (okay_of t.now.nodes ids.now) }
{
    t.okay_count(ids) as u32
}

// Of some nodes the okay ones, then the others.
fn okay_first(alloc: Global, t: &Tree, ids: &[NodeId]) -> Result<Vec<NodeId>, AllocError>
    ensures { IfOk result (λ v. v.items ≡ okay_first t.now.nodes ids.now) }
{
    let mut nodes = Vec::with_capacity(alloc, ids.len())?;
    for id in ids {
        if t.is_okay(*id) {
            nodes.push(*id)?;
        }
    }
    for id in ids {
        if !t.is_okay(*id) {
            nodes.push(*id)?;
        }
    }
    Ok(nodes)
}

// For each compatible string the nodes that list it.
fn gathered(alloc: Global, t: &Tree) -> Result<BTreeMap<Text, Ids>, AllocError>
    ensures { IfOk result (λ m. AreGathered t.now.nodes (length t.now.nodes) m.entries) }
{
    t.is_well_formed();
    let mut listing = BTreeMap::new(alloc);
    for place in 0..t.nodes().len() {
        let id = NodeId(place as u32);
        add_node(alloc, &mut listing, id, compats_of(t, id))?;
    }
    Ok(listing)
}

// Puts a node to the nodes of each of these strings.
fn add_node(
    alloc: Global,
    listing: &mut BTreeMap<Text, Ids>,
    id: NodeId,
    compats: &[Text],
) -> Result<(), AllocError>
    ensures { OnOk result (AreAdded compats.now id listing.old.entries listing.new.entries) }
{
    for compat in compats {
        add(alloc, listing, id, compat)?;
    }
    Ok(())
}

// Puts a node to the nodes of a string, unless it is the last of them already.
fn add(
    alloc: Global,
    listing: &mut BTreeMap<Text, Ids>,
    id: NodeId,
    compat: &Text,
) -> Result<(), AllocError>
    ensures { OnOk result (IsAdded compat.now id listing.old.entries listing.new.entries) }
{
    let (compat, mut ids) = take(alloc, listing, compat)?;
    put_last(&mut ids, id)?;
    put(listing, compat, ids)?;
    Ok(())
}

// Takes the nodes of a string out, none where it isn't there.
fn take(
    alloc: Global,
    listing: &mut BTreeMap<Text, Ids>,
    compat: &Text,
) -> Result<(Text, Ids), AllocError>
    ensures string { IfOk result (λ e. e.0 ≡ compat.now) }
    ensures nodes { IfOk result (λ e. e.1 ≡ held listing.old.entries compat.now) }
    ensures others { OnOk result ((q : List ℕ) → bytes_eq compat.now q ≡ false
        → lookup (bytes_eq q) listing.new.entries ≡ lookup (bytes_eq q) listing.old.entries) }
{
    match listing.remove_entry(compat) {
        Some(entry) => Ok(entry),
        None => Ok((compat.copy(alloc)?, Ids::new(alloc))),
    }
}

// Sets the nodes of a string.
fn put(listing: &mut BTreeMap<Text, Ids>, compat: Text, ids: Ids) -> Result<(), AllocError>
    ensures { OnOk result ((q : List ℕ) → lookup (bytes_eq q) listing.new.entries
        ≡ (if bytes_eq compat q then Some ids else lookup (bytes_eq q) listing.old.entries)) }
{
    listing.insert(compat, ids)?;
    Ok(())
}

// Puts a node to the end, unless it is there already.
fn put_last(ids: &mut Ids, id: NodeId) -> Result<(), AllocError>
    ensures { OnOk result (ids.new ≡ with_last ids.old id) }
{
    if !is_last(ids.list.as_slice(), id) {
        ids.list.push(id)?;
    }
    Ok(())
}

fn is_last(ids: &[NodeId], id: NodeId) -> bool
    ensures { result ≡ is_last ids.now id }
{
    match ids.last() {
        Some(last) => *last == id,
        None => false,
    }
}
