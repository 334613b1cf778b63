//! The nodes that each node requires and supports.

ghost use Rattle.std.specs.Prelude.{◌≡◌, ◌<◌, ◌++◌, ◌^◌, [], All, IfOk, OnOk, length, replicate};
ghost use Rattle.std.specs.List.{filter_map};
ghost use Rattle.std.specs.List.Sorted.{IsStrictlyIncreasing};
ghost use Rattle.std.specs.Option.{option_map};
ghost use Rattle.edt_base.specs.EntryData.{EntryData};
ghost use Rattle.edt_base.specs.PropData.{IsTyped};
ghost use Rattle.dep_order.specs.Order.{AreWithin, required};
ghost use Rattle.dep_order.specs.Turns.{lists};
ghost use Rattle.edt_bound.specs.Relating.{AreNeedsOf, AreSupportsOf, references, with_supporter};
ghost use Rattle.edt_bound.specs.Requiring.{referred};

use edt_base::{Entry, Irq, NodeId, Prop, PropType, Tree, Val};
use std::alloc::{AllocError, Global};
use std::marker::Model;

/// Nodes by their places.
#[derive(Drop)]
pub(crate) struct Ids {
    pub(crate) list: Vec<NodeId>,
}

impl Model for Ids {
    ghost use Rattle.std.specs.Prelude.{List, ℕ};

    ghost Value = { List ℕ };

    ghost view = { λ i. i.list.items };
}

impl Ids {
    /// No node.
    pub(crate) fn new(alloc: Global) -> Ids
        ensures { result ≡ [] }
    {
        Ids {
            list: Vec::new(alloc),
        }
    }
}

/// The nodes that a node with these properties and interrupts requires, in preorder, each once
/// (Zephyr 3.7, "Devicetree API", dependency ordinals): its parent, the nodes of its phandle and
/// phandles values, the last nodes of its phandle-array entries and of its interrupts, and never
/// itself. Takes time n log n in these. The one error is want of memory.
pub(crate) fn needs_of(
    alloc: Global,
    t: &Tree,
    id: NodeId,
    props: &[Prop],
    irqs: &[Irq],
) -> Result<Vec<NodeId>, AllocError>
    requires there { id < length t.now.nodes }
    requires typed { All (IsTyped (length t.now.nodes)) props.now }
    requires controllers { All (λ (irq : EntryData). irq.controller < length t.now.nodes) irqs.now }
    ensures needs { IfOk result (λ v. AreNeedsOf t.now.nodes props.now irqs.now id v.items) }
    ensures rising { IfOk result (λ v. IsStrictlyIncreasing v.items) }
    ensures within { IfOk result (λ v. All (λ other. other < length t.now.nodes) v.items) }
{
    t.is_well_formed();
    let mut ids = references(alloc, t, id, props, irqs)?;
    ids.retain(|other| *other != id);
    ids.sort_unstable();
    ids.dedup();
    Ok(ids)
}

// What the node refers to, in any order and maybe more than once.
fn references(
    alloc: Global,
    t: &Tree,
    id: NodeId,
    props: &[Prop],
    irqs: &[Irq],
) -> Result<Vec<NodeId>, AllocError>
    requires { id < length t.now.nodes }
    ensures { IfOk result (λ v. v.items ≡ references t.now.nodes id props.now irqs.now) }
{
    let mut ids = Vec::new(alloc);
    if let Some(up) = t.parent(id) {
        ids.push(up)?;
    }
    for prop in props {
        add_referred(&mut ids, prop)?;
    }
    for irq in irqs {
        ids.push(irq.controller)?;
    }
    Ok(ids)
}

// Adds the nodes that a property refers to.
fn add_referred(ids: &mut Vec<NodeId>, prop: &Prop) -> Result<(), AllocError>
    ensures { OnOk result (ids.new.items ≡ ids.old.items ++ referred prop.now.ty prop.now.val) }
{
    match (prop.ty, &prop.val) {
        (PropType::Phandle, Val::Node(id)) => ids.push(*id)?,
        (PropType::Phandles, Val::Nodes(nodes)) => ids.extend_from_slice(nodes.as_slice())?,
        (PropType::PhandleArray, Val::Entries(entries)) => add_ends(ids, entries.as_slice())?,
        _ => {}
    }
    Ok(())
}

// Adds the last node of each entry.
fn add_ends(ids: &mut Vec<NodeId>, entries: &[Option<Entry>]) -> Result<(), AllocError>
    ensures { OnOk result (ids.new.items
        ≡ ids.old.items ++ filter_map (option_map (λ (e : EntryData). e.controller)) entries.now) }
{
    for entry in entries {
        if let Some(entry) = entry {
            ids.push(entry.controller)?;
        }
    }
    Ok(())
}

/// The nodes that require each node, in preorder, each once, where these are the nodes that each
/// requires, rising. Takes time proportional to these. The one error is want of memory.
pub(crate) fn supports_of(alloc: Global, needs: &Vec<Vec<NodeId>>) -> Result<Vec<Ids>, AllocError>
    requires few { length needs.now.items < 2 ^ 32 }
    requires within { AreWithin (lists needs.now.items) }
    requires rising { All IsStrictlyIncreasing (lists needs.now.items) }
    ensures { IfOk result (λ v. AreSupportsOf (lists needs.now.items) v.items) }
{
    let count = needs.len();
    let mut supports = no_ids(alloc, count)?;
    for place in 0..count {
        let id = NodeId(place as u32);
        add_supporter(&mut supports, required(needs, id), id)?;
    }
    Ok(supports)
}

// What a node requires.
fn required(needs: &Vec<Vec<NodeId>>, id: NodeId) -> &[NodeId]
    requires { id < length needs.now.items }
    ensures { result.now ≡ required (lists needs.now.items) id }
{
    needs[id.0 as usize].as_slice()
}

// As many empty lists.
fn no_ids(alloc: Global, count: usize) -> Result<Vec<Ids>, AllocError>
    ensures { IfOk result (λ v. v.items ≡ replicate count []) }
{
    let mut all = Vec::with_capacity(alloc, count)?;
    for _ in 0..count {
        all.push(Ids::new(alloc))?;
    }
    Ok(all)
}

// Puts a node into the list of each that it requires.
fn add_supporter(supports: &mut Vec<Ids>, needs: &[NodeId], id: NodeId) -> Result<(), AllocError>
    requires { All (λ other. other < length supports.old.items) needs.now }
    ensures { OnOk result (supports.new.items ≡ with_supporter supports.old.items needs.now id) }
{
    for other in needs {
        supports[other.0 as usize].list.push(id)?;
    }
    Ok(())
}
