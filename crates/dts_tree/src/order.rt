//! Nodes before what stands in them.

ghost use Rattle.std.specs.Prelude.{◌≡◌, [], IfOk, OnOk, ◌<◌, length, false, replicate, reverse, slice_index_or};
ghost use Rattle.dts_tree.specs.Inner.Arena.{pushed};
ghost use Rattle.dts_tree.specs.Inner.Grown.{is_kid, kids_of, alive_list, below_in, AreRising, order_of};

use crate::slots::Slots;
use crate::spot::Spot;
use std::alloc::{AllocError, Global};

/// Of each slot those below it that are kept, in order: the nodes, or the properties.
pub(crate) fn kids_of(
    alloc: Global,
    spots: &[Spot],
    keep: &[bool],
    nodes: bool,
) -> Result<Vec<Slots>, AllocError>
    ensures { IfOk result (λ v. v.items ≡ kids_of spots.now keep.now nodes) }
{
    let mut lists = lists(alloc, spots.len())?;
    for (slot, spot) in spots.iter().enumerate() {
        if is_kid(keep, nodes, slot, spot) {
            put(&mut lists, spot.parent, slot)?;
        }
    }
    Ok(lists)
}

/// Whether a slot is kept and is a node below the root, or a property.
pub(crate) fn is_kid(keep: &[bool], nodes: bool, slot: usize, spot: &Spot) -> bool
    ensures { result ≡ is_kid keep.now nodes slot spot.now }
{
    is_set(keep, slot) && 0 < slot && (if spot.is_child() { nodes } else { !nodes })
}

/// Whether a slot has a mark.
pub(crate) fn is_set(marks: &[bool], slot: usize) -> bool
    ensures { result ≡ slice_index_or marks.now slot false }
{
    match marks.get(slot) {
        Some(mark) => *mark,
        None => false,
    }
}

fn put(lists: &mut Vec<Slots>, at: usize, slot: usize) -> Result<(), AllocError>
    ensures { OnOk result (lists.new.items ≡ pushed lists.old.items at slot) }
{
    match lists.get_mut(at) {
        Some(list) => list.push(slot),
        None => Ok(()),
    }
}

// So many empty lists.
fn lists(alloc: Global, count: usize) -> Result<Vec<Slots>, AllocError>
    ensures { IfOk result (λ v. v.items ≡ replicate count []) }
{
    let mut lists = Vec::new(alloc);
    for _ in 0..count {
        lists.push(Slots::new(alloc))?;
    }
    Ok(lists)
}

/// Of each slot, whether it wasn't taken away.
pub(crate) fn alive_list(alloc: Global, gone: &[bool]) -> Result<Vec<bool>, AllocError>
    ensures { IfOk result (λ v. v.items ≡ alive_list gone.now) }
{
    gone.iter().map(|gone| !*gone).collect(alloc)
}

/// The root and all below it, each before what is below it.
pub(crate) fn order_of(alloc: Global, lists: &[Slots]) -> Result<Vec<usize>, AllocError>
    requires some { 0 < length lists.now }
    requires rising { AreRising lists.now }
    ensures { IfOk result (λ v. v.items ≡ order_of lists.now) }
{
    let mut out = Vec::new(alloc);
    let mut waiting = Vec::new(alloc);
    waiting.push(0)?;
    while let Some(slot) = waiting.pop() {
        out.push(slot)?;
        let mut next = turned(alloc, lists, slot)?;
        waiting.append(&mut next)?;
    }
    Ok(out)
}

// The slots below one, the last first.
fn turned(alloc: Global, lists: &[Slots], slot: usize) -> Result<Vec<usize>, AllocError>
    ensures { IfOk result (λ v. v.items ≡ reverse (below_in lists.now slot)) }
{
    let mut next = Vec::from_slice(alloc, below(lists, slot))?;
    next.reverse();
    Ok(next)
}

/// The slots below one.
pub(crate) fn below(lists: &[Slots], slot: usize) -> &[usize]
    ensures { result.now ≡ below_in lists.now slot }
{
    match lists.get(slot) {
        Some(list) => list.as_slice(),
        None => &[],
    }
}
