//! The names in the text of a path, and the text of a node's path.

ghost use Rattle.std.specs.Prelude.{◌≡◌, [], IfOk, fold, map, nat_eq, reverse};
ghost use Rattle.std.specs.List.{slice_split};
ghost use Rattle.dts_tree.specs.Inner.Grown.{ParentsRise, lens_of, next_len, text_of, with_slash, slot_parent, slot_name};

use crate::spot::Spot;
use edt_base::Text;
use std::alloc::{AllocError, Global};

/// What stands between the slashes of a path's text.
pub(crate) fn names_of(alloc: Global, path: &Text) -> Result<Vec<Text>, AllocError>
    ensures { IfOk result (λ v. v.items ≡ slice_split (λ b. nat_eq b 47) path.now) }
{
    let mut names = Vec::new(alloc);
    for name in pieces(alloc, path.as_str())?.as_slice() {
        names.push(Text::new(String::from_str(alloc, *name)?))?;
    }
    Ok(names)
}

fn pieces<'a>(alloc: Global, text: &'a str) -> Result<Vec<&'a str>, AllocError>
    ensures { IfOk result (λ v. map (λ x. x.now) v.items ≡ slice_split
        (λ b. nat_eq b 47) text.now) }
{
    text.split('/').collect(alloc)
}

/// The length of the text of each slot's path; the root's is 0 here.
pub(crate) fn path_lens(alloc: Global, spots: &[Spot]) -> Result<Vec<u64>, AllocError>
    ensures { IfOk result (λ v. v.items ≡ lens_of spots.now) }
{
    let mut lens: Vec<u64> = Vec::new(alloc);
    for spot in spots {
        let len = next_len(lens.as_slice(), spot);
        lens.push(len)?;
    }
    Ok(lens)
}

fn next_len(lens: &[u64], spot: &Spot) -> u64
    ensures { result ≡ next_len lens.now spot.now }
{
    match lens.get(spot.parent) {
        Some(len) => len
            .saturating_add(spot.step.name().as_str().len() as u64)
            .saturating_add(1),
        None => 0,
    }
}

/// The text of the path of a slot; the root's is empty here.
pub(crate) fn slot_text(alloc: Global, spots: &[Spot], slot: usize) -> Result<Text, AllocError>
    requires { ParentsRise spots.now }
    ensures { IfOk result (λ t. t ≡ text_of spots.now slot) }
{
    let mut chain = chain_of(alloc, spots, slot)?;
    let mut text = String::new(alloc);
    while let Some(at) = chain.pop() {
        text.push_str("/")?;
        text.push_str(slot_name(spots, at))?;
    }
    Ok(Text::new(text))
}

// A slot and those above it but the root.
fn chain_of(alloc: Global, spots: &[Spot], slot: usize) -> Result<Vec<usize>, AllocError>
    requires { ParentsRise spots.now }
    ensures { IfOk result (λ v. fold (with_slash spots.now) [] (reverse v.items)
        ≡ text_of spots.now slot) }
{
    let mut chain = Vec::new(alloc);
    let mut at = slot;
    while at != 0 {
        chain.push(at)?;
        at = slot_parent(spots, at);
    }
    Ok(chain)
}

/// The slot in which one stands.
pub(crate) fn slot_parent(spots: &[Spot], slot: usize) -> usize
    ensures { result ≡ slot_parent spots.now slot }
{
    match spots.get(slot) {
        Some(spot) => spot.parent,
        None => 0,
    }
}

/// The name of the step to a slot.
pub(crate) fn slot_name<'a>(spots: &'a [Spot], slot: usize) -> &'a str
    ensures { result.now ≡ slot_name spots.now slot }
{
    match spots.get(slot) {
        Some(spot) => spot.step.name().as_str(),
        None => "",
    }
}
