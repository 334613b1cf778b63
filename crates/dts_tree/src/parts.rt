//! Nodes as drafts.

ghost use Rattle.std.specs.Prelude.{◌≡◌, [], Some, IfOk, map, slice_set, slice_index_or};
ghost use Rattle.dts_parse.specs.ActForm.{part_data};
ghost use Rattle.dts_tree.specs.Inner.DraftForm.{draft_part_data};
ghost use Rattle.dts_tree.specs.Inner.Grown.{ParentsRise, slot_parent, text_of};
ghost use Rattle.dts_tree.specs.Inner.Left.{placed_from, places_of, placed_at, slot_number, slot_cell, slot_part, slot_prop, or_slash, node_name, node_parent, slot_draft, slot_drafts};

use crate::draft::{Draft, DraftCell, DraftPart, DraftProp};
use crate::finder::Finder;
use crate::names::{slot_name, slot_parent, slot_text};
use crate::order::below;
use crate::rules::Known;
use crate::spot::Spot;
use dts_parse::{RawCell, RawPart, Target};
use edt_base::{Part, Text};
use std::alloc::{AllocError, Global};

/// The kept nodes, which are in preorder, as drafts.
pub(crate) fn drafts(
    alloc: Global,
    known: &Known<'_, '_>,
    kept: &[usize],
) -> Result<Vec<Draft>, AllocError>
    requires { ParentsRise known.now.finder.arena.spots }
    ensures { IfOk result (λ v. v.items
        ≡ slot_drafts known.now.finder known.now.grown known.now.props.items kept.now) }
{
    let places = places_of(alloc, known.finder.spots().len(), kept)?;
    let mut drafts = Vec::new(alloc);
    for slot in kept {
        drafts.push(draft(alloc, known, places.as_slice(), *slot)?)?;
    }
    Ok(drafts)
}

// Of each slot, its place among these.
fn places_of(alloc: Global, count: usize, slots: &[usize]) -> Result<Vec<Option<usize>>, AllocError>
    ensures { IfOk result (λ v. v.items ≡ places_of count slots.now) }
{
    let mut places = vec![in alloc; None; count]?;
    for (place, slot) in slots.iter().enumerate() {
        put(&mut places, *slot, place);
    }
    Ok(places)
}

fn put(places: &mut Vec<Option<usize>>, slot: usize, place: usize)
    ensures { places.new.items ≡ slice_set places.old.items slot (Some place) }
{
    match places.get_mut(slot) {
        Some(held) => *held = Some(place),
        None => {}
    }
}

fn placed_at(places: &[Option<usize>], slot: usize) -> Option<usize>
    ensures { result ≡ placed_at places.now slot }
{
    match places.get(slot) {
        Some(place) => *place,
        None => None,
    }
}

fn draft(
    alloc: Global,
    known: &Known<'_, '_>,
    places: &[Option<usize>],
    slot: usize,
) -> Result<Draft, AllocError>
    requires { ParentsRise known.now.finder.arena.spots }
    ensures { IfOk result (λ d. d ≡ slot_draft known.now.finder known.now.grown
        known.now.props.items places.now slot) }
{
    let spots = known.finder.spots();
    Ok(Draft {
        name: node_name(alloc, spots, slot)?,
        path: path_of(alloc, spots, slot)?,
        parent: node_parent(spots, places, slot),
        labels: copies(alloc, known.grown.labels(slot))?,
        props: props_of(alloc, known, places, below(known.props.as_slice(), slot))?,
    })
}

fn text(alloc: Global, s: &str) -> Result<Text, AllocError>
    ensures { IfOk result (λ t. t ≡ s.now) }
{
    Ok(Text::new(String::from_str(alloc, s)?))
}

fn node_name(alloc: Global, spots: &[Spot], slot: usize) -> Result<Text, AllocError>
    ensures { IfOk result (λ t. t ≡ node_name spots.now slot) }
{
    if slot == 0 {
        return text(alloc, "/");
    }
    text(alloc, slot_name(spots, slot))
}

/// A path's text, of which the root's is empty.
fn or_slash(text: &str) -> &str
    ensures { result.now ≡ or_slash text.now }
{
    if text.is_empty() { "/" } else { text }
}

/// The text of the path of a node.
pub(crate) fn path_of(alloc: Global, spots: &[Spot], slot: usize) -> Result<Text, AllocError>
    requires { ParentsRise spots.now }
    ensures { IfOk result (λ t. t ≡ or_slash (text_of spots.now slot)) }
{
    let path = slot_text(alloc, spots, slot)?;
    text(alloc, or_slash(path.as_str()))
}

fn node_parent(spots: &[Spot], places: &[Option<usize>], slot: usize) -> Option<usize>
    ensures { result ≡ node_parent spots.now places.now slot }
{
    if slot == 0 {
        return None;
    }
    placed_at(places, slot_parent(spots, slot))
}

fn copies(alloc: Global, texts: &[Text]) -> Result<Vec<Text>, AllocError>
    ensures { IfOk result (λ v. v.items ≡ texts.now) }
{
    let mut copies = Vec::new(alloc);
    for text in texts {
        copies.push(text.copy(alloc)?)?;
    }
    Ok(copies)
}

fn props_of(
    alloc: Global,
    known: &Known<'_, '_>,
    places: &[Option<usize>],
    props: &[usize],
) -> Result<Vec<DraftProp>, AllocError>
    ensures { IfOk result (λ v. v.items ≡ map
        (slot_prop known.now.finder known.now.grown places.now) props.now) }
{
    let mut drafts = Vec::new(alloc);
    for prop in props {
        drafts.push(prop_draft(alloc, known, places, *prop)?)?;
    }
    Ok(drafts)
}

fn prop_draft(
    alloc: Global,
    known: &Known<'_, '_>,
    places: &[Option<usize>],
    prop: usize,
) -> Result<DraftProp, AllocError>
    ensures { IfOk result (λ p. p ≡ slot_prop known.now.finder known.now.grown places.now prop) }
{
    let spots = known.finder.spots();
    Ok(DraftProp {
        name: text(alloc, slot_name(spots, prop))?,
        parts: parts_of(alloc, &known.finder, places, known.grown.value(prop))?,
    })
}

fn parts_of(
    alloc: Global,
    finder: &Finder<'_, '_>,
    places: &[Option<usize>],
    parts: &[RawPart],
) -> Result<Vec<DraftPart>, AllocError>
    ensures { IfOk result (λ v. map draft_part_data v.items ≡ map
        (slot_part finder.now places.now) (map part_data parts.now)) }
{
    let mut drafts = Vec::new(alloc);
    for part in parts {
        drafts.push(part_draft(alloc, finder, places, part)?)?;
    }
    Ok(drafts)
}

fn part_draft(
    alloc: Global,
    finder: &Finder<'_, '_>,
    places: &[Option<usize>],
    part: &RawPart,
) -> Result<DraftPart, AllocError>
    ensures { IfOk result (λ p. draft_part_data p ≡ slot_part finder.now places.now
        (part_data part.now)) }
{
    match part {
        RawPart::Plain(part) => Ok(DraftPart::Ready(Part {
            kind: part.kind,
            bytes: part.bytes.copy(alloc)?,
        })),
        RawPart::Cells(cells) => Ok(DraftPart::Mixed(cells_of(
            alloc,
            finder,
            places,
            cells.as_slice(),
        )?)),
        RawPart::Path(target) => Ok(DraftPart::PathTo(number_of(alloc, finder, places, target)?)),
    }
}

fn cells_of(
    alloc: Global,
    finder: &Finder<'_, '_>,
    places: &[Option<usize>],
    cells: &[RawCell],
) -> Result<Vec<DraftCell>, AllocError>
    ensures { IfOk result (λ v. v.items ≡ map (slot_cell finder.now places.now) cells.now) }
{
    let mut drafts = Vec::new(alloc);
    for cell in cells {
        drafts.push(cell_draft(alloc, finder, places, cell)?)?;
    }
    Ok(drafts)
}

fn cell_draft(
    alloc: Global,
    finder: &Finder<'_, '_>,
    places: &[Option<usize>],
    cell: &RawCell,
) -> Result<DraftCell, AllocError>
    ensures { IfOk result (λ c. c ≡ slot_cell finder.now places.now cell.now) }
{
    match cell {
        RawCell::Num(n) => Ok(DraftCell::Num(*n)),
        RawCell::Ref(target) => Ok(DraftCell::Ref(number_of(alloc, finder, places, target)?)),
    }
}

fn number_of(
    alloc: Global,
    finder: &Finder<'_, '_>,
    places: &[Option<usize>],
    target: &Target,
) -> Result<Option<usize>, AllocError>
    ensures { IfOk result (λ o. o ≡ slot_number finder.now places.now target.now) }
{
    match finder.find(alloc, target)? {
        Some(slot) => Ok(placed_at(places, slot)),
        None => Ok(None),
    }
}
