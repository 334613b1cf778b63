//! The rules that speak of all nodes, and which nodes stay.

ghost use Rattle.std.specs.Prelude.{◌≡◌, [], IfOk, OnOk, true, map, fold, slice_set};
ghost use Rattle.std.specs.Str.{bytes_eq};
ghost use Rattle.dts_parse.specs.ActForm.{part_data};
ghost use Rattle.dts_tree.specs.Live.{with_new};
ghost use Rattle.dts_tree.specs.Whole.{cell_targets, part_targets};
ghost use Rattle.dts_tree.specs.Inner.Grown.{len_at, slots_too_many, path_size, slot_part_size, size_from, has_large, first_large_slot, any_seen, shared_from, wants, wanted_parts, wanted_by, wanted_from, stays_at, stays_list, below_in};

use crate::finder::Finder;
use crate::grown::{Grown, Names};
use crate::order::{below, is_set};
use crate::slots::Slots;
use dts_parse::{RawCell, RawPart, Target};
use edt_base::Text;
use std::alloc::{AllocError, Global};

fn len_at(lens: &[u64], slot: usize) -> u64
    ensures { result ≡ len_at lens.now slot }
{
    match lens.get(slot) {
        Some(len) => (*len).max(1),
        None => 1,
    }
}

/// Whether there are too many nodes, or paths of too many bytes.
pub(crate) fn are_too_many(slots: &[usize], lens: &[u64]) -> bool
    ensures { result ≡ slots_too_many slots.now lens.now }
{
    let mut all: u64 = 0;
    for slot in slots {
        all = all.saturating_add(len_at(lens, *slot));
    }
    slots.len() > 65_535 || all > 16_777_216
}

/// What is known of all slots where the rules are tested.
#[derive(Drop)]
pub(crate) struct Known<'r, 'a> {
    pub(crate) finder: Finder<'r, 'a>,
    pub(crate) grown: Grown<'a>,
    pub(crate) props: Vec<Slots>,
}

/// The first node with a property of too many bytes.
pub(crate) fn first_large(
    alloc: Global,
    known: &Known<'_, '_>,
    slots: &[usize],
    lens: &[u64],
) -> Result<Option<usize>, AllocError>
    ensures { IfOk result (λ o. o ≡ first_large_slot known.now.finder known.now.grown lens.now
        known.now.props.items slots.now) }
{
    for slot in slots {
        if has_large(
            alloc,
            &known.finder,
            &known.grown,
            below(known.props.as_slice(), *slot),
            lens,
        )? {
            return Ok(Some(*slot));
        }
    }
    Ok(None)
}

fn has_large(
    alloc: Global,
    finder: &Finder<'_, '_>,
    grown: &Grown<'_>,
    props: &[usize],
    lens: &[u64],
) -> Result<bool, AllocError>
    ensures { IfOk result (λ b. b ≡ has_large finder.now grown.now lens.now props.now) }
{
    for prop in props {
        if value_size(alloc, finder, grown.value(*prop), lens)? > 65_536 {
            return Ok(true);
        }
    }
    Ok(false)
}

fn value_size(
    alloc: Global,
    finder: &Finder<'_, '_>,
    parts: &[RawPart],
    lens: &[u64],
) -> Result<u64, AllocError>
    ensures { IfOk result (λ n. n ≡ size_from finder.now lens.now 0 (map part_data parts.now)) }
{
    let mut size: u64 = 0;
    for part in parts {
        size = size.saturating_add(part_size(alloc, finder, part, lens)?);
    }
    Ok(size)
}

fn part_size(
    alloc: Global,
    finder: &Finder<'_, '_>,
    part: &RawPart,
    lens: &[u64],
) -> Result<u64, AllocError>
    ensures { IfOk result (λ n. n ≡ slot_part_size finder.now lens.now (part_data part.now)) }
{
    match part {
        RawPart::Plain(part) => Ok(part.bytes.as_slice().len() as u64),
        RawPart::Cells(cells) => Ok((cells.len() as u64).saturating_mul(4)),
        RawPart::Path(target) => Ok(path_size(lens, finder.find(alloc, target)?)),
    }
}

fn path_size(lens: &[u64], slot: Option<usize>) -> u64
    ensures { result ≡ path_size lens.now slot }
{
    match slot {
        Some(slot) => len_at(lens, slot).saturating_add(1),
        None => 0,
    }
}

/// The first node with a label that an earlier one has.
pub(crate) fn first_label_shared(
    alloc: Global,
    grown: &Grown<'_>,
    slots: &[usize],
) -> Result<Option<usize>, AllocError>
    ensures { IfOk result (λ o. o ≡ shared_from grown.now [] slots.now) }
{
    let mut seen = Names::new(alloc);
    for slot in slots {
        if any_seen(&seen, grown.labels(*slot)) {
            return Ok(Some(*slot));
        }
        put_all(alloc, &mut seen, grown.labels(*slot))?;
    }
    Ok(None)
}

fn any_seen(seen: &Names, labels: &[Text]) -> bool
    ensures { result ≡ any_seen seen.now labels.now }
{
    for label in labels {
        if seen.has(label) {
            return true;
        }
    }
    false
}

fn put_all(alloc: Global, seen: &mut Names, labels: &[Text]) -> Result<(), AllocError>
    ensures { OnOk result (seen.new ≡ fold (with_new bytes_eq) seen.old labels.now) }
{
    for label in labels {
        seen.put(alloc, label)?;
    }
    Ok(())
}

/// Of each slot, whether it is kept and stays: marked nodes that no reference names don't.
pub(crate) fn stays_list(
    alloc: Global,
    keep: &[bool],
    marks: &[bool],
    wanted: &[bool],
) -> Result<Vec<bool>, AllocError>
    ensures { IfOk result (λ v. v.items ≡ stays_list keep.now marks.now wanted.now) }
{
    (0..keep.len())
        .map(|slot| stays_at(keep, marks, wanted, slot))
        .collect(alloc)
}

fn stays_at(keep: &[bool], marks: &[bool], wanted: &[bool], slot: usize) -> bool
    ensures { result ≡ stays_at keep.now marks.now wanted.now slot }
{
    is_set(keep, slot) && !(is_set(marks, slot) && !is_set(wanted, slot))
}

/// Marks the slots that references in the values of these nodes name.
pub(crate) fn want_nodes(
    alloc: Global,
    known: &Known<'_, '_>,
    marks: &mut Vec<bool>,
    slots: &[usize],
) -> Result<(), AllocError>
    ensures { OnOk result (marks.new.items
        ≡ wanted_from known.now.finder known.now.grown known.now.props.items marks.old.items
        slots.now) }
{
    for slot in slots {
        want_props(
            alloc,
            &known.finder,
            &known.grown,
            marks,
            below(known.props.as_slice(), *slot),
        )?;
    }
    Ok(())
}

fn want_props(
    alloc: Global,
    finder: &Finder<'_, '_>,
    grown: &Grown<'_>,
    marks: &mut Vec<bool>,
    props: &[usize],
) -> Result<(), AllocError>
    ensures { OnOk result (marks.new.items ≡ fold
        (wanted_by finder.now grown.now) marks.old.items props.now) }
{
    for prop in props {
        want_parts(alloc, finder, marks, grown.value(*prop))?;
    }
    Ok(())
}

fn want_parts(
    alloc: Global,
    finder: &Finder<'_, '_>,
    marks: &mut Vec<bool>,
    parts: &[RawPart],
) -> Result<(), AllocError>
    ensures { OnOk result (marks.new.items ≡ wanted_parts finder.now marks.old.items
        (map part_data parts.now)) }
{
    for part in parts {
        want_part(alloc, finder, marks, part)?;
    }
    Ok(())
}

fn want_part(
    alloc: Global,
    finder: &Finder<'_, '_>,
    marks: &mut Vec<bool>,
    part: &RawPart,
) -> Result<(), AllocError>
    ensures { OnOk result (marks.new.items ≡ fold (wants finder.now) marks.old.items
        (part_targets (part_data part.now))) }
{
    match part {
        RawPart::Plain(_) => Ok(()),
        RawPart::Cells(cells) => want_cells(alloc, finder, marks, cells.as_slice()),
        RawPart::Path(target) => want(alloc, finder, marks, target),
    }
}

fn want_cells(
    alloc: Global,
    finder: &Finder<'_, '_>,
    marks: &mut Vec<bool>,
    cells: &[RawCell],
) -> Result<(), AllocError>
    ensures { OnOk result (marks.new.items ≡ fold (wants finder.now) marks.old.items
        (cell_targets cells.now)) }
{
    for cell in cells {
        match cell {
            RawCell::Num(_) => {}
            RawCell::Ref(target) => want(alloc, finder, marks, target)?,
        }
    }
    Ok(())
}

fn want(
    alloc: Global,
    finder: &Finder<'_, '_>,
    marks: &mut Vec<bool>,
    target: &Target,
) -> Result<(), AllocError>
    ensures { OnOk result (marks.new.items ≡ wants finder.now marks.old.items target.now) }
{
    match finder.find(alloc, target)? {
        Some(slot) => mark(marks, slot),
        None => {}
    }
    Ok(())
}

fn mark(marks: &mut Vec<bool>, slot: usize)
    ensures { marks.new.items ≡ slice_set marks.old.items slot true }
{
    match marks.get_mut(slot) {
        Some(mark) => *mark = true,
        None => {}
    }
}
