//! Phandles: those that nodes were written with, and those that they get.

ghost use Rattle.std.specs.Prelude.{◌≡◌, ◌≤◌, ◌<◌, [], None, IfOk, length, map, option_map, fold};
ghost use Rattle.std.specs.Prelude.{slice_index_or, slice_set};
ghost use Rattle.dts_tree.specs.Final.{draft_prop, cells_of, only_cell, cell_phandle};
ghost use Rattle.dts_tree.specs.Final.{written_number, written, cell_ref, part_refs, node_refs};
ghost use Rattle.dts_tree.specs.Final.{least_free, given_to, phandles};
ghost use Rattle.std.specs.List.{flat_map, filter_map};
ghost use Rattle.dts_tree.specs.Inner.DraftForm.{draft_part_data};
ghost use Rattle.dts_tree.specs.Rules.{first_bad_phandle};

use crate::draft::{Draft, DraftCell, DraftPart, DraftProp};
use std::alloc::{AllocError, Global};
use std::collections::BTreeSet;
use std::marker::Model;

/// The value of the property of this name.
pub(crate) fn draft_prop<'d>(props: &'d [DraftProp], name: &str) -> Option<&'d [DraftPart]>
    ensures { option_map (λ v. map draft_part_data v.now) result ≡ draft_prop name.now props.now }
{
    for prop in props {
        if prop.name.as_str() == name {
            return Some(prop.parts.as_slice());
        }
    }
    None
}

/// The phandle that a node was written with.
pub(crate) fn written(draft: &Draft) -> Option<u32>
    ensures { result ≡ written draft.now }
{
    written_number(draft_prop(draft.props.as_slice(), "phandle")?)
}

/// The number of a value that may be a phandle: one cell, written as a number from 1 to 2^32 - 2.
fn written_number(parts: &[DraftPart]) -> Option<u32>
    ensures { result ≡ written_number (map draft_part_data parts.now) }
{
    cell_phandle(only_cell(parts)?)
}

fn cell_phandle(cell: &DraftCell) -> Option<u32>
    ensures { result ≡ cell_phandle cell.now }
{
    match cell {
        DraftCell::Num(n) if *n >= 1 && *n <= 4_294_967_294 => Some(*n),
        _ => None,
    }
}

// The cell that a value is.
fn only_cell(parts: &[DraftPart]) -> Option<&DraftCell>
    ensures { option_map (λ c. c.now) result ≡ only_cell (map draft_part_data parts.now) }
{
    let mut only = None;
    for part in parts {
        match cells_of(part)? {
            [] => {}
            [cell] => match only {
                None => only = Some(cell),
                Some(_) => return None,
            },
            _ => return None,
        }
    }
    only
}

fn cells_of(part: &DraftPart) -> Option<&[DraftCell]>
    ensures { option_map (λ c. c.now) result ≡ cells_of (draft_part_data part.now) }
{
    match part {
        DraftPart::Mixed(cells) => Some(cells.as_slice()),
        _ => None,
    }
}

/// The first node with a property `phandle` that is none, or that an earlier node has.
pub(crate) fn first_bad_phandle(
    alloc: Global,
    drafts: &[Draft],
) -> Result<Option<&Draft>, AllocError>
    ensures { IfOk result (λ r. option_map (λ d. d.now) r ≡ first_bad_phandle [] drafts.now) }
{
    let mut seen = BTreeSet::new(alloc);
    for draft in drafts {
        match draft_prop(draft.props.as_slice(), "phandle") {
            None => {}
            Some(parts) => match written_number(parts) {
                None => return Ok(Some(draft)),
                Some(n) => {
                    if !seen.insert(n)? {
                        return Ok(Some(draft));
                    }
                }
            },
        }
    }
    Ok(None)
}

/// Each node's phandle, where it has one: written, or given since a cell refers to the node.
#[tactic(auto, unfolding(crate::specs::Final::phandles))]
pub(crate) fn phandles(alloc: Global, drafts: &[Draft]) -> Result<Vec<Option<u32>>, AllocError>
    requires { length drafts.now ≤ 65535 }
    ensures { IfOk result (λ v. v.items ≡ phandles drafts.now) }
{
    let mut giver = Giver::new(alloc, drafts)?;
    for draft in drafts {
        giver.take_node(draft);
    }
    Ok(giver.numbers)
}

/// Gives numbers to nodes. Contracts see each node's number.
#[derive(Drop)]
struct Giver {
    numbers: Vec<Option<u32>>,
    taken: BTreeSet<u32>,
    next: u32,
}

impl Model for Giver {
    ghost use Rattle.std.specs.Prelude.{ℕ, List, Option};
    ghost use Rattle.std.specs.Ordering.{nat_cmp};
    ghost use Rattle.std.specs.BTreeSet.{contains};
    ghost use Rattle.dts_tree.specs.Inner.Giving.{IsGiving};

    ghost Value = { List (Option ℕ) };

    ghost view = { λ g. g.numbers.items };

    ghost invariant = { λ g. IsGiving g.numbers.items (contains nat_cmp g.taken) g.next };
}

impl Giver {
    fn new(alloc: Global, drafts: &[Draft]) -> Result<Giver, AllocError>
        requires { length drafts.now ≤ 65535 }
        ensures { IfOk result (λ g. g ≡ map written drafts.now) }
    {
        let mut numbers = Vec::new(alloc);
        let mut taken = BTreeSet::new(alloc);
        for draft in drafts {
            let number = written(draft);
            match number {
                Some(n) => {
                    let _ = taken.insert(n)?;
                }
                None => {}
            }
            numbers.push(number)?;
        }
        Ok(Giver {
            numbers,
            taken,
            next: 1,
        })
    }

    fn take_node(&mut self, draft: &Draft)
        ensures { self.new ≡ fold given_to self.old (node_refs draft.now) }
    {
        for prop in draft.props.as_slice() {
            self.take_value(prop.parts.as_slice());
        }
    }

    fn take_value(&mut self, parts: &[DraftPart])
        ensures { self.new
            ≡ fold given_to self.old (flat_map part_refs (map draft_part_data parts.now)) }
    {
        for part in parts {
            self.take_part(part);
        }
    }

    fn take_part(&mut self, part: &DraftPart)
        ensures { self.new ≡ fold given_to self.old (part_refs (draft_part_data part.now)) }
    {
        match part {
            DraftPart::Mixed(cells) => self.take_cells(cells.as_slice()),
            _ => {}
        }
    }

    fn take_cells(&mut self, cells: &[DraftCell])
        ensures { self.new ≡ fold given_to self.old (filter_map cell_ref cells.now) }
    {
        for cell in cells {
            match cell {
                DraftCell::Ref(Some(place)) => self.give(*place),
                _ => {}
            }
        }
    }

    // The node gets the least free number where it has none.
    fn give(&mut self, place: usize)
        ensures { self.new ≡ given_to self.old place }
    {
        match self.numbers.get(place) {
            Some(None) => self.put(place),
            _ => {}
        }
    }

    fn put(&mut self, place: usize)
        requires at { place < length self.old }
        requires none { slice_index_or self.old place None ≡ None }
        ensures { self.new ≡ slice_set self.old place (Some (least_free self.old)) }
    {
        let n = self.least_free();
        self.numbers[place] = Some(n);
        self.next = n + 1;
    }

    // The least number from 1 that no node has.
    fn least_free(&self) -> u32
        ensures { result ≡ least_free self.now }
    {
        let mut n = self.next;
        while self.taken.contains(&n) {
            n += 1;
        }
        n
    }
}
