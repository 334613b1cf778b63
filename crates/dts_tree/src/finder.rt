//! References, once all statements are carried out.

ghost use Rattle.std.specs.Prelude.{◌≡◌, None, IfOk, map};
ghost use Rattle.dts_tree.specs.Inner.Arena.{named, is_gone};
ghost use Rattle.dts_tree.specs.Inner.Grown.{last_alive};
ghost use Rattle.dts_tree.specs.Inner.Machine.{named_slot};
ghost use Rattle.dts_tree.specs.Inner.Finding.{tops_of, top_at};

use crate::arena::Arena;
use crate::reader::Reader;
use crate::slots::Slots;
use crate::spot::Spot;
use dts_parse::Target;
use edt_base::Text;
use std::alloc::{AllocError, Global};
use std::marker::Model;

/// What the statements left, and of each label's number the node that it names.
#[derive(Drop)]
pub(crate) struct Finder<'r, 'a> {
    reader: &'r Reader<'a>,
    tops: Vec<Option<usize>>,
}

impl<'r, 'a> Model for Finder<'r, 'a> {
    ghost use Rattle.std.specs.Prelude.{◌≡◌};
    ghost use Rattle.dts_tree.specs.Inner.Machine.{ReaderData};
    ghost use Rattle.dts_tree.specs.Inner.Finding.{tops_of};

    ghost Value = { ReaderData };

    ghost view = { λ f. f.reader.now };

    ghost invariant = { λ f. f.tops.items ≡ tops_of f.reader.now };
}

impl<'r, 'a> Finder<'r, 'a> {
    /// Looks at each label once.
    pub(crate) fn new(alloc: Global, reader: &'r Reader<'a>) -> Result<Finder<'r, 'a>, AllocError>
        ensures { IfOk result (λ f. f ≡ reader.now) }
    {
        Ok(Finder {
            reader,
            tops: tops(alloc, &reader.arena, reader.labels.stacks())?,
        })
    }

    /// What the statements left.
    pub(crate) fn reader(&self) -> &'r Reader<'a>
        ensures { result.now ≡ self.now }
    {
        self.reader
    }

    /// What each slot is.
    pub(crate) fn spots(&self) -> &[Spot]
        ensures { result.now ≡ self.now.arena.spots }
    {
        let reader = self.reader;
        reader.arena.spots.as_slice()
    }

    /// The slot of the node that a reference names.
    pub(crate) fn find(&self, alloc: Global, target: &Target) -> Result<Option<usize>, AllocError>
        ensures { IfOk result (λ o. o ≡ named_slot self.now target.now) }
    {
        let reader = self.reader;
        match target {
            Target::Root => Ok(Some(0)),
            Target::Child(_) => Ok(None),
            Target::ByLabel(label) => Ok(top_at(self.tops.as_slice(), reader.labels.number(label))),
            Target::ByPath(path) => reader.arena.by_path(alloc, path),
        }
    }
}

fn top_at(tops: &[Option<usize>], number: Option<usize>) -> Option<usize>
    ensures { result ≡ top_at tops.now number }
{
    match tops.get(number?) {
        Some(top) => *top,
        None => None,
    }
}

fn tops(alloc: Global, arena: &Arena, stacks: &[Slots]) -> Result<Vec<Option<usize>>, AllocError>
    ensures { IfOk result (λ v. v.items ≡ map (last_alive arena.now.gone None) stacks.now) }
{
    let mut tops = Vec::new(alloc);
    for stack in stacks {
        tops.push(last_alive(arena, stack.as_slice()))?;
    }
    Ok(tops)
}

// The last slot that wasn't taken away.
fn last_alive(arena: &Arena, slots: &[usize]) -> Option<usize>
    ensures { result ≡ last_alive arena.now.gone None slots.now }
{
    let mut last = None;
    for slot in slots {
        if !arena.is_gone(*slot) {
            last = Some(*slot);
        }
    }
    last
}
