//! Lists of entries in byte order of their names.

ghost use Rattle.std.specs.Prelude.{◌≡◌, ◌++◌, IfOk, OnOk, map};
ghost use Rattle.std.specs.Option.{option_map};
ghost use Rattle.bind_merge.specs.Joining.{inherited};
ghost use Rattle.bind_merge.specs.Answering.{JoinsOr, SortedOr};

use crate::entry::Entry;
use std::alloc::{AllocError, Global};
use std::cmp::Ordering;

/// Two lists in order as one; None exactly where two entries of one name disagree. The one error is
/// want of memory, as in the functions below.
pub(crate) fn joined(
    alloc: Global,
    a: &[Entry],
    b: &[Entry],
) -> Result<Option<Vec<Entry>>, AllocError>
    ensures { IfOk result (λ all. JoinsOr a.now b.now (option_map (λ v. v.items) all)) }
{
    let mut out = Vec::new(alloc);
    let mut i: usize = 0;
    let mut j: usize = 0;
    while i < a.len() && j < b.len() {
        let x = &a[i];
        let y = &b[j];
        match x.name().cmp(y.name()) {
            Ordering::Less => {
                out.push(x.share()?)?;
                i += 1;
            }
            Ordering::Greater => {
                out.push(y.share()?)?;
                j += 1;
            }
            Ordering::Equal => {
                if !x.agrees(y) {
                    return Ok(None);
                }
                out.push(x.joined(alloc, y)?)?;
                i += 1;
                j += 1;
            }
        }
    }
    share_into(&mut out, &a[i..])?;
    share_into(&mut out, &b[j..])?;
    Ok(Some(out))
}

// The entries, behind those that are there.
fn share_into(out: &mut Vec<Entry>, entries: &[Entry]) -> Result<(), AllocError>
    ensures { OnOk result (out.new.items ≡ out.old.items ++ entries.now) }
{
    for entry in entries {
        out.push(entry.share()?)?;
    }
    Ok(())
}

/// The entries once more.
pub(crate) fn share_all(alloc: Global, entries: &[Entry]) -> Result<Vec<Entry>, AllocError>
    ensures { IfOk result (λ v. v.items ≡ entries.now) }
{
    let mut out = Vec::with_capacity(alloc, entries.len())?;
    share_into(&mut out, entries)?;
    Ok(out)
}

/// The entries in order; None exactly where two of one name disagree.
pub(crate) fn sorted(alloc: Global, entries: &[Entry]) -> Result<Option<Vec<Entry>>, AllocError>
    ensures { IfOk result (λ all. SortedOr entries.now (option_map (λ v. v.items) all)) }
{
    if entries.len() < 2 {
        return Ok(Some(share_all(alloc, entries)?));
    }
    let (front, back) = entries.split_at(entries.len() / 2);
    let Some(front) = sorted(alloc, front)? else {
        return Ok(None);
    };
    let Some(back) = sorted(alloc, back)? else {
        return Ok(None);
    };
    let all = joined(alloc, front.as_slice(), back.as_slice())?;
    Ok(all)
}

/// What an including file takes of the entries.
pub(crate) fn inherited(alloc: Global, entries: &[Entry]) -> Result<Vec<Entry>, AllocError>
    ensures { IfOk result (λ v. v.items ≡ map inherited entries.now) }
{
    let mut out = Vec::new(alloc);
    for entry in entries {
        out.push(entry.inherited(alloc)?)?;
    }
    Ok(out)
}
