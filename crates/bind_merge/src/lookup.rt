//! Looks entries up by their names, by halving.

ghost use Rattle.std.specs.Prelude.{◌≡◌, IfOk, map};
ghost use Rattle.std.specs.List.{filter};
ghost use Rattle.std.specs.Option.{option_map};
ghost use Rattle.bind_merge.specs.Levels.{EntryData};
ghost use Rattle.bind_merge.specs.Looking.{bare, entry_named, is_kept, is_kept_where, IsNameTable};
ghost use Rattle.bind_merge.specs.Ordered.{Rises};

use crate::entries::{share_all, sorted};
use crate::entry::Entry;
use edt_base::Text;
use std::alloc::{AllocError, Global};
use std::cmp::Ordering;

/// The entry of this name; None exactly where there is none.
pub(crate) fn look<'a>(entries: &'a [Entry], name: &Text) -> Option<&'a Entry>
    requires { Rises entries.now }
    ensures { option_map (λ e. e.now) result ≡ entry_named name.now entries.now }
{
    let mut low: usize = 0;
    let mut high = entries.len();
    while low < high {
        let middle = low + (high - low) / 2;
        let entry = &entries[middle];
        match entry.name().cmp(name) {
            Ordering::Less => low = middle + 1,
            Ordering::Greater => high = middle,
            Ordering::Equal => return Some(entry),
        }
    }
    None
}

// Names as entries, in order. The one error is want of memory, as in the functions below.
fn name_table(alloc: Global, names: &[Text]) -> Result<Vec<Entry>, AllocError>
    ensures { IfOk result (λ v. IsNameTable names.now v.items) }
{
    let bare = bare_entries(alloc, names)?;
    match sorted(alloc, bare.as_slice())? {
        Some(table) => Ok(table),
        None => unreachable!(),
    }
}

fn bare_entries(alloc: Global, names: &[Text]) -> Result<Vec<Entry>, AllocError>
    ensures { IfOk result (λ v. v.items ≡ map bare names.now) }
{
    let mut entries = Vec::with_capacity(alloc, names.len())?;
    for name in names {
        entries.push(Entry::of_name(alloc, name)?)?;
    }
    Ok(entries)
}

// The entries whose names are among these, or those whose names aren't.
fn kept_by(
    alloc: Global,
    entries: &[Entry],
    names: &[Text],
    among: bool,
) -> Result<Vec<Entry>, AllocError>
    ensures { IfOk result (λ v. v.items ≡ filter (λ
        (e : EntryData). is_kept among names.now e.name) entries.now) }
{
    let table = name_table(alloc, names)?;
    let mut kept = Vec::new(alloc);
    for entry in entries {
        if look(table.as_slice(), entry.name()).is_some() == among {
            kept.push(entry.share()?)?;
        }
    }
    Ok(kept)
}

/// The entries whose names are in a list, or those whose names aren't; all where there is no list.
pub(crate) fn kept(
    alloc: Global,
    entries: &[Entry],
    names: &Option<Vec<Text>>,
    among: bool,
) -> Result<Vec<Entry>, AllocError>
    ensures { IfOk result (λ v. v.items ≡ filter (λ (e : EntryData). is_kept_where among
        (option_map (λ n. n.items) names.now) e.name) entries.now) }
{
    let Some(names) = names else {
        let all = share_all(alloc, entries)?;
        return Ok(all);
    };
    let kept = kept_by(alloc, entries, names.as_slice(), among)?;
    Ok(kept)
}
