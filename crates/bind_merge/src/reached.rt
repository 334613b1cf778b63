//! Reads the files to which others lead by their includes.

ghost use Rattle.std.specs.Prelude.{◌≡◌, ◌<◌, ◌++◌, [], IfOk, OnOk, length, map, nat_lt, true, ℕ};
ghost use Rattle.std.specs.List.{flat_map, list_all};
ghost use Rattle.bind_load.specs.RecordSeen.{include_of};
ghost use Rattle.bind_merge.specs.Listing.{read_files};
ghost use Rattle.bind_merge.specs.Inner.Reading.{is_read_at, own_at};
ghost use Rattle.bind_merge.specs.Inner.Resolving.{AreNames};
ghost use Rattle.bind_merge.specs.Inner.Spreading.{HasSpread, Spreads, included_at, included_by};
ghost use Rattle.bind_merge.specs.Inner.Spreading.{included_in, is_among};

use crate::names::{Named, Names};
use crate::own::OwnLevel;
use crate::reading::{Read, read_file};
use crate::resolve::own_at;
use bind_load::Include;
use edt_base::{Bytes, FileNo, Text};
use std::alloc::{AllocError, Global};

/// Reads the files to which these lead that are read: those that they include, at any depth, each
/// once. The one error is want of memory, as in the functions below.
pub(crate) fn read_reached(
    alloc: Global,
    files: &[(Text, Bytes)],
    names: &Names,
    first: &[FileNo],
    reads: &mut Vec<Option<Read>>,
) -> Result<(), AllocError>
    requires len { length reads.old.items ≡ length files.now }
    requires named { AreNames (read_files files.now) names.now }
    requires first { (k : ℕ) → is_read_at reads.old.items k ≡ true → is_among first.now k ≡ true }
    ensures { OnOk result (HasSpread (read_files files.now) names.now reads.old.items
        reads.new.items []) }
{
    let mut left = Vec::from_slice(alloc, first)?;
    while let Some(file) = left.pop() {
        let included = included_by(alloc, names, reads.as_slice(), file)?;
        read_all(alloc, files, included.as_slice(), reads, &mut left)?;
    }
    Ok(())
}

// The files that a file includes.
fn included_by(
    alloc: Global,
    names: &Names,
    reads: &[Option<Read>],
    file: FileNo,
) -> Result<Vec<FileNo>, AllocError>
    ensures { IfOk result (λ v. v.items ≡ included_by names.now (own_at reads.now file)) }
{
    match own_at(reads, file.0 as usize) {
        Some(own) => {
            let included = included_in(alloc, names, own)?;
            Ok(included)
        }
        None => Ok(Vec::new(alloc)),
    }
}

fn included_in(alloc: Global, names: &Names, own: &[OwnLevel]) -> Result<Vec<FileNo>, AllocError>
    ensures { IfOk result (λ v. v.items ≡ included_in names.now own.now) }
{
    let mut included = Vec::new(alloc);
    for level in own {
        add_included(names, level.includes.as_slice(), &mut included)?;
    }
    Ok(included)
}

fn add_included(
    names: &Names,
    includes: &[Include],
    included: &mut Vec<FileNo>,
) -> Result<(), AllocError>
    ensures { OnOk result (included.new.items ≡ included.old.items
        ++ flat_map (included_at names.now) (map include_of includes.now)) }
{
    for include in includes {
        if let Some(Named::One(file)) = names.get(&include.name) {
            included.push(FileNo(file))?;
        }
    }
    Ok(())
}

// Reads those of the files that aren't read, and notes that their includes are left.
fn read_all(
    alloc: Global,
    files: &[(Text, Bytes)],
    included: &[FileNo],
    reads: &mut Vec<Option<Read>>,
    left: &mut Vec<FileNo>,
) -> Result<(), AllocError>
    requires len { length reads.old.items ≡ length files.now }
    requires listed { list_all (λ k. nat_lt k (length files.now)) included.now ≡ true }
    ensures spreads { OnOk result (Spreads (read_files files.now) reads.old.items left.old.items
        reads.new.items left.new.items) }
    ensures read { OnOk result (list_all (is_read_at reads.new.items) included.now ≡ true) }
{
    for file in included {
        read_one(alloc, files, *file, reads, left)?;
    }
    Ok(())
}

fn read_one(
    alloc: Global,
    files: &[(Text, Bytes)],
    file: FileNo,
    reads: &mut Vec<Option<Read>>,
    left: &mut Vec<FileNo>,
) -> Result<(), AllocError>
    requires len { length reads.old.items ≡ length files.now }
    requires listed { file < length files.now }
    ensures spreads { OnOk result (Spreads (read_files files.now) reads.old.items left.old.items
        reads.new.items left.new.items) }
    ensures read { OnOk result (is_read_at reads.new.items file ≡ true) }
{
    let at = file.0 as usize;
    if reads[at].is_some() {
        return Ok(());
    }
    let entry = &files[at];
    let read = read_file(alloc, &entry.0, &entry.1)?;
    reads[at] = Some(read);
    left.push(file)?;
    Ok(())
}
