//! Step one of loading: the files that are read as YAML, and the matching bindings among them.

ghost use Rattle.std.specs.Prelude.{◌≡◌, ◌+◌, ◌<◌, IfOk, OnOk, Some, length, take};
ghost use Rattle.bind_merge.specs.Loading.{OnFault, text_fault};
ghost use Rattle.bind_merge.specs.Options.{first_some};
ghost use Rattle.bind_merge.specs.Inner.Heights.{AreNone};
ghost use Rattle.bind_merge.specs.Inner.Steps.{HasMatched, IsMatched, numbers_of};

use crate::reading::{Read, compatible_in, record_of};
use crate::strings::Strings;
use edt_base::{Bytes, End, FileNo, Text};
use std::alloc::{AllocError, Global};
use yaml_profile::read;

/// A matching binding: its file, and its compatible string.
#[derive(Debug, Drop)]
pub(crate) struct Match {
    pub(crate) file: FileNo,
    pub(crate) compatible: Text,
}

/// What a matching binding's file gives.
#[derive(Debug, Drop)]
pub(crate) struct Found {
    compatible: Text,
    read: Read,
}

/// The matching bindings, in list order, and what reading them gives; or the first fault, as text,
/// of the files in which one of the strings stands.
pub(crate) fn matching(
    alloc: Global,
    files: &[(Text, Bytes)],
    compats: &[Text],
    reads: &mut Vec<Option<Read>>,
) -> Result<Vec<Match>, End>
    requires small { length files.now < 4294967296 }
    requires len { length reads.old.items ≡ length files.now }
    requires none { AreNone reads.old.items }
    ensures matched { IfOk result (λ ms. HasMatched files.now files.now compats.now ms.items
        reads.new.items) }
    ensures fault { OnFault result (λ f. first_some (text_fault compats.now) files.now ≡ Some f) }
{
    let strings = Strings::of(alloc, compats)?;
    let mut matches = Vec::new(alloc);
    for at in 0..files.len() {
        match_at(alloc, files, at, &strings, &mut matches, reads)?;
    }
    Ok(matches)
}

// Goes on to the file at this place.
fn match_at(
    alloc: Global,
    files: &[(Text, Bytes)],
    at: usize,
    strings: &Strings<'_>,
    matches: &mut Vec<Match>,
    reads: &mut Vec<Option<Read>>,
) -> Result<(), End>
    requires small { length files.now < 4294967296 }
    requires listed { at < length files.now }
    requires had { HasMatched files.now (take at files.now) strings.now matches.old.items
        reads.old.items }
    ensures has { OnOk result (HasMatched files.now
        (take (at + 1) files.now) strings.now matches.new.items reads.new.items) }
    ensures fault { OnFault result (λ f. first_some (text_fault strings.now) files.now ≡ Some f) }
{
    let entry = &files[at];
    match match_file(alloc, strings, &entry.0, &entry.1) {
        Ok(found) => match found {
            Some(Found { compatible, read }) => {
                matches.push(Match {
                    file: FileNo(at as u32),
                    compatible,
                })?;
                reads[at] = Some(read);
                Ok(())
            }
            None => Ok(()),
        },
        Err(end) => Err(end),
    }
}

// What step one makes of a file.
fn match_file(
    alloc: Global,
    strings: &Strings<'_>,
    name: &Text,
    bytes: &Bytes,
) -> Result<Option<Found>, End>
    ensures { IsMatched strings.now (name.now, bytes.now) result }
{
    if !strings.stand_in(bytes.as_slice()) {
        return Ok(None);
    }
    match read(alloc, name, bytes.as_slice()) {
        Ok(value) => match compatible_in(&value) {
            Some(compatible) => {
                if !strings.has(compatible) {
                    return Ok(None);
                }
                let compatible = compatible.copy(alloc)?;
                let read = record_of(alloc, name, &value)?;
                Ok(Some(Found { compatible, read }))
            }
            None => Ok(None),
        },
        Err(end) => Err(end),
    }
}

/// The files of the matching bindings. The one error is want of memory.
pub(crate) fn numbers_of(alloc: Global, matches: &[Match]) -> Result<Vec<FileNo>, AllocError>
    ensures { IfOk result (λ v. v.items ≡ numbers_of matches.now) }
{
    let mut numbers = Vec::with_capacity(alloc, matches.len())?;
    for found in matches {
        numbers.push(found.file)?;
    }
    Ok(numbers)
}
