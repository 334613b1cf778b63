//! Step two of loading: the faults of the matching bindings and of what they include.

ghost use Rattle.std.specs.Prelude.{◌≡◌, ◌≢◌, IfOk, None, OnOk, Some, true};
ghost use Rattle.std.specs.List.{list_all};
ghost use Rattle.std.specs.Option.{option_map};
ghost use Rattle.bind_merge.specs.Listing.{read_files};
ghost use Rattle.bind_merge.specs.Loading.{AreSound, BreaksAt, IsFirstBroken, IsSound, OnFault};
ghost use Rattle.bind_merge.specs.Walks.{binding_walk};
ghost use Rattle.bind_merge.specs.Inner.Reading.{is_read_at};
ghost use Rattle.bind_merge.specs.Inner.Resolving.{resolved_at};
ghost use Rattle.bind_merge.specs.Inner.Steps.{BreaksRule, KeepsRules, bindings_at, levels_in};
ghost use Rattle.bind_merge.specs.Inner.Ways.{IsKnown};

use crate::checks::merged_rule;
use crate::level::Level;
use crate::merging::Resolved;
use crate::names::Names;
use crate::reading::Read;
use crate::walk::{file_fault, first_fault};
use edt_base::{Bytes, End, Fault, FileNo, Rule, Text};
use std::alloc::{AllocError, Global};

/// Tests the bindings in order, each with what it includes: first the files on the walk over it,
/// then B11, then the rules of the merged binding.
pub(crate) fn test_all(
    alloc: Global,
    files: &[(Text, Bytes)],
    names: &Names,
    reads: &[Option<Read>],
    resolved: &[Option<Resolved>],
    bindings: &[FileNo],
) -> Result<(), End>
    requires known { IsKnown (read_files files.now) names.now reads.now resolved.now }
    requires read { list_all (is_read_at reads.now) bindings.now ≡ true }
    ensures sound { OnOk result (AreSound (read_files files.now)
        (bindings_at resolved.now bindings.now)) }
    ensures fault { OnFault result (IsFirstBroken (read_files files.now) bindings.now) }
{
    for binding in bindings {
        match test(alloc, files, names, reads, resolved, *binding) {
            Ok(()) => {}
            Err(end) => return Err(end),
        }
    }
    Ok(())
}

fn test(
    alloc: Global,
    files: &[(Text, Bytes)],
    names: &Names,
    reads: &[Option<Read>],
    resolved: &[Option<Resolved>],
    binding: FileNo,
) -> Result<(), End>
    requires known { IsKnown (read_files files.now) names.now reads.now resolved.now }
    requires read { is_read_at reads.now binding ≡ true }
    ensures sound { OnOk result (IsSound (read_files files.now) binding
        (levels_in (resolved_at resolved.now binding))) }
    ensures fault { OnFault result (BreaksAt (read_files files.now) binding) }
{
    let entry = &files[binding.0 as usize];
    match found_at(resolved, binding) {
        Some(found) => test_rules(alloc, &entry.0, found),
        None => {
            let fault = broken(alloc, files, names, reads, resolved, binding)?;
            Err(End::Fault(fault))
        }
    }
}

// The first fault of the walk over a binding that isn't resolved. The one error is want of memory.
fn broken(
    alloc: Global,
    files: &[(Text, Bytes)],
    names: &Names,
    reads: &[Option<Read>],
    resolved: &[Option<Resolved>],
    binding: FileNo,
) -> Result<Fault, AllocError>
    requires known { IsKnown (read_files files.now) names.now reads.now resolved.now }
    requires read { is_read_at reads.now binding ≡ true }
    requires broken { binding_walk (read_files files.now) binding ≢ None }
    ensures { IfOk result (λ f. binding_walk (read_files files.now) binding ≡ Some f) }
{
    match first_fault(alloc, files, names, reads, resolved, binding)? {
        Some(fault) => Ok(fault),
        None => unreachable!(),
    }
}

// Tests the rules of a binding whose walk is without fault.
fn test_rules(alloc: Global, name: &Text, found: &Resolved) -> Result<(), End>
    ensures keeps { OnOk result (KeepsRules found.now.levels) }
    ensures breaks { OnFault result (BreaksRule name.now found.now.levels) }
{
    match &found.levels {
        Some(levels) => match merged_rule(levels.as_slice()) {
            Some(rule) => {
                let fault = file_fault(alloc, rule, name)?;
                Err(End::Fault(fault))
            }
            None => Ok(()),
        },
        None => {
            let fault = file_fault(alloc, Rule::B11, name)?;
            Err(End::Fault(fault))
        }
    }
}

/// What was resolved of a file; None exactly where nothing was.
pub(crate) fn found_at(resolved: &[Option<Resolved>], file: FileNo) -> Option<&Resolved>
    ensures { option_map (λ r. r.now) result ≡ resolved_at resolved.now file }
{
    match resolved.get(file.0 as usize) {
        Some(Some(found)) => Some(found),
        _ => None,
    }
}

/// The merged levels of a file; none where it isn't resolved or is in conflict.
pub(crate) fn levels_at(resolved: &[Option<Resolved>], file: FileNo) -> &[Level]
    ensures { result.now ≡ levels_in (resolved_at resolved.now file) }
{
    match found_at(resolved, file) {
        Some(found) => match &found.levels {
            Some(levels) => levels.as_slice(),
            None => &[],
        },
        None => &[],
    }
}
