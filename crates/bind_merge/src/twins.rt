//! Step three of loading: no two bindings are for one compatible string on one bus.

ghost use Rattle.std.specs.Prelude.{◌≡◌, IfOk, None, OnOk, Some, is_some, true};
ghost use Rattle.edt_base.specs.declared.fault.Rule.TheVariants as rule;
ghost use Rattle.bind_merge.specs.Files.{file_fault, name_of};
ghost use Rattle.bind_merge.specs.Listing.{read_files};
ghost use Rattle.bind_merge.specs.Loading.{OnFault, twin_fault};
ghost use Rattle.bind_merge.specs.Matching.{bus_of, compatible_at};
ghost use Rattle.bind_merge.specs.Inner.Indexing.{HasPair, IsIndexOf, in_index};
ghost use Rattle.bind_merge.specs.Inner.Resolving.{resolved_at};
ghost use Rattle.bind_merge.specs.Inner.Steps.{AreStrings, bindings_at, levels_in, numbers_of};

use crate::index::Index;
use crate::matching::Match;
use crate::merging::Resolved;
use crate::sound::levels_at;
use crate::walk::file_fault;
use edt_base::{Bytes, End, FileNo, Rule, Text};
use std::alloc::{AllocError, Global};

/// The matching bindings by compatible string and bus, or B12 at the first for which an earlier one
/// is for the same.
pub(crate) fn index_of(
    alloc: Global,
    files: &[(Text, Bytes)],
    matches: &[Match],
    resolved: &[Option<Resolved>],
) -> Result<Index, End>
    requires { AreStrings files.now matches.now }
    ensures index { IfOk result (λ i. IsIndexOf files.now
        (bindings_at resolved.now (numbers_of matches.now)) i.groups.entries) }
    ensures single { OnOk result (twin_fault files.now
        (bindings_at resolved.now (numbers_of matches.now)) ≡ None) }
    ensures fault { OnFault result (λ f. twin_fault files.now
        (bindings_at resolved.now (numbers_of matches.now)) ≡ Some f) }
{
    let mut index = Index::new(alloc);
    for found in matches {
        match add_match(alloc, files, found, resolved, &mut index) {
            Ok(()) => {}
            Err(end) => return Err(end),
        }
    }
    Ok(index)
}

// Adds a binding, or B12 where one is for the same.
fn add_match(
    alloc: Global,
    files: &[(Text, Bytes)],
    found: &Match,
    resolved: &[Option<Resolved>],
    index: &mut Index,
) -> Result<(), End>
    requires { compatible_at files.now found.now.file ≡ Some found.now.compatible }
    ensures free { OnOk result (in_index index.old.groups.entries found.now.compatible
        (bus_of (levels_in (resolved_at resolved.now found.now.file))) ≡ None) }
    ensures added { OnOk result (HasPair index.old.groups.entries found.now.compatible
        (bus_of (levels_in (resolved_at resolved.now found.now.file))) found.now.file
        index.new.groups.entries) }
    ensures taken { OnFault result (λ f. is_some (in_index index.old.groups.entries
        found.now.compatible (bus_of (levels_in (resolved_at resolved.now found.now.file))))
        ≡ true) }
    ensures fault { OnFault result (λ f. f ≡ file_fault rule.B12
        (name_of (read_files files.now) found.now.file)) }
{
    let file = found.file;
    let entry = &files[file.0 as usize];
    let bus = bus_at(alloc, resolved, file)?;
    match index.find(&found.compatible, bus.as_ref()) {
        Some(_) => {
            let fault = file_fault(alloc, Rule::B12, &entry.0)?;
            Err(End::Fault(fault))
        }
        None => {
            let compatible = found.compatible.copy(alloc)?;
            index.add(alloc, compatible, bus, file)?;
            Ok(())
        }
    }
}

// The bus that a file's merged binding is for. The one error is want of memory.
fn bus_at(
    alloc: Global,
    resolved: &[Option<Resolved>],
    file: FileNo,
) -> Result<Option<Text>, AllocError>
    ensures { IfOk result (λ bus. bus ≡ bus_of (levels_in (resolved_at resolved.now file))) }
{
    let Some(top) = levels_at(resolved, file).first() else {
        return Ok(None);
    };
    match &top.on_bus {
        Some(bus) => {
            let bus = bus.get().copy(alloc)?;
            Ok(Some(bus))
        }
        None => Ok(None),
    }
}
