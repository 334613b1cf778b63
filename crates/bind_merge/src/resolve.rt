//! Resolves each read file once, those of the least height first.

ghost use Rattle.std.specs.Prelude.{◌≡◌, ◌+◌, ◌<◌, IfOk, OnOk, length, map};
ghost use Rattle.std.specs.List.{list_all};
ghost use Rattle.std.specs.Option.{option_map};
ghost use Rattle.bind_load.specs.RecordSeen.{include_of};
ghost use Rattle.bind_merge.specs.Inner.Heights.{AllResolved, AreNone, Resolves, all_low, is_below};
ghost use Rattle.bind_merge.specs.Inner.Heights.{is_low};
ghost use Rattle.bind_merge.specs.Inner.Reading.{own_at};

use crate::merging::{Resolved, found_by, merged};
use crate::names::Names;
use crate::own::OwnLevel;
use crate::reading::Read;
use bind_load::Include;
use std::alloc::{AllocError, Global};

/// How many includes may follow below one another.
pub(crate) const DEEPEST: u32 = 16;

/// An absent value for each file.
pub(crate) fn none_each<T: Drop>(alloc: Global, count: usize) -> Result<Vec<Option<T>>, AllocError>
    ensures len { IfOk result (λ v. length v.items ≡ count) }
    ensures none { IfOk result (λ v. AreNone v.items) }
{
    let mut nones = Vec::with_capacity(alloc, count)?;
    for _ in 0..count {
        nones.push(None)?;
    }
    Ok(nones)
}

/// Resolves the files that were read and that are without fault within the greatest depth.
pub(crate) fn resolve(
    alloc: Global,
    names: &Names,
    reads: &[Option<Read>],
) -> Result<Vec<Option<Resolved>>, AllocError>
    ensures len { IfOk result (λ v. length v.items ≡ length reads.now) }
    ensures resolved { IfOk result (λ v. AllResolved names.now reads.now 17 v.items) }
{
    let mut resolved = none_each(alloc, reads.len())?;
    for height in 0..DEEPEST + 1 {
        resolve_at(alloc, names, reads, height, &mut resolved)?;
    }
    Ok(resolved)
}

// Resolves the files of this height, those below being resolved.
fn resolve_at(
    alloc: Global,
    names: &Names,
    reads: &[Option<Read>],
    height: u32,
    resolved: &mut Vec<Option<Resolved>>,
) -> Result<(), AllocError>
    requires len { length resolved.old.items ≡ length reads.now }
    requires below { AllResolved names.now reads.now height resolved.old.items }
    ensures len { OnOk result (length resolved.new.items ≡ length reads.now) }
    ensures now { OnOk result (AllResolved names.now reads.now (height + 1) resolved.new.items) }
{
    for at in 0..reads.len() {
        resolve_one(alloc, names, reads, at, height, resolved)?;
    }
    Ok(())
}

/// The good record that was read of a file.
pub(crate) fn own_at(reads: &[Option<Read>], at: usize) -> Option<&[OwnLevel]>
    ensures { option_map (λ own. own.now) result ≡ own_at reads.now at }
{
    match reads.get(at)? {
        Some(Read::Good(own)) => Some(own.as_slice()),
        _ => None,
    }
}

// Resolves a file, if it has this height.
fn resolve_one(
    alloc: Global,
    names: &Names,
    reads: &[Option<Read>],
    at: usize,
    height: u32,
    resolved: &mut Vec<Option<Resolved>>,
) -> Result<(), AllocError>
    requires { at < length resolved.old.items }
    ensures { OnOk result (Resolves names.now reads.now height at resolved.old.items
        resolved.new.items) }
{
    if resolved[at].is_some() {
        return Ok(());
    }
    let Some(own) = own_at(reads, at) else {
        return Ok(());
    };
    if !has_height(names, own, height, resolved.as_slice()) {
        return Ok(());
    }
    let levels = merged(alloc, names, own, resolved.as_slice())?;
    resolved[at] = Some(Resolved { height, levels });
    Ok(())
}

// All that a record includes is resolved, and of a height below this one.
fn has_height(
    names: &Names,
    levels: &[OwnLevel],
    height: u32,
    resolved: &[Option<Resolved>],
) -> bool
    ensures { result ≡ all_low names.now resolved.now height levels.now }
{
    for level in levels {
        if !are_low(names, level.includes.as_slice(), height, resolved) {
            return false;
        }
    }
    true
}

fn are_low(names: &Names, includes: &[Include], height: u32, resolved: &[Option<Resolved>]) -> bool
    ensures { result ≡ list_all (is_low names.now resolved.now height)
        (map include_of includes.now) }
{
    for include in includes {
        if !is_below(found_by(names, &include.name, resolved), height) {
            return false;
        }
    }
    true
}

// A file is resolved, and its height is below this one.
fn is_below(found: Option<&Resolved>, height: u32) -> bool
    ensures { result ≡ is_below height (option_map (λ r. r.now) found.entry) }
{
    match found {
        Some(resolved) => resolved.height < height,
        None => false,
    }
}
