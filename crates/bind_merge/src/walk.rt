//! The first fault of a binding that isn't without fault, with its place.

ghost use Rattle.std.specs.Prelude.{◌≡◌, ◌≢◌, IfOk, None, true, map, nat_eq};
ghost use Rattle.std.specs.List.{list_any};
ghost use Rattle.bind_load.specs.RecordData.{IncludeData};
ghost use Rattle.bind_load.specs.RecordSeen.{include_of};
ghost use Rattle.bind_merge.specs.Files.{file_fault};
ghost use Rattle.bind_merge.specs.Listing.{read_files};
ghost use Rattle.bind_merge.specs.Options.{first_some};
ghost use Rattle.bind_merge.specs.Walks.{binding_walk};
ghost use Rattle.bind_merge.specs.Inner.Heights.{is_below};
ghost use Rattle.bind_merge.specs.Inner.Reading.{is_read_at};
ghost use Rattle.bind_merge.specs.Inner.Resolving.{named_in, resolved_at};
ghost use Rattle.bind_merge.specs.Inner.Ways.{IsKnown, are_several, barred_among, bars, first_high};
ghost use Rattle.bind_merge.specs.Inner.Ways.{high, next_in, next_of, several_among};

use crate::merging::Resolved;
use crate::names::{Named, Names};
use crate::own::OwnLevel;
use crate::reading::Read;
use crate::resolve::DEEPEST;
use bind_load::Include;
use edt_base::{Bytes, Fault, FileNo, Place, Rule, Text};
use std::alloc::{AllocError, Global};

/// Where the walk goes on from a file.
#[derive(Debug, Drop)]
pub(crate) enum Next {
    /// The file has a fault.
    Fault(Fault),
    /// Down to a file that it includes.
    Down(FileNo),
    /// Nowhere.
    Nothing,
}

/// A rule that a file breaks. The one error is want of memory, as in the functions below.
pub(crate) fn file_fault(alloc: Global, rule: Rule, name: &Text) -> Result<Fault, AllocError>
    ensures { IfOk result (λ f. f ≡ file_fault rule name.now) }
{
    let place = Place::File(name.copy(alloc)?);
    Ok(Fault { rule, place })
}

// A place once more.
fn copied_place(alloc: Global, place: &Place) -> Result<Place, AllocError>
    ensures { IfOk result (λ p. p ≡ place.now) }
{
    match place {
        Place::Byte(name, at) => Ok(Place::Byte(name.copy(alloc)?, *at)),
        Place::Line(name, at) => Ok(Place::Line(name.copy(alloc)?, *at)),
        Place::File(name) => Ok(Place::File(name.copy(alloc)?)),
        Place::Node(name) => Ok(Place::Node(name.copy(alloc)?)),
    }
}

// A fault once more.
fn copied(alloc: Global, fault: &Fault) -> Result<Fault, AllocError>
    ensures { IfOk result (λ f. f ≡ fault.now) }
{
    let place = copied_place(alloc, &fault.place)?;
    Ok(Fault {
        rule: fault.rule,
        place,
    })
}

/// The first fault of the walk over a binding and its includes. It goes down the one way on which
/// the fault lies, as all that is resolved in the depth that is left is without.
pub(crate) fn first_fault(
    alloc: Global,
    files: &[(Text, Bytes)],
    names: &Names,
    reads: &[Option<Read>],
    resolved: &[Option<Resolved>],
    binding: FileNo,
) -> Result<Option<Fault>, AllocError>
    requires known { IsKnown (read_files files.now) names.now reads.now resolved.now }
    requires read { is_read_at reads.now binding ≡ true }
    requires broken { binding_walk (read_files files.now) binding ≢ None }
    ensures { IfOk result (λ f. binding_walk (read_files files.now) binding ≡ f) }
{
    let mut path = Vec::new(alloc);
    let mut file = binding;
    for depth in 0..DEEPEST + 1 {
        let Some(named) = files.get(file.0 as usize) else {
            return Ok(None);
        };
        path.push(file)?;
        let left = DEEPEST - depth;
        let name = &named.0;
        let Some(read) = reads.get(file.0 as usize) else {
            return Ok(None);
        };
        match next_of(alloc, name, names, resolved, left, path.as_slice(), read)? {
            Next::Fault(fault) => return Ok(Some(fault)),
            Next::Down(below) => file = below,
            Next::Nothing => return Ok(None),
        }
    }
    Ok(None)
}

// Where the walk goes on from a file that was read.
fn next_of(
    alloc: Global,
    name: &Text,
    names: &Names,
    resolved: &[Option<Resolved>],
    left: u32,
    path: &[FileNo],
    read: &Option<Read>,
) -> Result<Next, AllocError>
    ensures { IfOk result (λ n. n ≡ next_of names.now resolved.now name.now left path.now read.now) }
{
    match read {
        None => Ok(Next::Nothing),
        Some(Read::Bad(fault)) => Ok(Next::Fault(copied(alloc, fault)?)),
        Some(Read::Good(own)) => next_in(alloc, name, names, resolved, left, path, own.as_slice()),
    }
}

fn next_in(
    alloc: Global,
    name: &Text,
    names: &Names,
    resolved: &[Option<Resolved>],
    left: u32,
    path: &[FileNo],
    own: &[OwnLevel],
) -> Result<Next, AllocError>
    ensures { IfOk result (λ n. n ≡ next_in names.now resolved.now name.now left path.now own.now) }
{
    if several_among(names, own) {
        return Ok(Next::Fault(file_fault(alloc, Rule::B14, name)?));
    }
    if barred_among(names, left == 0, path, own) {
        return Ok(Next::Fault(file_fault(alloc, Rule::B9, name)?));
    }
    match first_high(names, resolved, left, own) {
        Some(file) => Ok(Next::Down(file)),
        None => Ok(Next::Nothing),
    }
}

// Two files have an included name.
fn several_among(names: &Names, own: &[OwnLevel]) -> bool
    ensures { result ≡ several_among names.now own.now }
{
    for level in own {
        if any_several(names, level.includes.as_slice()) {
            return true;
        }
    }
    false
}

fn any_several(names: &Names, includes: &[Include]) -> bool
    ensures { result ≡ list_any (λ (i : IncludeData). are_several (named_in names.now i.name))
        (map include_of includes.now) }
{
    for include in includes {
        if are_several(names.get(&include.name)) {
            return true;
        }
    }
    false
}

fn are_several(named: Option<Named>) -> bool
    ensures { result ≡ are_several named }
{
    match named {
        Some(Named::Several) => true,
        _ => false,
    }
}

// An include has no file, or leads back, or is too deep.
fn barred_among(names: &Names, deep: bool, path: &[FileNo], own: &[OwnLevel]) -> bool
    ensures { result ≡ barred_among names.now deep path.now own.now }
{
    for level in own {
        if any_barred(names, deep, path, level.includes.as_slice()) {
            return true;
        }
    }
    false
}

fn any_barred(names: &Names, deep: bool, path: &[FileNo], includes: &[Include]) -> bool
    ensures { result ≡ list_any (λ (i : IncludeData). bars deep path.now
        (named_in names.now i.name)) (map include_of includes.now) }
{
    for include in includes {
        if bars(deep, path, names.get(&include.name)) {
            return true;
        }
    }
    false
}

fn bars(deep: bool, path: &[FileNo], named: Option<Named>) -> bool
    ensures { result ≡ bars deep path.now named }
{
    match named {
        Some(Named::One(file)) => deep || is_among(path, file),
        Some(Named::Several) => deep,
        None => true,
    }
}

fn is_among(path: &[FileNo], file: u32) -> bool
    ensures { result ≡ list_any (λ k. nat_eq k file) path.now }
{
    for at in path {
        if at.0 == file {
            return true;
        }
    }
    false
}

// The first include that isn't without fault in the depth that is left.
fn first_high(
    names: &Names,
    resolved: &[Option<Resolved>],
    left: u32,
    own: &[OwnLevel],
) -> Option<FileNo>
    ensures { result ≡ first_high names.now resolved.now left own.now }
{
    for level in own {
        if let Some(file) = high_among(names, resolved, left, level.includes.as_slice()) {
            return Some(file);
        }
    }
    None
}

fn high_among(
    names: &Names,
    resolved: &[Option<Resolved>],
    left: u32,
    includes: &[Include],
) -> Option<FileNo>
    ensures { result ≡ first_some (λ (i : IncludeData). high resolved.now left
        (named_in names.now i.name)) (map include_of includes.now) }
{
    for include in includes {
        if let Some(file) = high(resolved, left, names.get(&include.name)) {
            return Some(file);
        }
    }
    None
}

fn high(resolved: &[Option<Resolved>], left: u32, named: Option<Named>) -> Option<FileNo>
    ensures { result ≡ high resolved.now left named }
{
    match named {
        Some(Named::One(file)) => {
            if fits(resolved, file, left) {
                None
            } else {
                Some(FileNo(file))
            }
        }
        _ => None,
    }
}

// A file is resolved, and its height is below what is left.
fn fits(resolved: &[Option<Resolved>], file: u32, left: u32) -> bool
    ensures { result ≡ is_below left (resolved_at resolved.now file) }
{
    match resolved.get(file as usize) {
        Some(Some(found)) => found.height < left,
        _ => false,
    }
}
