//! Merges a file's record with what its includes were resolved to.

ghost use Rattle.std.specs.Prelude.{◌≡◌, ◌≤◌, IfOk, true, length, map};
ghost use Rattle.std.specs.List.{list_all};
ghost use Rattle.std.specs.Option.{option_map};
ghost use Rattle.bind_load.specs.RecordSeen.{include_of};
ghost use Rattle.bind_merge.specs.Files.{at_level};
ghost use Rattle.bind_merge.specs.Inner.Bringing.{BringsIf, BringsAll};
ghost use Rattle.bind_merge.specs.Inner.Resolving.{are_ready, is_ready, named_in, resolved_as};
ghost use Rattle.bind_merge.specs.Inner.Resolving.{Merges};

use crate::level::Level;
use crate::names::{Named, Names};
use crate::own::OwnLevel;
use crate::table::{include, own_tables};
use bind_load::Include;
use edt_base::Text;
use std::alloc::{AllocError, Global};
use std::marker::Model;

/// A file that is without fault, with what it includes. In clauses it is plain data.
#[derive(Debug, Drop)]
pub(crate) struct Resolved {
    /// How many includes follow below one another at most.
    pub(crate) height: u32,
    /// Its merged levels; None where it, or a file that it includes at any depth, is in conflict.
    pub(crate) levels: Option<Vec<Level>>,
}

impl Model for Resolved {
    ghost use Rattle.std.specs.Coded.{codes};
    ghost use Rattle.std.specs.Option.{option_map};
    ghost use Rattle.bind_merge.specs.Codes.{coded_value};
    ghost use Rattle.bind_merge.specs.Inner.Resolving.{ResolvedData};

    ghost Value = { ResolvedData };

    ghost coded = { Prim.hlevel (codes, coded_value) };

    ghost view = { λ r. record {
      height = r.height;
      levels = option_map (λ v. v.items) r.levels;
    } };
}

/// The merged levels of a record whose includes are resolved; None exactly where there is a
/// conflict. The one error is want of memory, as in the functions below.
pub(crate) fn merged(
    alloc: Global,
    names: &Names,
    own: &[OwnLevel],
    resolved: &[Option<Resolved>],
) -> Result<Option<Vec<Level>>, AllocError>
    requires { are_ready names.now resolved.now own.now ≡ true }
    ensures { IfOk result (λ all. Merges names.now resolved.now own.now
        (option_map (λ v. v.items) all)) }
{
    let Some(mut levels) = own_tables(alloc, own)? else {
        return Ok(None);
    };
    let mut at: usize = 0;
    for level in own {
        let includes = level.includes.as_slice();
        if !merge_includes(alloc, names, at, includes, resolved, &mut levels)? {
            return Ok(None);
        }
        at += 1;
    }
    Ok(Some(levels))
}

// Adds what the includes of a level bring to that level and those below; false exactly where one of
// them is in conflict or brings two values of one key together.
fn merge_includes(
    alloc: Global,
    names: &Names,
    at: usize,
    includes: &[Include],
    resolved: &[Option<Resolved>],
    levels: &mut Vec<Level>,
) -> Result<bool, AllocError>
    requires at_in { at ≤ length levels.old.items }
    requires ready { list_all (is_ready names.now resolved.now)
        (at_level at (map include_of includes.now)) ≡ true }
    ensures { IfOk result (λ comes. BringsAll names.now resolved.now comes levels.old.items
        (at_level at (map include_of includes.now)) levels.new.items) }
{
    for included in includes {
        if !merge_include(alloc, names, at, included, resolved, levels)? {
            return Ok(false);
        }
    }
    Ok(true)
}

// Adds what an include brings.
fn merge_include(
    alloc: Global,
    names: &Names,
    at: usize,
    included: &Include,
    resolved: &[Option<Resolved>],
    levels: &mut Vec<Level>,
) -> Result<bool, AllocError>
    requires at_in { at ≤ length levels.old.items }
    requires ready { is_ready names.now resolved.now (at, include_of included.now) ≡ true }
    ensures { IfOk result (λ comes. BringsIf names.now resolved.now comes levels.old.items
        (at, include_of included.now) levels.new.items) }
{
    let Some(found) = found_by(names, &included.name, resolved) else {
        return Ok(false);
    };
    let Some(below) = &found.levels else {
        return Ok(false);
    };
    let comes = include(alloc, levels, at, below.as_slice(), &included.filter)?;
    Ok(comes)
}

/// What was resolved of the one file of a base name; None where no one file has it or isn't
/// resolved.
pub(crate) fn found_by<'a>(
    names: &Names,
    name: &Text,
    resolved: &'a [Option<Resolved>],
) -> Option<&'a Resolved>
    ensures { option_map (λ r. r.now) result ≡ resolved_as resolved.now
        (named_in names.now name.now) }
{
    match names.get(name) {
        Some(Named::One(file)) => resolved.get(file as usize)?.as_ref(),
        _ => None,
    }
}
