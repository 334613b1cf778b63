//! The merged levels of one file.

ghost use Rattle.std.specs.Prelude.{◌≡◌, ◌≤◌, IfOk, length};
ghost use Rattle.std.specs.Option.{option_map};
ghost use Rattle.bind_load.specs.RecordSeen.{filter_of};
ghost use Rattle.bind_merge.specs.Adding.{Comes, ComesAt, filter_below};
ghost use Rattle.bind_merge.specs.Answering.{TablesOr};
ghost use Rattle.bind_merge.specs.Filtering.{filters_of};

use crate::level::Level;
use crate::own::OwnLevel;
use bind_load::Filter;
use std::alloc::{AllocError, Global};

/// What the levels of a file's record say by themselves, in order; None exactly where one says two
/// values of one key. The one error is want of memory, as in the functions below.
pub(crate) fn own_tables(alloc: Global, own: &[OwnLevel]) -> Result<Option<Vec<Level>>, AllocError>
    ensures { IfOk result (λ all. TablesOr own.now (option_map (λ v. v.items) all)) }
{
    let mut levels = Vec::with_capacity(alloc, own.len())?;
    for level in own {
        match level.table(alloc)? {
            Some(level) => levels.push(level)?,
            None => return Ok(None),
        }
    }
    Ok(Some(levels))
}

/// Adds what an included file's levels say, the first of them at level `at`, as far as the filter
/// lets it through; false exactly where a level then says two values of one key.
pub(crate) fn include(
    alloc: Global,
    levels: &mut Vec<Level>,
    at: usize,
    included: &[Level],
    filter: &Filter,
) -> Result<bool, AllocError>
    requires { at ≤ length levels.old.items }
    ensures { IfOk result (λ comes. Comes comes levels.old.items at included.now
        (filter_of filter.now) levels.new.items) }
{
    let mut left = Some(filter);
    let mut next = at;
    for level in included {
        let passed = level.passed(alloc, left)?;
        if !add(alloc, levels, next, passed)? {
            return Ok(false);
        }
        next += 1;
        left = below(left);
    }
    Ok(true)
}

// The next level of a filter, where there is one.
fn below<'a>(filter: Option<&'a Filter>) -> Option<&'a Filter>
    ensures { filters_of result ≡ filter_below (filters_of filter.entry) }
{
    match &filter?.child {
        Some(child) => Some(child),
        None => None,
    }
}

// Adds what a level says; false exactly where two values of one key are said.
fn add(alloc: Global, levels: &mut Vec<Level>, at: usize, level: Level) -> Result<bool, AllocError>
    requires { at ≤ length levels.old.items }
    ensures { IfOk result (λ comes. ComesAt comes levels.old.items at level levels.new.items) }
{
    if at >= levels.len() {
        levels.push(level)?;
        return Ok(true);
    }
    match levels[at].joined(alloc, &level)? {
        Some(joined) => {
            levels[at] = joined;
            Ok(true)
        }
        None => Ok(false),
    }
}
