//! What the first definition of each name says.

ghost use Rattle.std.specs.Prelude.{◌≡◌, IfOk, length};
ghost use Rattle.dt_names.specs.Inner.Firsts.{HasMet};

use crate::held::{Held, same_said};
use crate::key::Key;
use indexmap::IndexSet;
use std::alloc::{AllocError, Global};

/// What a definition is beside the first of its name.
#[derive(Clone, Copy, Debug, PartialEq, Eq)]
pub(crate) enum Met {
    /// It is the first.
    New,
    /// It says the same.
    Same,
    /// It says something else.
    Other,
}

/// Looks up the key of a definition's name, and compares what the definition says with what the
/// first of its name said, which is held at the key's place. What a new key's definition says is
/// held. The one error is want of memory.
pub(crate) fn meet<'a>(
    alloc: Global,
    keys: &mut IndexSet<Key>,
    held: &mut Vec<Held<'a>>,
    key: Key,
    said: Held<'a>,
) -> Result<Met, AllocError>
    requires { length held.now.items ≡ length keys.now.keys }
    ensures { IfOk result
        (λ m. HasMet keys.old.keys keys.new.keys held.old.items held.new.items key said.entry m) }
{
    let (place, added) = keys.insert_full(key)?;
    if added {
        held.push(said)?;
        return Ok(Met::New);
    }
    if same_said(alloc, &held[place], &said)? {
        return Ok(Met::Same);
    }
    Ok(Met::Other)
}
