//! Which arguments a body needs.

ghost use Rattle.std.specs.Prelude.{◌≡◌, ◌<◌, ◌||◌, ℕ, IfOk, length, map, nat_eq, slice_index_or, false};
ghost use Rattle.std.specs.List.{list_any};
ghost use Rattle.c_macro.specs.Bodies.{is_written, is_full};
ghost use Rattle.c_macro.specs.Pending.{part_data};
ghost use Rattle.c_macro.specs.Needing.{NeedsOf, Noted};

use crate::part::Part;
use std::alloc::{AllocError, Global};

/// For each argument, by its number, whether a body needs it as written and whether expanded.
#[derive(Debug, Drop)]
pub(crate) struct Needs {
    pub written: Vec<bool>,
    pub full: Vec<bool>,
}

/// So many flags, none of them set. The one error is want of memory.
fn unset(alloc: Global, count: usize) -> Result<Vec<bool>, AllocError>
    ensures count { IfOk result (λ v. length v.items ≡ count) }
    ensures unset { IfOk result (λ v. (i : ℕ) → slice_index_or v.items i false ≡ false) }
{
    let mut flags = Vec::with_capacity(alloc, count)?;
    for _ in 0..count {
        flags.push(false)?;
    }
    Ok(flags)
}

/// Sets a flag, if it is there.
fn set(flags: &mut Vec<bool>, at: usize)
    ensures count { length flags.new.items ≡ length flags.old.items }
    ensures set { (i : ℕ) → i < length flags.old.items → slice_index_or flags.new.items i false ≡ (slice_index_or flags.old.items i false || nat_eq at i) }
{
    if at < flags.len() {
        flags[at] = true;
    }
}

/// A flag; not set behind the last.
pub(crate) fn flag(flags: &[bool], at: usize) -> bool
    ensures { result ≡ slice_index_or flags.now at false }
{
    match flags.get(at) {
        Some(flag) => *flag,
        None => false,
    }
}

impl Needs {
    /// Notes what a part needs.
    fn note(&mut self, part: &Part)
        ensures { Noted self.old (part_data part.now) self.new }
    {
        match part {
            Part::Text(_, number) => set(&mut self.written, *number),
            Part::Written(_, number) => set(&mut self.written, *number),
            Part::Full(_, number) => set(&mut self.full, *number),
            Part::Own(_) => {}
            Part::Join => {}
        }
    }

    /// What these parts need of so many arguments. The one error is want of memory.
    pub(crate) fn of(alloc: Global, parts: &[Part], count: usize) -> Result<Needs, AllocError>
        ensures { IfOk result (NeedsOf (map part_data parts.now) count) }
    {
        let mut needs = Needs {
            written: unset(alloc, count)?,
            full: unset(alloc, count)?,
        };
        for part in parts {
            needs.note(part);
        }
        Ok(needs)
    }
}
