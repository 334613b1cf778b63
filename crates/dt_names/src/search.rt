//! The search for clashes.

ghost use Rattle.std.specs.Prelude.{IfOk};
ghost use Rattle.dt_names.specs.Answer.{IsAnswer};
ghost use Rattle.dt_names.specs.Facts.{facts};

use crate::answer::Clash;
use crate::firsts::{Met, meet};
use crate::held::Held;
use crate::key::Key;
use crate::labels::Labels;
use edt_base::Bound;
use indexmap::IndexSet;
use std::alloc::{AllocError, Global};

/// Compares all definitions of one name, as C does (ISO C, 6.10.3: a macro may be defined again
/// only as it was): gives the node of the first that differs from an earlier one of its name, else
/// the places of those that repeat one. The time is near that of the walk over the definitions:
/// names are looked up by the numbers of their texts and not spelled whole. The one error is want
/// of memory.
pub fn clash(alloc: Global, b: &Bound) -> Result<Clash, AllocError>
    ensures { IfOk result (λ c. IsAnswer (facts b.now) c) }
{
    let mut labels = Labels::new(alloc, b)?;
    let mut keys: IndexSet<Key> = IndexSet::new(alloc);
    let mut held: Vec<Held<'_>> = Vec::new(alloc);
    let mut doubles: Vec<u64> = Vec::new(alloc);
    while let Some(labelled) = labels.next(alloc)? {
        let said = labelled.fact.held();
        match meet(alloc, &mut keys, &mut held, labelled.key, said)? {
            Met::New => {}
            Met::Same => doubles.push(held.len() as u64 + doubles.len() as u64)?,
            Met::Other => return Ok(Clash::At(labelled.fact.owner())),
        }
    }
    Ok(Clash::Doubles(doubles))
}
