//! The one call: a file's record, or the first rule that the file breaks.

ghost use Rattle.std.specs.Prelude.{◌≡◌, IfOk};
ghost use Rattle.edt_base.specs.YamlData.{value_of};
ghost use Rattle.bind_load.specs.Rules.{broken_rule};
ghost use Rattle.bind_load.specs.RecordOf.{record_in};
ghost use Rattle.bind_load.specs.RecordSeen.{record_of};
ghost use Rattle.bind_load.specs.Loaded.{IsLoaded, broken};

use crate::building::build;
use crate::record::BindingRec;
use crate::rules::broken_rule;
use edt_base::{End, Fault, Place, Rule, Text, Yaml};
use std::alloc::{AllocError, Global};

/// The record of a binding file's value, or the first rule that the file breaks by itself, at the
/// file: B1 where the top is no map, B2 where a key is unknown, B4 where a key's value has the
/// wrong form, B10 where one filter has both lists, B13 where `<space>-cells` holds no list of
/// texts; each is tested over the whole file before the next (Zephyr 3.7, "Devicetree bindings
/// syntax"). Of a key that stands twice in a map the first pair counts. The other error is want of
/// memory.
pub fn load(alloc: Global, file: &Text, y: &Yaml) -> Result<BindingRec, End>
    ensures { IsLoaded file.now (value_of y.now) result }
{
    if let Some(rule) = broken_rule(alloc, y)? {
        return Err(fault(alloc, rule, file)?);
    }
    match build(alloc, y)? {
        Some(rec) => Ok(rec),
        None => Err(fault(alloc, Rule::B1, file)?),
    }
}

// The fault of a rule that a file breaks.
fn fault(alloc: Global, rule: Rule, file: &Text) -> Result<End, AllocError>
    ensures { IfOk result (λ end. end ≡ broken rule file.now) }
{
    let place = Place::File(file.copy(alloc)?);
    Ok(End::Fault(Fault { rule, place }))
}
