//! Reads the binding files that count.

ghost use Rattle.std.specs.Prelude.{◌≡◌, IfOk, Ok, map};
ghost use Rattle.std.specs.Option.{option_map};
ghost use Rattle.edt_base.specs.YamlData.{entry_of, pair_of, pairs_from, value_of};
ghost use Rattle.edt_base.specs.declared.fault.End.TheVariants as ending;
ghost use Rattle.yaml_profile.specs.Reading.{reading};
ghost use Rattle.bind_load.specs.RecordOf.{text_in};
ghost use Rattle.bind_load.specs.Rules.{broken_rule};
ghost use Rattle.bind_merge.specs.Listing.{record_from, record_or};
ghost use Rattle.bind_merge.specs.Matching.{compatible_in};
ghost use Rattle.bind_merge.specs.Inner.Reading.{IsReadOf};

use crate::own::{OwnLevel, own_levels};
use bind_load::load;
use edt_base::{Bytes, End, Fault, Text, Yaml};
use std::alloc::{AllocError, Global};
use yaml_profile::read;

/// What reading a file gave.
#[derive(Debug, Drop)]
pub(crate) enum Read {
    /// Its record, level by level.
    Good(Vec<OwnLevel>),
    /// The first fault that it has by itself.
    Bad(Fault),
}

// The fault that ended a call; want of memory goes on.
fn fault_of(end: End) -> Result<Fault, AllocError>
    ensures { IfOk result (λ f. end ≡ ending.Fault f) }
{
    match end {
        End::Fault(fault) => Ok(fault),
        End::Memory(e) => Err(e),
    }
}

/// What reading a file gives. The one error is want of memory.
pub(crate) fn read_file(alloc: Global, name: &Text, bytes: &Bytes) -> Result<Read, AllocError>
    ensures { IfOk result (λ r. IsReadOf r (record_from name.now (reading bytes.now))) }
{
    match read(alloc, name, bytes.as_slice()) {
        Ok(value) => {
            let loaded = record_of(alloc, name, &value)?;
            Ok(loaded)
        }
        Err(end) => Ok(Read::Bad(fault_of(end)?)),
    }
}

/// The record of a file's value, or its first fault. The one error is want of memory.
pub(crate) fn record_of(alloc: Global, name: &Text, value: &Yaml) -> Result<Read, AllocError>
    ensures { IfOk result (λ r. IsReadOf r (record_or name.now (value_of value.now)
        (broken_rule (value_of value.now)))) }
{
    match load(alloc, name, value) {
        Ok(rec) => Ok(Read::Good(own_levels(alloc, rec)?)),
        Err(end) => Ok(Read::Bad(fault_of(end)?)),
    }
}

// The value of a key; None exactly where the map has no such key.
fn look<'a>(pairs: &'a [(Text, Yaml)], key: &str) -> Option<&'a Yaml>
    ensures { option_map (λ v. value_of v.now) result
        ≡ entry_of key.now (pairs_from (map pair_of pairs.now)) }
{
    for (name, value) in pairs {
        if name.as_str() == key {
            return Some(value);
        }
    }
    None
}

// The text that a value is.
fn text_in(value: &Yaml) -> Option<&Text>
    ensures { option_map (λ t. t.now) result ≡ text_in (value_of value.now) }
{
    match value {
        Yaml::Str(text) => Some(text),
        _ => None,
    }
}

/// The compatible string of a value that is a map.
pub(crate) fn compatible_in(value: &Yaml) -> Option<&Text>
    ensures { option_map (λ t. t.now) result ≡ compatible_in (Ok (value_of value.now)) }
{
    match value {
        Yaml::Map(pairs) => text_in(look(pairs, "compatible")?),
        _ => None,
    }
}
