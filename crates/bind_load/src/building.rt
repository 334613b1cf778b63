//! A record, built level by level from a file's value.

ghost use Rattle.std.specs.Prelude.{◌≡◌, IfOk, [], ◌∷◌, map};
ghost use Rattle.std.specs.Option.{option_map, option_map_or};
ghost use Rattle.std.specs.List.{flat_map};
ghost use Rattle.edt_base.specs.YamlData.{value_of, a_map, pair_list, item_list};
ghost use Rattle.bind_load.specs.Inner.Seen.{pairs_of, items_of, level_data, levels_from};
ghost use Rattle.bind_load.specs.FileMaps.{levels, levels_below, properties_of, includes_of};
ghost use Rattle.bind_load.specs.RecordOf.{record_in, level_in, include_in, prop_in, spec_in};
ghost use Rattle.bind_load.specs.RecordOf.{cells_in, filter_level, no_filter};
ghost use Rattle.bind_load.specs.RecordSeen.{record_of, filter_of, include_of, spec_of, prop_of};
ghost use Rattle.bind_load.specs.RecordSeen.{rest_of};

use crate::form::space_of;
use crate::maps::{below, includes, levels, look, properties, top};
use crate::read::{
    description_at, list_at, text_at, text_or_texts_at, texts, texts_at, truth_at, type_at,
    value_at,
};
use crate::record::{BindingRec, Filter, Include, PropSpec};
use edt_base::{Text, Yaml};
use std::alloc::{AllocError, Global};

/// The record of a file's value; None exactly where that is no map. The one error is want of
/// memory.
pub(crate) fn build(alloc: Global, y: &Yaml) -> Result<Option<BindingRec>, AllocError>
    ensures { IfOk result (λ rec. rest_of (option_map record_of rec) ≡ record_in (value_of y.now)) }
{
    let mut left = levels(alloc, top(y))?;
    let mut rec = None;
    while let Some(pairs) = left.pop() {
        rec = Some(level(alloc, pairs, rec)?);
    }
    Ok(rec)
}

// A level, above those that are there already.
fn level(
    alloc: Global,
    pairs: &[(Text, Yaml)],
    below: Option<BindingRec>,
) -> Result<BindingRec, AllocError>
    ensures { IfOk result (λ rec. record_of rec ≡ level_in (pairs_of pairs.now)
        ∷ rest_of (option_map record_of below)) }
{
    let child = match below {
        Some(rec) => Some(Box::new(alloc, rec)?),
        None => None,
    };
    Ok(BindingRec {
        description: description_at(alloc, pairs, "description")?,
        compatible: text_at(alloc, pairs, "compatible")?,
        buses: text_or_texts_at(alloc, pairs, "bus")?,
        on_bus: text_at(alloc, pairs, "on-bus")?,
        cells: cells(alloc, pairs)?,
        includes: included(alloc, includes(pairs))?,
        props: props(alloc, properties(pairs))?,
        child,
    })
}

// The names of each space's cells.
fn cells(alloc: Global, pairs: &[(Text, Yaml)]) -> Result<Vec<(Text, Vec<Text>)>, AllocError>
    ensures { IfOk result (λ cells. map (λ e. (e.0, e.1.items)) cells.items
        ≡ flat_map cells_in (pair_list (pairs_of pairs.now))) }
{
    let mut cells = Vec::new(alloc);
    for (key, value) in pairs {
        if let Some(space) = space_of(key.as_str()) {
            if let Yaml::List(items) = value {
                let space = Text::new(String::from_str(alloc, space)?);
                cells.push((space, texts(alloc, items)?))?;
            }
        }
    }
    Ok(cells)
}

// The properties with their settings.
fn props(alloc: Global, properties: &[(Text, Yaml)]) -> Result<Vec<(Text, PropSpec)>, AllocError>
    ensures { IfOk result (λ props. map prop_of props.items
        ≡ flat_map prop_in (pair_list (pairs_of properties.now))) }
{
    let mut props = Vec::with_capacity(alloc, properties.len())?;
    for (name, settings) in properties {
        if let Some(prop) = prop(alloc, name, settings)? {
            props.push(prop)?;
        }
    }
    Ok(props)
}

// A property with its settings.
fn prop(alloc: Global, name: &Text, settings: &Yaml) -> Result<Option<(Text, PropSpec)>, AllocError>
    ensures { IfOk result (λ prop. option_map_or (λ e. prop_of e ∷ []) prop []
        ≡ prop_in (name.now, value_of settings.now)) }
{
    match settings {
        Yaml::Map(settings) => Ok(Some((name.copy(alloc)?, spec(alloc, settings)?))),
        _ => Ok(None),
    }
}

// The settings of a property.
fn spec(alloc: Global, settings: &[(Text, Yaml)]) -> Result<PropSpec, AllocError>
    ensures { IfOk result (λ spec. spec_of spec ≡ spec_in (pairs_of settings.now)) }
{
    Ok(PropSpec {
        ty: type_at(settings, "type"),
        required: truth_at(settings, "required"),
        deprecated: truth_at(settings, "deprecated"),
        default: value_at(alloc, settings, "default")?,
        constant: value_at(alloc, settings, "const")?,
        choices: list_at(alloc, settings, "enum")?,
        space: text_at(alloc, settings, "specifier-space")?,
        description: description_at(alloc, settings, "description")?,
    })
}

// What a level includes.
fn included(alloc: Global, values: &[Yaml]) -> Result<Vec<Include>, AllocError>
    ensures { IfOk result (λ included. map include_of included.items
        ≡ flat_map include_in (item_list (items_of values.now))) }
{
    let mut included = Vec::with_capacity(alloc, values.len())?;
    for value in values {
        if let Some(include) = include(alloc, value)? {
            included.push(include)?;
        }
    }
    Ok(included)
}

// An include: a file's name, or a map with the name and a filter.
fn include(alloc: Global, y: &Yaml) -> Result<Option<Include>, AllocError>
    ensures { IfOk result (λ include. option_map_or (λ i. include_of i ∷ []) include []
        ≡ include_in (value_of y.now)) }
{
    match y {
        Yaml::Str(name) => Ok(Some(Include {
            name: name.copy(alloc)?,
            filter: Filter {
                allow: None,
                block: None,
                child: None,
            },
        })),
        Yaml::Map(pairs) => include_map(alloc, pairs),
        _ => Ok(None),
    }
}

// An include by a map, with the name and a filter.
fn include_map(alloc: Global, pairs: &[(Text, Yaml)]) -> Result<Option<Include>, AllocError>
    ensures { IfOk result (λ include. option_map_or (λ i. include_of i ∷ []) include []
        ≡ include_in (a_map (pairs_of pairs.now))) }
{
    match text_at(alloc, pairs, "name")? {
        Some(name) => Ok(Some(Include {
            name,
            filter: filter(alloc, pairs)?,
        })),
        None => Ok(None),
    }
}

// The filter of an include's map.
fn filter(alloc: Global, pairs: &[(Text, Yaml)]) -> Result<Filter, AllocError>
    ensures { IfOk result (λ filter. filter_of filter ≡ filter_level (pairs_of pairs.now)
        ∷ map filter_level (levels_below (pairs_of pairs.now))) }
{
    let mut left = levels(alloc, below(pairs))?;
    let mut filter = None;
    while let Some(deeper) = left.pop() {
        filter = Some(level_filter(alloc, deeper, filter)?);
    }
    level_filter(alloc, pairs, filter)
}

// A level of a filter, above those that are there already.
fn level_filter(
    alloc: Global,
    pairs: &[(Text, Yaml)],
    below: Option<Filter>,
) -> Result<Filter, AllocError>
    ensures { IfOk result (λ filter. filter_of filter ≡ filter_level (pairs_of pairs.now)
        ∷ rest_of (option_map filter_of below)) }
{
    let child = match below {
        Some(filter) => Some(Box::new(alloc, filter)?),
        None => None,
    };
    Ok(Filter {
        allow: texts_at(alloc, pairs, "property-allowlist")?,
        block: texts_at(alloc, pairs, "property-blocklist")?,
        child,
    })
}
