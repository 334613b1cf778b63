//! The maps of a binding file, each with the keys that it takes.

ghost use Rattle.std.specs.Prelude.{◌≡◌, ◌++◌, IfOk, OnOk, map, [], ◌∷◌};
ghost use Rattle.std.specs.Option.{option_map};
ghost use Rattle.std.specs.List.{flat_map};
ghost use Rattle.edt_base.specs.YamlData.{value_of, a_map, entry_of, pair_list, item_list};
ghost use Rattle.bind_load.specs.Inner.Seen.{pairs_of, items_of, map_data, level_data, levels_from};
ghost use Rattle.bind_load.specs.FileMaps.{levels, levels_below, level_maps, file_maps};
ghost use Rattle.bind_load.specs.FileMaps.{settings_map, include_maps, filter_map, properties_of};
ghost use Rattle.bind_load.specs.FileMaps.{includes_of, items_in};

use crate::form::Keys;
use edt_base::{Text, Yaml};
use std::alloc::{AllocError, Global};
use std::slice;

/// A map, and which keys it takes.
#[derive(Clone, Copy)]
pub(crate) struct Map<'a> {
    pub(crate) keys: Keys,
    pub(crate) pairs: &'a [(Text, Yaml)],
}

/// The value of a key; None exactly where the map has no such key.
pub(crate) fn look<'a>(pairs: &'a [(Text, Yaml)], key: &str) -> Option<&'a Yaml>
    ensures { option_map (λ v. value_of v.now) result ≡ entry_of key.now (pairs_of pairs.now) }
{
    for (name, value) in pairs {
        if name.as_str() == key {
            return Some(value);
        }
    }
    None
}

/// The map that a value is; None where it is another.
pub(crate) fn top(y: &Yaml) -> Option<&[(Text, Yaml)]>
    ensures { levels_from result ≡ levels (value_of y.now) }
{
    match y {
        Yaml::Map(pairs) => Some(pairs),
        _ => None,
    }
}

/// The map of the `child-binding` of a map; None where there is none.
#[tactic(auto, using(crate::proofs::Levels::below_is))]
pub(crate) fn below<'a>(pairs: &'a [(Text, Yaml)]) -> Option<&'a [(Text, Yaml)]>
    ensures { levels_from result ≡ levels_below (pairs_of pairs.now) }
{
    top(look(pairs, "child-binding")?)
}

/// A map, that of its `child-binding`, that of this one's, and so on. The one error is want of
/// memory.
pub(crate) fn levels<'a>(
    alloc: Global,
    first: Option<&'a [(Text, Yaml)]>,
) -> Result<Vec<&'a [(Text, Yaml)]>, AllocError>
    ensures { IfOk result (λ found. map level_data found.items ≡ levels_from first.entry) }
{
    let mut found = Vec::new(alloc);
    let mut next = first;
    while let Some(pairs) = next {
        found.push(pairs)?;
        next = below(pairs);
    }
    Ok(found)
}

/// The properties of a level with their settings.
pub(crate) fn properties<'a>(pairs: &'a [(Text, Yaml)]) -> &'a [(Text, Yaml)]
    ensures { pair_list (pairs_of result.now) ≡ properties_of (pairs_of pairs.now) }
{
    match look(pairs, "properties") {
        Some(Yaml::Map(properties)) => properties,
        _ => &[],
    }
}

/// What a level includes.
pub(crate) fn includes<'a>(pairs: &'a [(Text, Yaml)]) -> &'a [Yaml]
    ensures { item_list (items_of result.now) ≡ includes_of (pairs_of pairs.now) }
{
    match look(pairs, "include") {
        Some(value) => included(value),
        None => &[],
    }
}

// The items of a list; a text stands for the list of it alone.
fn included(y: &Yaml) -> &[Yaml]
    ensures { item_list (items_of result.now) ≡ items_in (value_of y.now) }
{
    match y {
        Yaml::List(items) => items,
        Yaml::Str(_) => slice::from_ref(y),
        _ => &[],
    }
}

/// All maps of a file: those of each level, from the top down through the child-bindings. The one
/// error is want of memory.
pub(crate) fn file_maps<'a>(alloc: Global, y: &'a Yaml) -> Result<Vec<Map<'a>>, AllocError>
    ensures { IfOk result (λ maps. map map_data maps.items ≡ file_maps (value_of y.now)) }
{
    let mut maps = Vec::new(alloc);
    let found = levels(alloc, top(y))?;
    for pairs in found.iter() {
        add_level(alloc, &mut maps, pairs)?;
    }
    Ok(maps)
}

// One map.
fn add<'a>(maps: &mut Vec<Map<'a>>, keys: Keys, pairs: &'a [(Text, Yaml)]) -> Result<(), AllocError>
    ensures { OnOk result (map map_data maps.new.items ≡ map map_data maps.old.items ++ record {
      keys = keys;
      pairs = pairs_of pairs.now;
    } ∷ []) }
{
    maps.push(Map { keys, pairs })?;
    Ok(())
}

// The maps of a level: its own, those of its properties' settings and those of its includes.
fn add_level<'a>(
    alloc: Global,
    maps: &mut Vec<Map<'a>>,
    pairs: &'a [(Text, Yaml)],
) -> Result<(), AllocError>
    ensures { OnOk result (map map_data maps.new.items ≡ map map_data maps.old.items
        ++ level_maps (pairs_of pairs.now)) }
{
    add(maps, Keys::Level, pairs)?;
    add_settings(maps, properties(pairs))?;
    add_includes(alloc, maps, includes(pairs))?;
    Ok(())
}

// The settings of properties.
fn add_settings<'a>(
    maps: &mut Vec<Map<'a>>,
    properties: &'a [(Text, Yaml)],
) -> Result<(), AllocError>
    ensures { OnOk result (map map_data maps.new.items ≡ map map_data maps.old.items
        ++ flat_map settings_map (pair_list (pairs_of properties.now))) }
{
    let keys = Keys::Settings;
    for (_, settings) in properties {
        if let Yaml::Map(pairs) = settings {
            maps.push(Map { keys, pairs })?;
        }
    }
    Ok(())
}

// The maps of includes.
fn add_includes<'a>(
    alloc: Global,
    maps: &mut Vec<Map<'a>>,
    includes: &'a [Yaml],
) -> Result<(), AllocError>
    ensures { OnOk result (map map_data maps.new.items ≡ map map_data maps.old.items
        ++ flat_map include_maps (item_list (items_of includes.now))) }
{
    for include in includes {
        add_include(alloc, maps, include)?;
    }
    Ok(())
}

// The maps of an include.
fn add_include<'a>(
    alloc: Global,
    maps: &mut Vec<Map<'a>>,
    include: &'a Yaml,
) -> Result<(), AllocError>
    ensures { OnOk result (map map_data maps.new.items ≡ map map_data maps.old.items
        ++ include_maps (value_of include.now)) }
{
    match include {
        Yaml::Map(pairs) => add_include_map(alloc, maps, pairs),
        _ => Ok(()),
    }
}

// The map that names an included file, and the deeper levels of its filter.
fn add_include_map<'a>(
    alloc: Global,
    maps: &mut Vec<Map<'a>>,
    pairs: &'a [(Text, Yaml)],
) -> Result<(), AllocError>
    ensures { OnOk result (map map_data maps.new.items ≡ map map_data maps.old.items
        ++ include_maps (a_map (pairs_of pairs.now))) }
{
    let filters = levels(alloc, below(pairs))?;
    add(maps, Keys::Include, pairs)?;
    add_filters(maps, filters.as_slice())?;
    Ok(())
}

// The deeper levels of a filter.
fn add_filters<'a>(
    maps: &mut Vec<Map<'a>>,
    filters: &[&'a [(Text, Yaml)]],
) -> Result<(), AllocError>
    ensures { OnOk result (map map_data maps.new.items ≡ map map_data maps.old.items
        ++ map filter_map (map level_data filters.now)) }
{
    for pairs in filters {
        add(maps, Keys::Filter, pairs)?;
    }
    Ok(())
}
