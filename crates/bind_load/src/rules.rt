//! The rules that are tested in one file by itself.

ghost use Rattle.std.specs.Prelude.{◌≡◌, ◌||◌, ◌&&◌, IfOk, map, not, is_some, is_none};
ghost use Rattle.std.specs.List.{list_any};
ghost use Rattle.edt_base.specs.YamlData.{value_of};
ghost use Rattle.bind_load.specs.Inner.Seen.{map_data};
ghost use Rattle.bind_load.specs.Rules.{has_unknown_key, has_wrong_form, has_both_lists};
ghost use Rattle.bind_load.specs.Rules.{has_bad_cells, lacks_name, rule_of_maps, broken_rule};
ghost use Rattle.bind_load.specs.Rules.{has_other_form};

use crate::fits::{are_texts, has_form, is_map};
use crate::form::{Keys, form_of, space_of};
use crate::maps::{Map, file_maps, look};
use edt_base::{Rule, Yaml};
use std::alloc::{AllocError, Global};

/// The first rule that a file breaks: B1 where its top is no map, then B2, B4, B10 and B13, each
/// over the whole file; None exactly where it breaks none. The one error is want of memory.
pub(crate) fn broken_rule(alloc: Global, y: &Yaml) -> Result<Option<Rule>, AllocError>
    ensures { IfOk result (λ rule. rule ≡ broken_rule (value_of y.now)) }
{
    if !is_map(y) {
        return Ok(Some(Rule::B1));
    }
    let maps = file_maps(alloc, y)?;
    Ok(rule_of_maps(maps.as_slice()))
}

// The first rule that the maps break.
fn rule_of_maps(maps: &[Map<'_>]) -> Option<Rule>
    ensures { result ≡ rule_of_maps (map map_data maps.now) }
{
    if any_unknown_key(maps) {
        Some(Rule::B2)
    } else if any_wrong_form(maps) {
        Some(Rule::B4)
    } else if any_both_lists(maps) {
        Some(Rule::B10)
    } else if any_bad_cells(maps) {
        Some(Rule::B13)
    } else {
        None
    }
}

fn any_unknown_key(maps: &[Map<'_>]) -> bool
    ensures { result ≡ list_any has_unknown_key (map map_data maps.now) }
{
    for map in maps {
        if has_unknown_key(map) {
            return true;
        }
    }
    false
}

fn any_wrong_form(maps: &[Map<'_>]) -> bool
    ensures { result ≡ list_any has_wrong_form (map map_data maps.now) }
{
    for map in maps {
        if has_wrong_form(map) {
            return true;
        }
    }
    false
}

fn any_both_lists(maps: &[Map<'_>]) -> bool
    ensures { result ≡ list_any has_both_lists (map map_data maps.now) }
{
    for map in maps {
        if has_both_lists(map) {
            return true;
        }
    }
    false
}

fn any_bad_cells(maps: &[Map<'_>]) -> bool
    ensures { result ≡ list_any has_bad_cells (map map_data maps.now) }
{
    for map in maps {
        if has_bad_cells(map) {
            return true;
        }
    }
    false
}

// A key is unknown.
fn has_unknown_key(map: &Map<'_>) -> bool
    ensures { result ≡ has_unknown_key (map_data map.now) }
{
    for (key, _) in map.pairs {
        if form_of(map.keys, key.as_str()).is_none() {
            return true;
        }
    }
    false
}

// A key's value has the wrong form, or the file of an include isn't named.
fn has_wrong_form(map: &Map<'_>) -> bool
    ensures { result ≡ has_wrong_form (map_data map.now) }
{
    if lacks_name(map) {
        return true;
    }
    for (key, value) in map.pairs {
        if has_other_form(map.keys, key.as_str(), value) {
            return true;
        }
    }
    false
}

// A map that includes a file doesn't name it.
fn lacks_name(map: &Map<'_>) -> bool
    ensures { result ≡ lacks_name (map_data map.now) }
{
    match map.keys {
        Keys::Include => look(map.pairs, "name").is_none(),
        _ => false,
    }
}

// The value of a known key has another form.
fn has_other_form(keys: Keys, key: &str, value: &Yaml) -> bool
    ensures { result ≡ has_other_form keys (key.now, value_of value.now) }
{
    match form_of(keys, key) {
        Some(form) => !has_form(form, value),
        None => false,
    }
}

// One filter has both lists.
fn has_both_lists(map: &Map<'_>) -> bool
    ensures { result ≡ has_both_lists (map_data map.now) }
{
    match map.keys {
        Keys::Include | Keys::Filter => {
            look(map.pairs, "property-allowlist").is_some()
                && look(map.pairs, "property-blocklist").is_some()
        }
        _ => false,
    }
}

// What `<space>-cells` holds is no list of texts.
fn has_bad_cells(map: &Map<'_>) -> bool
    ensures { result ≡ has_bad_cells (map_data map.now) }
{
    if map.keys != Keys::Level {
        return false;
    }
    for (key, value) in map.pairs {
        if space_of(key.as_str()).is_some() && !are_texts(value) {
            return true;
        }
    }
    false
}
