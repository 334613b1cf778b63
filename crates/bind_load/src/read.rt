//! A record, read from a file's value.

ghost use Rattle.std.specs.Prelude.{◌≡◌, ◌++◌, IfOk, OnOk, map};
ghost use Rattle.std.specs.Option.{option_map};
ghost use Rattle.std.specs.List.{flat_map};
ghost use Rattle.edt_base.specs.YamlData.{value_of, entry_of, item_list};
ghost use Rattle.bind_load.specs.Inner.Seen.{pairs_of, items_of};
ghost use Rattle.bind_load.specs.RecordOf.{text_in, truth_in, type_in, description_in, texts_in};
ghost use Rattle.bind_load.specs.RecordOf.{text_or_texts_in, list_in, one_text, read_at};

use crate::form::type_named;
use crate::maps::look;
use edt_base::{PropType, Text, Yaml};
use std::alloc::{AllocError, Global};

/// A copy of a value. The one error is want of memory.
pub(crate) fn copy(alloc: Global, y: &Yaml) -> Result<Yaml, AllocError>
    ensures { IfOk result (λ z. value_of z ≡ value_of y.now) }
{
    match y {
        Yaml::Map(pairs) => {
            let mut copied = Vec::with_capacity(alloc, pairs.len())?;
            for (key, value) in pairs.iter() {
                copied.push((key.copy(alloc)?, copy(alloc, value)?))?;
            }
            Ok(Yaml::Map(copied))
        }
        Yaml::List(items) => {
            let mut copied = Vec::with_capacity(alloc, items.len())?;
            for item in items.iter() {
                copied.push(copy(alloc, item)?)?;
            }
            Ok(Yaml::List(copied))
        }
        Yaml::Str(text) => Ok(Yaml::Str(text.copy(alloc)?)),
        Yaml::Int(number) => Ok(Yaml::Int(*number)),
        Yaml::Bool(truth) => Ok(Yaml::Bool(*truth)),
        Yaml::Null => Ok(Yaml::Null),
        Yaml::Other => Ok(Yaml::Other),
    }
}

/// The text of a key.
pub(crate) fn text_at(
    alloc: Global,
    pairs: &[(Text, Yaml)],
    key: &str,
) -> Result<Option<Text>, AllocError>
    ensures { IfOk result (λ text. text ≡ read_at key.now text_in (pairs_of pairs.now)) }
{
    match look(pairs, key) {
        Some(Yaml::Str(text)) => Ok(Some(text.copy(alloc)?)),
        _ => Ok(None),
    }
}

/// The description, empty where it is no text.
pub(crate) fn description_at(
    alloc: Global,
    pairs: &[(Text, Yaml)],
    key: &str,
) -> Result<Option<Text>, AllocError>
    ensures { IfOk result (λ text. text ≡ read_at key.now description_in (pairs_of pairs.now)) }
{
    match look(pairs, key) {
        Some(Yaml::Str(text)) => Ok(Some(text.copy(alloc)?)),
        Some(Yaml::Other) => Ok(Some(Text::new(String::new(alloc)))),
        _ => Ok(None),
    }
}

/// The boolean of a key.
pub(crate) fn truth_at(pairs: &[(Text, Yaml)], key: &str) -> Option<bool>
    ensures { result ≡ read_at key.now truth_in (pairs_of pairs.now) }
{
    match look(pairs, key) {
        Some(Yaml::Bool(truth)) => Some(*truth),
        _ => None,
    }
}

/// The type that a key names.
pub(crate) fn type_at(pairs: &[(Text, Yaml)], key: &str) -> Option<PropType>
    ensures { result ≡ read_at key.now type_in (pairs_of pairs.now) }
{
    match look(pairs, key) {
        Some(Yaml::Str(name)) => type_named(name.as_str()),
        _ => None,
    }
}

/// A copy of the value of a key.
pub(crate) fn value_at(
    alloc: Global,
    pairs: &[(Text, Yaml)],
    key: &str,
) -> Result<Option<Yaml>, AllocError>
    ensures { IfOk result (λ value. option_map value_of value
        ≡ entry_of key.now (pairs_of pairs.now)) }
{
    match look(pairs, key) {
        Some(value) => Ok(Some(copy(alloc, value)?)),
        None => Ok(None),
    }
}

/// The texts of a list.
pub(crate) fn texts(alloc: Global, items: &[Yaml]) -> Result<Vec<Text>, AllocError>
    ensures { IfOk result (λ texts. texts.items
        ≡ flat_map one_text (item_list (items_of items.now))) }
{
    let mut texts = Vec::with_capacity(alloc, items.len())?;
    for item in items {
        if let Yaml::Str(text) = item {
            texts.push(text.copy(alloc)?)?;
        }
    }
    Ok(texts)
}

/// The texts of a key's list.
pub(crate) fn texts_at(
    alloc: Global,
    pairs: &[(Text, Yaml)],
    key: &str,
) -> Result<Option<Vec<Text>>, AllocError>
    ensures { IfOk result (λ texts. option_map (λ v. v.items) texts
        ≡ read_at key.now texts_in (pairs_of pairs.now)) }
{
    match look(pairs, key) {
        Some(Yaml::List(items)) => Ok(Some(texts(alloc, items)?)),
        _ => Ok(None),
    }
}

/// The texts of a key's list, or its one text.
pub(crate) fn text_or_texts_at(
    alloc: Global,
    pairs: &[(Text, Yaml)],
    key: &str,
) -> Result<Option<Vec<Text>>, AllocError>
    ensures { IfOk result (λ texts. option_map (λ v. v.items) texts
        ≡ read_at key.now text_or_texts_in (pairs_of pairs.now)) }
{
    match look(pairs, key) {
        Some(Yaml::List(items)) => Ok(Some(texts(alloc, items)?)),
        Some(Yaml::Str(text)) => Ok(Some(vec![in alloc; text.copy(alloc)?]?)),
        _ => Ok(None),
    }
}

/// Copies of the items of a key's list.
pub(crate) fn list_at(
    alloc: Global,
    pairs: &[(Text, Yaml)],
    key: &str,
) -> Result<Option<Vec<Yaml>>, AllocError>
    ensures { IfOk result (λ list. option_map (λ v. map value_of v.items) list
        ≡ read_at key.now list_in (pairs_of pairs.now)) }
{
    match look(pairs, key) {
        Some(Yaml::List(items)) => Ok(Some(copy_all(alloc, items)?)),
        _ => Ok(None),
    }
}

// Copies of values.
fn copy_all(alloc: Global, items: &[Yaml]) -> Result<Vec<Yaml>, AllocError>
    ensures { IfOk result (λ copied. map value_of copied.items ≡ item_list (items_of items.now)) }
{
    let mut copied = Vec::with_capacity(alloc, items.len())?;
    for item in items {
        copied.push(copy(alloc, item)?)?;
    }
    Ok(copied)
}
