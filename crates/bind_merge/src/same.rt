//! Whether two values of one setting are the same.

ghost use Rattle.std.specs.Prelude.{◌≡◌, ◌↔◌, IsTrue, map};
ghost use Rattle.std.specs.Cmp.Lexicographic.{pointwise};
ghost use Rattle.std.specs.Str.{bytes_eq};
ghost use Rattle.std.specs.Option.{option_map};
ghost use Rattle.edt_base.specs.YamlData.{value_of, pair_of, pairs_from, items_from};
ghost use Rattle.bind_merge.specs.Joining.{AgreeOn};
ghost use Rattle.bind_merge.specs.Same.{same, same_list, pairs_in, items_in};

use crate::shared::{SharedNames, SharedText, SharedValue, SharedValues};
use edt_base::{PropType, Text, Yaml};

// The pairs of a map; None where the value is another.
fn pairs_of(y: &Yaml) -> Option<&[(Text, Yaml)]>
    ensures { option_map (λ p. pairs_from (map pair_of p.now)) result ≡ pairs_in (value_of y.now) }
{
    match y {
        Yaml::Map(pairs) => Some(pairs),
        _ => None,
    }
}

// The items of a list; None where the value is another.
fn items_of(y: &Yaml) -> Option<&[Yaml]>
    ensures { option_map (λ p. items_from (map value_of p.now)) result ≡ items_in (value_of y.now) }
{
    match y {
        Yaml::List(items) => Some(items),
        _ => None,
    }
}

/// Two values are the same: maps in the same order of keys.
#[tactic(auto, using(crate::proofs::Agreeing::same_parts))]
pub(crate) fn same_value(a: &Yaml, b: &Yaml) -> bool
    ensures { result ≡ same (value_of a.now) (value_of b.now) }
{
    match a {
        Yaml::Map(pairs) => {
            let Some(others) = pairs_of(b) else {
                return false
            };
            let mut left = others;
            for (key, value) in pairs.iter() {
                let Some(((other_key, other), rest)) = left.split_first() else {
                    return false
                };
                if *key != *other_key || !same_value(value, other) {
                    return false;
                }
                left = rest;
            }
            left.is_empty()
        }
        Yaml::List(items) => {
            let Some(others) = items_of(b) else {
                return false
            };
            let mut left = others;
            for value in items.iter() {
                let Some((other, rest)) = left.split_first() else {
                    return false
                };
                if !same_value(value, other) {
                    return false;
                }
                left = rest;
            }
            left.is_empty()
        }
        Yaml::Str(text) => matches!(b, Yaml::Str(other) if text == other),
        Yaml::Int(number) => matches!(b, Yaml::Int(other) if number == other),
        Yaml::Bool(truth) => matches!(b, Yaml::Bool(other) if truth == other),
        Yaml::Null => matches!(b, Yaml::Null),
        Yaml::Other => matches!(b, Yaml::Other),
    }
}

/// Two lists of values are the same.
fn same_values(a: &[Yaml], b: &[Yaml]) -> bool
    ensures { result ≡ same_list (map value_of a.now) (map value_of b.now) }
{
    let mut left = b;
    for value in a {
        let Some((other, rest)) = left.split_first() else {
            return false
        };
        if !same_value(value, other) {
            return false;
        }
        left = rest;
    }
    left.is_empty()
}

/// Where both are there they are the same; and so of the functions below.
pub(crate) fn agree_types(a: Option<PropType>, b: Option<PropType>) -> bool
    ensures { IsTrue result ↔ AgreeOn a b }
{
    match (a, b) {
        (Some(a), Some(b)) => a == b,
        _ => true,
    }
}

pub(crate) fn agree_truths(a: Option<bool>, b: Option<bool>) -> bool
    ensures { IsTrue result ↔ AgreeOn a b }
{
    match (a, b) {
        (Some(a), Some(b)) => a == b,
        _ => true,
    }
}

#[tactic(auto, using(crate::proofs::Agreeing::values_agree))]
pub(crate) fn agree_values(a: &Option<SharedValue>, b: &Option<SharedValue>) -> bool
    ensures { IsTrue result ↔ AgreeOn a.now b.now }
{
    match (a, b) {
        (Some(a), Some(b)) => same_value(a.get(), b.get()),
        _ => true,
    }
}

#[tactic(auto, using(crate::proofs::Agreeing::lists_agree))]
pub(crate) fn agree_lists(a: &Option<SharedValues>, b: &Option<SharedValues>) -> bool
    ensures { IsTrue result ↔ AgreeOn a.now b.now }
{
    match (a, b) {
        (Some(a), Some(b)) => same_values(a.get().as_slice(), b.get().as_slice()),
        _ => true,
    }
}

pub(crate) fn agree_texts(a: &Option<SharedText>, b: &Option<SharedText>) -> bool
    ensures { IsTrue result ↔ AgreeOn a.now b.now }
{
    match (a, b) {
        (Some(a), Some(b)) => a.get() == b.get(),
        _ => true,
    }
}

#[tactic(auto, using(crate::proofs::Agreeing::names_agree))]
pub(crate) fn agree_names(a: &Option<SharedNames>, b: &Option<SharedNames>) -> bool
    ensures { IsTrue result ↔ AgreeOn a.now b.now }
{
    match (a, b) {
        (Some(a), Some(b)) => same_names(a.get().as_slice(), b.get().as_slice()),
        _ => true,
    }
}

// Two lists of names are the same.
fn same_names(a: &[Text], b: &[Text]) -> bool
    ensures { result ≡ pointwise bytes_eq a.now b.now }
{
    a == b
}
