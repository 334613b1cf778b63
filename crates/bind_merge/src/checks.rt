//! The rules that the merged binding itself is tested for.

ghost use Rattle.std.specs.Prelude.{◌≡◌, codes, nat_eq};
ghost use Rattle.std.specs.List.{ends_with};
ghost use Rattle.edt_base.specs.YamlData.{value_of};
ghost use Rattle.bind_merge.specs.Checks.{fits, fits_where, is_byte, is_cell, is_described};
ghost use Rattle.bind_merge.specs.Checks.{is_list_of, is_phandle_array, is_text, is_yes};
ghost use Rattle.bind_merge.specs.Checks.{lacks_space, merged_rule, prop_rule, typed_rule};
ghost use Rattle.bind_merge.specs.Options.{first_some};
ghost use Rattle.bind_merge.specs.Inner.Items.{is_item};

use crate::entry::{Entry, Settings};
use crate::level::Level;
use crate::shared::{SharedText, SharedValue};
use edt_base::{PropType, Rule, Yaml};

/// The first rule that a merged binding breaks: B3 where its top has no description, then B5 to B8
/// of its properties, by level from the top and in byte order. None exactly where it breaks none.
pub(crate) fn merged_rule(levels: &[Level]) -> Option<Rule>
    ensures { result ≡ merged_rule levels.now }
{
    if !is_described(levels) {
        return Some(Rule::B3);
    }
    for level in levels {
        if let Some(rule) = props_rule(level.props.as_slice()) {
            return Some(rule);
        }
    }
    None
}

// The top has a description.
fn is_described(levels: &[Level]) -> bool
    ensures { result ≡ is_described levels.now }
{
    match levels.first() {
        Some(top) => top.described,
        None => false,
    }
}

// The first rule that the properties of a level break.
fn props_rule(props: &[Entry]) -> Option<Rule>
    ensures { result ≡ first_some prop_rule props.now }
{
    for prop in props {
        if let Some(rule) = prop_rule(prop.settings()) {
            return Some(rule);
        }
    }
    None
}

// The first rule that a property breaks.
fn prop_rule(prop: &Settings) -> Option<Rule>
    ensures { result ≡ prop_rule prop.now }
{
    match prop.ty {
        Some(ty) => typed_rule(prop, ty),
        None => Some(Rule::B5),
    }
}

// And where it has a type.
fn typed_rule(prop: &Settings, ty: PropType) -> Option<Rule>
    ensures { result ≡ typed_rule prop.now ty }
{
    if lacks_space(prop, ty) {
        Some(Rule::B6)
    } else if !(fits_where(ty, &prop.constant) && fits_where(ty, &prop.default)) {
        Some(Rule::B7)
    } else if is_yes(prop.deprecated) && is_yes(prop.required) {
        Some(Rule::B8)
    } else {
        None
    }
}

// Its cells' space can't be told.
fn lacks_space(prop: &Settings, ty: PropType) -> bool
    ensures { result ≡ lacks_space prop.now ty }
{
    is_phandle_array(ty) && !ends_with_s(&prop.name) && prop.space.is_none()
}

fn is_phandle_array(ty: PropType) -> bool
    ensures { result ≡ is_phandle_array ty }
{
    ty == PropType::PhandleArray
}

fn ends_with_s(name: &SharedText) -> bool
    ensures { result ≡ ends_with nat_eq name.now (codes "s") }
{
    name.get().as_str().as_bytes().ends_with(b"s")
}

/// It is there, and true.
pub(crate) fn is_yes(truth: Option<bool>) -> bool
    ensures { result ≡ is_yes truth }
{
    match truth {
        Some(truth) => truth,
        None => false,
    }
}

// A value, where there is one, fits the type.
fn fits_where(ty: PropType, value: &Option<SharedValue>) -> bool
    ensures { result ≡ fits_where ty value.now }
{
    match value {
        Some(value) => fits(ty, value.get()),
        None => true,
    }
}

// A value that a `const` or a `default` of this type may have.
fn fits(ty: PropType, value: &Yaml) -> bool
    ensures { result ≡ fits ty (value_of value.now) }
{
    match ty {
        PropType::Int => is_cell(value),
        PropType::Array => is_list_of(value, Item::Cell),
        PropType::U8Array => is_list_of(value, Item::Byte),
        PropType::Str => is_text(value),
        PropType::StrArray => is_list_of(value, Item::Text),
        _ => false,
    }
}

// What the items of a list have to be.
#[derive(Clone, Copy)]
enum Item {
    Cell,
    Byte,
    Text,
}

fn is_list_of(value: &Yaml, item: Item) -> bool
    ensures { result ≡ is_list_of (is_item item) (value_of value.now) }
{
    let Yaml::List(items) = value else {
        return false
    };
    for value in items.iter() {
        if !is_item(value, item) {
            return false;
        }
    }
    true
}

fn is_item(value: &Yaml, item: Item) -> bool
    ensures { result ≡ is_item item (value_of value.now) }
{
    match item {
        Item::Cell => is_cell(value),
        Item::Byte => is_byte(value),
        Item::Text => is_text(value),
    }
}

// A whole number from -2^31 to 2^32 - 1.
fn is_cell(value: &Yaml) -> bool
    ensures { result ≡ is_cell (value_of value.now) }
{
    matches!(value, Yaml::Int(n) if -2147483648 <= *n && *n <= 4294967295)
}

// A whole number from 0 to 255.
fn is_byte(value: &Yaml) -> bool
    ensures { result ≡ is_byte (value_of value.now) }
{
    matches!(value, Yaml::Int(n) if 0 <= *n && *n <= 255)
}

fn is_text(value: &Yaml) -> bool
    ensures { result ≡ is_text (value_of value.now) }
{
    matches!(value, Yaml::Str(_))
}
