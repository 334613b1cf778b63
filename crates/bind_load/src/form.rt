//! The keys of a binding file's maps, and the form that each key's value has to have.

ghost use Rattle.std.specs.Prelude.{◌≡◌, is_some};
ghost use Rattle.std.specs.Option.{option_map};
ghost use Rattle.edt_base.specs.YamlData.{value_of};
ghost use Rattle.bind_load.specs.Forms.{form_of, level_form, setting_form, filter_form};
ghost use Rattle.bind_load.specs.Forms.{include_form, type_named, has_form, space_of};

use edt_base::{PropType, Yaml};

/// Which keys a map takes.
#[derive(Clone, Copy, Debug, PartialEq, Eq)]
pub(crate) enum Keys {
    /// Those of the top and of a child-binding.
    Level,
    /// Those of a property.
    Settings,
    /// Those of a map that includes a file.
    Include,
    /// Those of a deeper level of an include's filter.
    Filter,
}

/// The form that the value of a key has to have.
#[derive(Clone, Copy, Debug, PartialEq, Eq)]
pub(crate) enum Form {
    /// A text, or a scalar of a number's characters that is no whole number.
    Description,
    Text,
    /// A list of texts.
    Texts,
    TextOrTexts,
    /// A boolean.
    Truth,
    /// The name of a property's type.
    Type,
    /// Anything without a scalar that is no value, at any depth.
    Whole,
    /// A list of such.
    WholeList,
    Map,
    /// A map whose values are maps.
    Maps,
    /// A text, or a list of texts and maps.
    Includes,
    /// Names of cells, which have a rule of their own.
    Cells,
}

/// The space of a key `<space>-cells`.
pub(crate) fn space_of(key: &str) -> Option<&str>
    ensures { option_map (λ s. s.now) result ≡ space_of key.now }
{
    key.strip_suffix("-cells")
}

/// The form that the value of a key has to have; none where the map has no such key.
pub(crate) fn form_of(keys: Keys, key: &str) -> Option<Form>
    ensures { result ≡ form_of keys key.now }
{
    match keys {
        Keys::Level => level_form(key),
        Keys::Settings => setting_form(key),
        Keys::Include => include_form(key),
        Keys::Filter => filter_form(key),
    }
}

fn level_form(key: &str) -> Option<Form>
    ensures { result ≡ level_form key.now }
{
    match key {
        "description" => Some(Form::Description),
        "compatible" => Some(Form::Text),
        "include" => Some(Form::Includes),
        "properties" => Some(Form::Maps),
        "child-binding" => Some(Form::Map),
        "bus" => Some(Form::TextOrTexts),
        "on-bus" => Some(Form::Text),
        _ => match space_of(key) {
            Some(_) => Some(Form::Cells),
            None => None,
        },
    }
}

fn setting_form(key: &str) -> Option<Form>
    ensures { result ≡ setting_form key.now }
{
    match key {
        "type" => Some(Form::Type),
        "required" => Some(Form::Truth),
        "deprecated" => Some(Form::Truth),
        "default" => Some(Form::Whole),
        "description" => Some(Form::Description),
        "enum" => Some(Form::WholeList),
        "const" => Some(Form::Whole),
        "specifier-space" => Some(Form::Text),
        _ => None,
    }
}

fn filter_form(key: &str) -> Option<Form>
    ensures { result ≡ filter_form key.now }
{
    match key {
        "property-allowlist" => Some(Form::Texts),
        "property-blocklist" => Some(Form::Texts),
        "child-binding" => Some(Form::Map),
        _ => None,
    }
}

fn include_form(key: &str) -> Option<Form>
    ensures { result ≡ include_form key.now }
{
    match key {
        "name" => Some(Form::Text),
        _ => filter_form(key),
    }
}

/// The type of this name.
pub(crate) fn type_named(name: &str) -> Option<PropType>
    ensures { result ≡ type_named name.now }
{
    match name {
        "string" => Some(PropType::Str),
        "int" => Some(PropType::Int),
        "boolean" => Some(PropType::Boolean),
        "array" => Some(PropType::Array),
        "uint8-array" => Some(PropType::U8Array),
        "string-array" => Some(PropType::StrArray),
        "phandle" => Some(PropType::Phandle),
        "phandles" => Some(PropType::Phandles),
        "phandle-array" => Some(PropType::PhandleArray),
        "path" => Some(PropType::Path),
        "compound" => Some(PropType::Compound),
        _ => None,
    }
}
