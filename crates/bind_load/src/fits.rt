//! Whether a value has the form that its key asks for.

ghost use Rattle.std.specs.Prelude.{◌≡◌, is_none};
ghost use Rattle.std.specs.List.{list_any, list_all};
ghost use Rattle.std.specs.Option.{option_map};
ghost use Rattle.edt_base.specs.YamlData.{value_of, pair_list};
ghost use Rattle.bind_load.specs.Forms.{has_form, is_description, is_text, is_truth, is_type};
ghost use Rattle.bind_load.specs.Forms.{is_map, is_whole, is_whole_list, are_texts};
ghost use Rattle.bind_load.specs.Forms.{is_text_or_texts, are_maps, are_includes, is_text_or_map};

use crate::form::{Form, type_named};
use edt_base::{Text, Yaml};

/// The value has the form; what `<space>-cells` holds is no matter of form.
pub(crate) fn has_form(form: Form, y: &Yaml) -> bool
    ensures { result ≡ has_form form (value_of y.now) }
{
    match form {
        Form::Description => matches!(y, Yaml::Str(_) | Yaml::Other),
        Form::Text => is_text(y),
        Form::Texts => are_texts(y),
        Form::TextOrTexts => is_text(y) || are_texts(y),
        Form::Truth => matches!(y, Yaml::Bool(_)),
        Form::Type => is_type(y),
        Form::Whole => is_whole(y),
        Form::WholeList => matches!(y, Yaml::List(_)) && is_whole(y),
        Form::Map => is_map(y),
        Form::Maps => are_maps(y),
        Form::Includes => are_includes(y),
        Form::Cells => true,
    }
}

/// The value is a text.
pub(crate) fn is_text(y: &Yaml) -> bool
    ensures { result ≡ is_text (value_of y.now) }
{
    matches!(y, Yaml::Str(_))
}

/// The value is a map.
pub(crate) fn is_map(y: &Yaml) -> bool
    ensures { result ≡ is_map (value_of y.now) }
{
    matches!(y, Yaml::Map(_))
}

fn is_type(y: &Yaml) -> bool
    ensures { result ≡ is_type (value_of y.now) }
{
    match y {
        Yaml::Str(name) => type_named(name.as_str()).is_some(),
        _ => false,
    }
}

/// The value is a list of texts.
pub(crate) fn are_texts(y: &Yaml) -> bool
    ensures { result ≡ are_texts (value_of y.now) }
{
    let Yaml::List(items) = y else { return false };
    for item in items.iter() {
        if !is_text(item) {
            return false;
        }
    }
    true
}

// The value is a map whose values are maps.
fn are_maps(y: &Yaml) -> bool
    ensures { result ≡ are_maps (value_of y.now) }
{
    let Yaml::Map(pairs) = y else { return false };
    for (_, value) in pairs.iter() {
        if !is_map(value) {
            return false;
        }
    }
    true
}

// The value is a text, or a list of texts and maps.
fn are_includes(y: &Yaml) -> bool
    ensures { result ≡ are_includes (value_of y.now) }
{
    let Yaml::List(items) = y else {
        return is_text(y)
    };
    for item in items.iter() {
        if !matches!(item, Yaml::Str(_) | Yaml::Map(_)) {
            return false;
        }
    }
    true
}

// There is no `Other`, at any depth.
fn is_whole(y: &Yaml) -> bool
    ensures { result ≡ is_whole (value_of y.now) }
{
    match y {
        Yaml::List(items) => {
            for item in items.iter() {
                if !is_whole(item) {
                    return false;
                }
            }
            true
        }
        Yaml::Map(pairs) => {
            for (_, value) in pairs.iter() {
                if !is_whole(value) {
                    return false;
                }
            }
            true
        }
        Yaml::Other => false,
        _ => true,
    }
}
