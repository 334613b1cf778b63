//! Rows of `bind_load`: `binding` is a binding file, which `yaml_profile` reads.
//!
//! The answer is the record, each level in parentheses, or the rule that the file breaks.

use crate::table::Row;
use crate::yaml_values;
use bind_load::{BindingRec, Filter, Include, PropSpec, load};
use edt_base::{End, Place, Text, Yaml};
use std::alloc::{AllocError, Global};
use yaml_profile::read;

pub fn answer(alloc: Global, row: &Row) -> Result<Option<String>, AllocError> {
    let Some(source) = row.bytes("binding") else {
        return Ok(None);
    };
    let file = Text::new(String::from_str(alloc, "d/x.yaml")?);
    let mut out = String::new(alloc);
    match loaded(alloc, &file, source) {
        Ok(record) => show_record(&mut out, &record)?,
        Err(End::Fault(fault)) => match &fault.place {
            Place::File(name) if *name == file => write!(out, "{}", fault.rule)?,
            _ => write!(out, "{fault}")?,
        },
        Err(End::Memory(e)) => return Err(e),
    }
    Ok(Some(out))
}

fn loaded(alloc: Global, file: &Text, source: &[u8]) -> Result<BindingRec, End> {
    let value = read(alloc, file, source)?;
    load(alloc, file, &value)
}

/// Adds what is there, behind its name.
fn show_word(out: &mut String, name: &str, word: &Option<Text>) -> Result<(), AllocError> {
    match word {
        Some(word) => write!(out, " {name}='{}'", word.as_str()),
        None => Ok(()),
    }
}

fn show_list(out: &mut String, name: &str, words: &[Text]) -> Result<(), AllocError> {
    write!(out, " {name}=[")?;
    for word in words {
        write!(out, "'{}',", word.as_str())?;
    }
    out.push_str("]")
}

fn show_words(out: &mut String, name: &str, words: &Option<Vec<Text>>) -> Result<(), AllocError> {
    match words {
        Some(words) => show_list(out, name, words.as_slice()),
        None => Ok(()),
    }
}

fn show_truth(out: &mut String, name: &str, truth: Option<bool>) -> Result<(), AllocError> {
    match truth {
        Some(truth) => write!(out, " {name}={truth}"),
        None => Ok(()),
    }
}

fn show_value(out: &mut String, name: &str, value: &Option<Yaml>) -> Result<(), AllocError> {
    match value {
        Some(value) => {
            write!(out, " {name}=")?;
            yaml_values::show(out, value)
        }
        None => Ok(()),
    }
}

fn show_record(out: &mut String, record: &BindingRec) -> Result<(), AllocError> {
    out.push_str("(")?;
    show_word(out, "description", &record.description)?;
    show_word(out, "compatible", &record.compatible)?;
    show_words(out, "bus", &record.buses)?;
    show_word(out, "on-bus", &record.on_bus)?;
    for (space, names) in record.cells.iter() {
        show_list(out, space.as_str(), names.as_slice())?;
    }
    for include in record.includes.iter() {
        show_include(out, include)?;
    }
    for (name, spec) in record.props.iter() {
        show_prop(out, name.as_str(), spec)?;
    }
    if let Some(child) = &record.child {
        out.push_str(" child=")?;
        show_record(out, child)?;
    }
    out.push_str(" )")
}

fn show_include(out: &mut String, include: &Include) -> Result<(), AllocError> {
    write!(out, " include='{}'", include.name.as_str())?;
    show_filter(out, &include.filter)
}

fn show_filter(out: &mut String, filter: &Filter) -> Result<(), AllocError> {
    out.push_str("<")?;
    show_words(out, "allow", &filter.allow)?;
    show_words(out, "block", &filter.block)?;
    if let Some(child) = &filter.child {
        out.push_str(" child=")?;
        show_filter(out, child)?;
    }
    out.push_str(" >")
}

fn show_prop(out: &mut String, name: &str, spec: &PropSpec) -> Result<(), AllocError> {
    write!(out, " {name}={{")?;
    if let Some(ty) = &spec.ty {
        write!(out, " type={ty:?}")?;
    }
    show_truth(out, "required", spec.required)?;
    show_truth(out, "deprecated", spec.deprecated)?;
    show_value(out, "default", &spec.default)?;
    show_value(out, "const", &spec.constant)?;
    if let Some(choices) = &spec.choices {
        out.push_str(" enum=[")?;
        for choice in choices.iter() {
            yaml_values::show(out, choice)?;
            out.push_str(",")?;
        }
        out.push_str("]")?;
    }
    show_word(out, "specifier-space", &spec.space)?;
    show_word(out, "description", &spec.description)?;
    out.push_str(" }")
}
