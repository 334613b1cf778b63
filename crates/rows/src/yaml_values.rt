//! Rows of `yaml_profile`: `yaml` is a file.
//!
//! The answer is its value, maps in braces, lists in brackets and strings in quotes, or the rule
//! that it breaks and the byte where.

use crate::table::Row;
use edt_base::{End, Place, Text, Yaml};
use std::alloc::{AllocError, Global};
use yaml_profile::read;

pub fn answer(alloc: Global, row: &Row) -> Result<Option<String>, AllocError> {
    let Some(source) = row.bytes("yaml") else {
        return Ok(None);
    };
    let file = Text::new(String::from_str(alloc, "x")?);
    let mut out = String::new(alloc);
    match read(alloc, &file, source) {
        Ok(value) => show(&mut out, &value)?,
        Err(End::Fault(fault)) => match &fault.place {
            Place::Byte(_, at) => write!(out, "{} {at}", fault.rule)?,
            _ => write!(out, "{fault}")?,
        },
        Err(End::Memory(e)) => return Err(e),
    }
    Ok(Some(out))
}

/// Adds a value.
pub fn show(out: &mut String, value: &Yaml) -> Result<(), AllocError> {
    match value {
        Yaml::Map(pairs) => {
            out.push_str("{")?;
            for pair in pairs {
                out.push_str(pair.0.as_str())?;
                out.push_str(":")?;
                show(out, &pair.1)?;
                out.push_str(";")?;
            }
            out.push_str("}")
        }
        Yaml::List(items) => {
            out.push_str("[")?;
            for item in items {
                show(out, item)?;
                out.push_str(",")?;
            }
            out.push_str("]")
        }
        Yaml::Str(text) => {
            out.push_str("'")?;
            out.push_str(text.as_str())?;
            out.push_str("'")
        }
        Yaml::Int(number) => write!(out, "{number}"),
        Yaml::Bool(truth) => out.push_str(if *truth { "true" } else { "false" }),
        Yaml::Null => out.push_str("null"),
        Yaml::Other => out.push_str("other"),
    }
}
