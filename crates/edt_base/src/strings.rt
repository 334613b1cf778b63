//! The strings of values, and the names that they give to entries.

ghost use Rattle.std.specs.Prelude.{◌≡◌, ◌≤◌, IfOk, Some, length, option_map};
ghost use Rattle.std.specs.List.{list_all, prefix_len};
ghost use Rattle.edt_base.specs.Values.{are_strings, entry_name, is_no_zero, is_string, is_text, name_parts, names_fit, string_of, utf8_text, value_string, value_strings, zero_ended};

use crate::{Kind, Part, PropVal, Text};
use std::alloc::{AllocError, Global};

impl Part {
    /// The string that the part is: written as text, in UTF-8, with one zero, at its end, which is
    /// left out (Devicetree Specification v0.4, 2.2.4). None where it is no such string. Takes no
    /// memory.
    pub fn string(&self) -> Option<&str>
        ensures { option_map (λ s. s.now) result ≡ string_of self.now }
    {
        if is_text(self.kind) {
            self.text()
        } else {
            None
        }
    }

    /// The text of a part of any kind whose bytes are UTF-8 with one zero, at their end; that of a
    /// path is the path. Takes no memory.
    pub fn text(&self) -> Option<&str>
        ensures { option_map (λ s. s.now) result ≡ zero_ended self.now.bytes }
    {
        zero_ended(self.bytes.as_slice())
    }
}

impl PropVal {
    /// The string that the value is: one part that is a string. Takes no memory.
    pub fn string(&self) -> Option<&str>
        ensures { option_map (λ s. s.now) result ≡ value_string self.now }
    {
        match self.parts.as_slice() {
            [part] => part.string(),
            _ => None,
        }
    }

    /// Whether the value is a list of strings: one or more parts, each a string. Takes no memory.
    pub fn are_strings(&self) -> bool
        ensures { result ≡ are_strings self.now }
    {
        let parts = self.parts.as_slice();
        !parts.is_empty() && all_strings(parts)
    }

    /// Copies of the parts that are strings; of a list of strings all. The one error is want of
    /// memory.
    pub fn strings(&self, alloc: Global) -> Result<Vec<Text>, AllocError>
        ensures { IfOk result (λ v. v.items ≡ value_strings self.now) }
    {
        strings_of(alloc, self.parts.as_slice())
    }
}

/// Whether a value that names entries, as `reg-names` does, names so many: there is none, or it is
/// one or more strings, as many as the entries. Takes no memory.
pub fn names_fit(count: usize, names: Option<&PropVal>) -> bool
    ensures { result ≡ names_fit count (option_map (λ n. n.now) names.entry) }
{
    match names {
        None => true,
        Some(names) => are_names(count, names.parts.as_slice()),
    }
}

/// A copy of the name that a value gives to the entry at a place; None where it gives none. The one
/// error is want of memory.
pub fn entry_name(
    alloc: Global,
    names: Option<&PropVal>,
    at: usize,
) -> Result<Option<Text>, AllocError>
    ensures { IfOk result
        (λ name. name ≡ entry_name (name_parts (option_map (λ n. n.now) names.entry)) at) }
{
    match name_parts(names).get(at) {
        Some(part) => text_of(alloc, part),
        None => Ok(None),
    }
}

fn strings_of(alloc: Global, parts: &[Part]) -> Result<Vec<Text>, AllocError>
    ensures { IfOk result (λ v. v.items ≡ value_strings parts.now) }
{
    let mut texts = Vec::with_capacity(alloc, parts.len())?;
    for part in parts {
        if let Some(text) = text_of(alloc, part)? {
            texts.push(text)?;
        }
    }
    Ok(texts)
}

fn are_names(count: usize, parts: &[Part]) -> bool
    ensures { result ≡ names_fit count (Some parts.now) }
{
    !parts.is_empty() && parts.len() == count && all_strings(parts)
}

fn all_strings(parts: &[Part]) -> bool
    ensures { result ≡ list_all is_string parts.now }
{
    parts.iter().all(|part| is_string(part))
}

fn is_string(part: &Part) -> bool
    ensures { result ≡ is_string part.now }
{
    part.string().is_some()
}

fn name_parts<'a>(names: Option<&'a PropVal>) -> &'a [Part]
    ensures { result.now ≡ name_parts (option_map (λ n. n.now) names.entry) }
{
    match names {
        Some(names) => names.parts.as_slice(),
        None => &[],
    }
}

// The string of a part, as a text.
fn text_of(alloc: Global, part: &Part) -> Result<Option<Text>, AllocError>
    ensures { IfOk result (λ text. text ≡ string_of part.now) }
{
    match part.string() {
        Some(string) => Ok(Some(Text::new(String::from_str(alloc, string)?))),
        None => Ok(None),
    }
}

fn is_text(kind: Kind) -> bool
    ensures { result ≡ is_text kind }
{
    matches!(kind, Kind::Str)
}

// The text before the first zero, where that is the last byte.
fn zero_ended(bytes: &[u8]) -> Option<&str>
    ensures { option_map (λ s. s.now) result ≡ zero_ended bytes.now }
{
    let before = before_zero(bytes);
    if before + 1 == bytes.len() {
        let (text, _) = bytes.split_at(before);
        utf8_text(text)
    } else {
        None
    }
}

fn before_zero(bytes: &[u8]) -> usize
    ensures value { result ≡ prefix_len is_no_zero bytes.now }
    ensures bound { result ≤ length bytes.now }
{
    bytes.iter().take_while(|byte| **byte != 0).count()
}

fn utf8_text(bytes: &[u8]) -> Option<&str>
    ensures { option_map (λ s. s.now) result ≡ utf8_text bytes.now }
{
    match str::from_utf8(bytes) {
        Ok(text) => Some(text),
        Err(_) => None,
    }
}
