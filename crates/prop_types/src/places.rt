//! Where the entries of `enum` stand that equal a number or a text: through an ordered table, or
//! for one value by going over them.

ghost use Rattle.std.specs.Prelude.{◌≡◌, ℕ, IfOk, List, OnOk, Some, false, map, nat_eq, option_map};
ghost use Rattle.std.specs.Prelude.{position, if◌then◌else◌};
ghost use Rattle.std.specs.Option.{option_map_or};
ghost use Rattle.std.specs.Str.{bytes_eq};
ghost use Rattle.edt_base.specs.YamlData.{value_of};
ghost use Rattle.prop_types.specs.Choices.{is_number, is_text};
ghost use Rattle.prop_types.specs.Given.{cell_in};
ghost use Rattle.prop_types.specs.Inner.Places.{AreNumberPlaces, AreTextPlaces, number_at};
ghost use Rattle.prop_types.specs.Inner.Places.{number_in, text_at};

use crate::given::{byte_in, cell_in, text_in};
use edt_base::{Text, Yaml};
use std::alloc::{AllocError, Global};
use std::collections::BTreeMap;

/// How entries are read as numbers.
#[derive(Clone, Copy)]
pub(crate) enum Numbers {
    /// Modulo 2^32.
    Cells,
    /// From 0 to 255.
    Bytes,
}

fn number_in(numbers: Numbers, entry: &Yaml) -> Option<u32>
    ensures { result ≡ number_in numbers (value_of entry.now) }
{
    match numbers {
        Numbers::Cells => cell_in(entry),
        Numbers::Bytes => byte_in(entry).map(u32::from),
    }
}

/// For each number the place of the first entry that it is. The one error is want of memory, as in
/// the functions below.
#[tactic(auto, using(crate::proofs::PlaceLaws::or_none))]
pub(crate) fn number_places(
    alloc: Global,
    entries: &[Yaml],
    numbers: Numbers,
) -> Result<BTreeMap<u32, usize>, AllocError>
    ensures { IfOk result (λ m. AreNumberPlaces numbers (map value_of entries.now) m) }
{
    let mut places = BTreeMap::new(alloc);
    let mut left = entries;
    while let Some((entry, rest)) = left.split_last() {
        put_number(&mut places, number_in(numbers, entry), rest.len())?;
        left = rest;
    }
    Ok(places)
}

/// For each text the place of the first entry that it is.
#[tactic(auto, using(crate::proofs::PlaceLaws::or_none))]
pub(crate) fn text_places<'a>(
    alloc: Global,
    entries: &'a [Yaml],
) -> Result<BTreeMap<&'a str, usize>, AllocError>
    ensures { IfOk result (λ m. AreTextPlaces (map value_of entries.now) m) }
{
    let mut places = BTreeMap::new(alloc);
    let mut left = entries;
    while let Some((entry, rest)) = left.split_last() {
        put_text(&mut places, text_in(entry), rest.len())?;
        left = rest;
    }
    Ok(places)
}

// Takes a place in, where there is a number.
fn put_number(
    places: &mut BTreeMap<u32, usize>,
    number: Option<u32>,
    at: usize,
) -> Result<(), AllocError>
    ensures { OnOk result ((n : ℕ) → number_at places.new n
        ≡ (if option_map_or (nat_eq n) number false then Some at else number_at places.old n)) }
{
    match number {
        Some(number) => {
            places.insert(number, at)?;
            Ok(())
        }
        None => Ok(()),
    }
}

// Takes a place in, where there is a text.
fn put_text<'a>(
    places: &mut BTreeMap<&'a str, usize>,
    text: Option<&'a Text>,
    at: usize,
) -> Result<(), AllocError>
    ensures { OnOk result ((t : List ℕ) → text_at places.new t
        ≡ (if option_map_or (λ e. bytes_eq e t) (option_map (λ e. e.now) text.entry) false
        then Some at else text_at places.old t)) }
{
    match text {
        Some(text) => {
            places.insert(text.as_str(), at)?;
            Ok(())
        }
        None => Ok(()),
    }
}

/// The place that a table has for a number.
pub(crate) fn number_at(places: &BTreeMap<u32, usize>, number: u32) -> Option<usize>
    ensures { result ≡ number_at places.now number }
{
    places.get(&number).copied()
}

/// The place that a table has for a text.
pub(crate) fn text_at(places: &BTreeMap<&str, usize>, text: &str) -> Option<usize>
    ensures { result ≡ text_at places.now text.now }
{
    places.get(text).copied()
}

/// The place of the first entry that is this cell.
pub(crate) fn first_cell(entries: &[Yaml], cell: u32) -> Option<usize>
    ensures { result ≡ position (λ e. is_number cell_in cell (value_of e)) entries.now }
{
    entries.iter().position(|entry| is_cell(cell, entry))
}

fn is_cell(cell: u32, entry: &Yaml) -> bool
    ensures { result ≡ is_number cell_in cell (value_of entry.now) }
{
    match cell_in(entry) {
        Some(number) => cell == number,
        None => false,
    }
}

/// The place of the first entry that is this text.
pub(crate) fn first_text(entries: &[Yaml], text: &Text) -> Option<usize>
    ensures { result ≡ position (λ e. is_text text.now (value_of e)) entries.now }
{
    entries.iter().position(|entry| is_text(text, entry))
}

fn is_text(text: &Text, entry: &Yaml) -> bool
    ensures { result ≡ is_text text.now (value_of entry.now) }
{
    match text_in(entry) {
        Some(other) => other.as_str() == text.as_str(),
        None => false,
    }
}
