//! Which entries of `enum` a property's values are.

ghost use Rattle.std.specs.Prelude.{◌≡◌, ◌∷◌, [], IfOk, decimal, map, option_map};
ghost use Rattle.edt_base.specs.Forms.{form_of};
ghost use Rattle.edt_base.specs.ValData.{val_data};
ghost use Rattle.edt_base.specs.YamlData.{value_of};
ghost use Rattle.prop_types.specs.AllThere.{all_there};
ghost use Rattle.prop_types.specs.Choices.{choices_of, number_choice, text_choice};
ghost use Rattle.prop_types.specs.Given.{byte_in, cell_in};

use crate::forms::form;
use crate::places::{
    Numbers, first_cell, first_text, number_at, number_places, text_at, text_places,
};
use edt_base::{Text, Val, Yaml};
use itoa::Buffer;
use std::alloc::{AllocError, Global};

/// A tested value's place in `enum` and its form.
type Choice = (u32, Text);

/// The choices of a property's tested values, in order.
pub(crate) type Choices = Vec<Choice>;

/// The choices of the values that `enum` is tested on: one number or text, or each element; None
/// where one is no entry. The one error is want of memory, as in the functions below.
#[tactic(auto, unfolding(crate::specs::Choices::choices_of))]
pub(crate) fn choices_of(
    alloc: Global,
    entries: &[Yaml],
    value: &Val,
) -> Result<Option<Choices>, AllocError>
    ensures { IfOk result (λ v. option_map (λ c. c.items) v
        ≡ choices_of (map value_of entries.now) (val_data value.now)) }
{
    match value {
        Val::Int(number) => cell_choice(alloc, entries, *number),
        Val::Ints(numbers) => cell_choices(alloc, entries, numbers.as_slice()),
        Val::U8s(bytes) => byte_choices(alloc, entries, bytes.as_slice()),
        Val::Str(text) => one_text_choice(alloc, entries, text),
        Val::Strs(texts) => text_choices(alloc, entries, texts.as_slice()),
        _ => Ok(Some(Vec::new(alloc))),
    }
}

// A place as a choice has it. A list of 2^32 entries is more than there is memory for.
fn narrow(at: usize) -> Result<u32, AllocError>
    ensures { IfOk result (λ n. n ≡ at) }
{
    match u32::try_from(at) {
        Ok(at) => Ok(at),
        Err(_) => Err(AllocError),
    }
}

// The choice of a number that is the entry at a place.
fn number_choice(
    alloc: Global,
    at: Option<usize>,
    number: u32,
) -> Result<Option<Choice>, AllocError>
    ensures { IfOk result (λ c. c ≡ option_map (λ k. (k, decimal number)) at) }
{
    let Some(at) = at else {
        return Ok(None);
    };
    let mut digits = Buffer::new();
    let digits = String::from_str(alloc, digits.format(number))?;
    Ok(Some((narrow(at)?, Text::new(digits))))
}

// The choice of a text that is the entry at a place.
fn text_choice(alloc: Global, at: Option<usize>, text: &Text) -> Result<Option<Choice>, AllocError>
    ensures { IfOk result (λ c. c ≡ option_map (λ k. (k, form_of text.now)) at) }
{
    let Some(at) = at else {
        return Ok(None);
    };
    Ok(Some((narrow(at)?, form(alloc, text)?)))
}

// One choice, where it is there.
fn one(alloc: Global, choice: Option<Choice>) -> Result<Option<Choices>, AllocError>
    ensures { IfOk result (λ v. option_map (λ c. c.items) v ≡ all_there (choice ∷ [])) }
{
    match choice {
        Some(choice) => Ok(Some(vec![in alloc; choice]?)),
        None => Ok(None),
    }
}

// The choice of one cell.
fn cell_choice(alloc: Global, entries: &[Yaml], cell: u32) -> Result<Option<Choices>, AllocError>
    ensures { IfOk result (λ v. option_map (λ c. c.items) v
        ≡ all_there (number_choice cell_in (map value_of entries.now) cell ∷ [])) }
{
    one(
        alloc,
        number_choice(alloc, first_cell(entries, cell), cell)?,
    )
}

// The choice of one text.
fn one_text_choice(
    alloc: Global,
    entries: &[Yaml],
    text: &Text,
) -> Result<Option<Choices>, AllocError>
    ensures { IfOk result (λ v. option_map (λ c. c.items) v
        ≡ all_there (text_choice (map value_of entries.now) text.now ∷ [])) }
{
    one(alloc, text_choice(alloc, first_text(entries, text), text)?)
}

// The choices of cells.
#[tactic(auto, using(crate::proofs::There::after_next, crate::proofs::There::after_nothing))]
fn cell_choices(
    alloc: Global,
    entries: &[Yaml],
    cells: &[u32],
) -> Result<Option<Choices>, AllocError>
    ensures { IfOk result (λ v. option_map (λ c. c.items) v
        ≡ all_there (map (number_choice cell_in (map value_of entries.now)) cells.now)) }
{
    let places = number_places(alloc, entries, Numbers::Cells)?;
    let mut choices = Vec::with_capacity(alloc, cells.len())?;
    for cell in cells {
        match number_choice(alloc, number_at(&places, *cell), *cell)? {
            Some(choice) => choices.push(choice)?,
            None => return Ok(None),
        }
    }
    Ok(Some(choices))
}

// The choices of bytes.
#[tactic(auto, using(crate::proofs::There::after_next, crate::proofs::There::after_nothing))]
fn byte_choices(
    alloc: Global,
    entries: &[Yaml],
    bytes: &[u8],
) -> Result<Option<Choices>, AllocError>
    ensures { IfOk result (λ v. option_map (λ c. c.items) v
        ≡ all_there (map (number_choice byte_in (map value_of entries.now)) bytes.now)) }
{
    let places = number_places(alloc, entries, Numbers::Bytes)?;
    let mut choices = Vec::with_capacity(alloc, bytes.len())?;
    for byte in bytes {
        let number = u32::from(*byte);
        match number_choice(alloc, number_at(&places, number), number)? {
            Some(choice) => choices.push(choice)?,
            None => return Ok(None),
        }
    }
    Ok(Some(choices))
}

// The choices of texts.
#[tactic(auto, using(crate::proofs::There::after_next, crate::proofs::There::after_nothing))]
fn text_choices(
    alloc: Global,
    entries: &[Yaml],
    texts: &[Text],
) -> Result<Option<Choices>, AllocError>
    ensures { IfOk result (λ v. option_map (λ c. c.items) v
        ≡ all_there (map (text_choice (map value_of entries.now)) texts.now)) }
{
    let places = text_places(alloc, entries)?;
    let mut choices = Vec::with_capacity(alloc, texts.len())?;
    for text in texts {
        match text_choice(alloc, text_at(&places, text.as_str()), text)? {
            Some(choice) => choices.push(choice)?,
            None => return Ok(None),
        }
    }
    Ok(Some(choices))
}
