//! The values that a binding gives, as its `default` and its `const`.

ghost use Rattle.std.specs.Prelude.{◌≡◌, IfOk, map, option_map};
ghost use Rattle.edt_base.specs.ValData.{val_data};
ghost use Rattle.edt_base.specs.YamlData.{value_of};
ghost use Rattle.prop_types.specs.Given.{byte_in, byte_of_number, cell_in, cell_of_number, given};
ghost use Rattle.prop_types.specs.Given.{is_constant, list_in, same_val, text_in};

use edt_base::{Bytes, PropType, Text, Val, Yaml};
use std::alloc::{AllocError, Global};

/// The value that a binding gives to a property of this type; None for a value of another form, and
/// for a type that has none. The one error is want of memory, as in the functions below.
#[tactic(auto, unfolding(crate::specs::Given::given))]
pub(crate) fn given(alloc: Global, ty: PropType, value: &Yaml) -> Result<Option<Val>, AllocError>
    ensures { IfOk result (λ v. option_map val_data v ≡ given ty (value_of value.now)) }
{
    Ok(match ty {
        PropType::Int => cell_in(value).map(Val::Int),
        PropType::Array => cells_in(alloc, value)?.map(Val::Ints),
        PropType::U8Array => bytes_in(alloc, value)?.map(Val::U8s),
        PropType::Str => match text_in(value) {
            Some(text) => Some(Val::Str(text.copy(alloc)?)),
            None => None,
        },
        PropType::StrArray => texts_in(alloc, value)?.map(Val::Strs),
        _ => None,
    })
}

/// The cell of a number: the number modulo 2^32.
fn cell_of_number(n: i128) -> u32
    ensures { result ≡ cell_of_number n }
{
    n.rem_euclid(1 << 32) as u32
}

/// The cell that a value is.
pub(crate) fn cell_in(value: &Yaml) -> Option<u32>
    ensures { result ≡ cell_in (value_of value.now) }
{
    match value {
        Yaml::Int(n) => Some(cell_of_number(*n)),
        _ => None,
    }
}

/// The byte that a value is.
pub(crate) fn byte_in(value: &Yaml) -> Option<u8>
    ensures { result ≡ byte_in (value_of value.now) }
{
    match value {
        Yaml::Int(n) if 0 <= *n && *n < 256 => Some(*n as u8),
        _ => None,
    }
}

/// The text that a value is.
pub(crate) fn text_in(value: &Yaml) -> Option<&Text>
    ensures { option_map (λ t. t.now) result ≡ text_in (value_of value.now) }
{
    match value {
        Yaml::Str(text) => Some(text),
        _ => None,
    }
}

#[tactic(auto, using(crate::proofs::There::after_next, crate::proofs::There::after_nothing))]
fn cells_in(alloc: Global, value: &Yaml) -> Result<Option<Vec<u32>>, AllocError>
    ensures { IfOk result (λ v. option_map (λ c. c.items) v
        ≡ list_in cell_in (value_of value.now)) }
{
    let Yaml::List(items) = value else {
        return Ok(None);
    };
    let mut cells = Vec::with_capacity(alloc, items.len())?;
    for item in items.iter() {
        let Some(cell) = cell_in(item) else {
            return Ok(None);
        };
        cells.push(cell)?;
    }
    Ok(Some(cells))
}

#[tactic(auto, using(crate::proofs::There::after_next, crate::proofs::There::after_nothing))]
fn bytes_in(alloc: Global, value: &Yaml) -> Result<Option<Bytes>, AllocError>
    ensures { IfOk result (λ v. v ≡ list_in byte_in (value_of value.now)) }
{
    let Yaml::List(items) = value else {
        return Ok(None);
    };
    let mut bytes = Vec::with_capacity(alloc, items.len())?;
    for item in items.iter() {
        let Some(byte) = byte_in(item) else {
            return Ok(None);
        };
        bytes.push(byte)?;
    }
    Ok(Some(Bytes::new(bytes)))
}

#[tactic(auto, using(crate::proofs::There::after_next, crate::proofs::There::after_nothing))]
fn texts_in(alloc: Global, value: &Yaml) -> Result<Option<Vec<Text>>, AllocError>
    ensures { IfOk result (λ v. option_map (λ t. t.items) v
        ≡ list_in text_in (value_of value.now)) }
{
    let Yaml::List(items) = value else {
        return Ok(None);
    };
    let mut texts = Vec::with_capacity(alloc, items.len())?;
    for item in items.iter() {
        let Some(text) = text_in(item) else {
            return Ok(None);
        };
        texts.push(text.copy(alloc)?)?;
    }
    Ok(Some(texts))
}

/// Whether a value is the one that a binding wants of this type.
pub(crate) fn is_constant(
    alloc: Global,
    ty: PropType,
    wanted: &Yaml,
    value: &Val,
) -> Result<bool, AllocError>
    ensures { IfOk result (λ is. is ≡ is_constant ty (value_of wanted.now) (val_data value.now)) }
{
    Ok(match given(alloc, ty, wanted)? {
        Some(wanted) => same_val(value, &wanted),
        None => false,
    })
}

// Two values of one type that may be given are equal.
fn same_val(a: &Val, b: &Val) -> bool
    ensures { result ≡ same_val (val_data a.now) (val_data b.now) }
{
    match (a, b) {
        (Val::Int(a), Val::Int(b)) => a == b,
        (Val::Ints(a), Val::Ints(b)) => a == b,
        (Val::U8s(a), Val::U8s(b)) => a.as_slice() == b.as_slice(),
        (Val::Str(a), Val::Str(b)) => a == b,
        (Val::Strs(a), Val::Strs(b)) => a == b,
        _ => false,
    }
}
