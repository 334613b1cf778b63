//! A part of a value.

ghost use Rattle.std.specs.Prelude.{◌≡◌, ◌++◌, ◌∷◌, [], MatchOption, codes, is_ok, take};
ghost use Rattle.std.specs.List.{flat_map};
ghost use Rattle.edt_base.specs.Put.{Put};
ghost use Rattle.dts_print.specs.Printed.{bytes_text, joined, list_text, number_text, pair_text, pairs_text, part_text};
ghost use Rattle.dts_print.specs.Inner.Numbers.{numbers_of};

use crate::text::{before_last, put_number, put_pair, put_quoted};
use edt_base::{Block, Kind, Part, Sink, WriteFailed, put, put_byte};

/// Puts a part.
pub(crate) fn put_part<S: Sink>(
    out: &mut S,
    block: &mut Block,
    part: &Part,
) -> Result<(), WriteFailed>
    ensures { Put (S.seen out.old) (S.seen out.new) block.old block.new (part_text part.now)
        (is_ok result) }
{
    let bytes = part.bytes.as_slice();
    match part.kind {
        Kind::Str => put_quoted(out, block, before_last(bytes)),
        Kind::Cells => put_list(out, block, Width::Cell, bytes),
        Kind::Hex => put_pairs(out, block, bytes),
        Kind::Wide => put_wide(out, block, bytes),
        Kind::Path => put_path(out, block, before_last(bytes)),
    }
}

// Puts the bytes of elements that are written as numbers of 16 bits.
fn put_wide<S: Sink>(out: &mut S, block: &mut Block, bytes: &[u8]) -> Result<(), WriteFailed>
    ensures { Put (S.seen out.old) (S.seen out.new) block.old block.new
        (codes "/bits/ 16 " ++ list_text (numbers_of Width.Half bytes.now)) (is_ok result) }
{
    put(out, block, b"/bits/ 16 ")?;
    put_list(out, block, Width::Half, bytes)
}

// Puts a path as a reference.
fn put_path<S: Sink>(out: &mut S, block: &mut Block, path: &[u8]) -> Result<(), WriteFailed>
    ensures { Put (S.seen out.old) (S.seen out.new) block.old block.new
        (codes "&{" ++ (path.now ++ codes "}")) (is_ok result) }
{
    put(out, block, b"&{")?;
    put(out, block, path)?;
    put(out, block, b"}")
}

// Puts bytes in square brackets.
fn put_pairs<S: Sink>(out: &mut S, block: &mut Block, bytes: &[u8]) -> Result<(), WriteFailed>
    ensures { Put (S.seen out.old) (S.seen out.new) block.old block.new (pairs_text bytes.now)
        (is_ok result) }
{
    put(out, block, b"[")?;
    put_spaced_pairs(out, block, bytes)?;
    put(out, block, b"]")
}

// Puts bytes with spaces between them.
fn put_spaced_pairs<S: Sink>(
    out: &mut S,
    block: &mut Block,
    bytes: &[u8],
) -> Result<(), WriteFailed>
    ensures { Put (S.seen out.old) (S.seen out.new) block.old block.new
        (joined (codes " ") pair_text bytes.now) (is_ok result) }
{
    let Some((first, rest)) = bytes.split_first() else {
        return Ok(());
    };
    put_pair(out, block, *first)?;
    put_further_pairs(out, block, rest)
}

// Puts bytes with a space before each.
fn put_further_pairs<S: Sink>(
    out: &mut S,
    block: &mut Block,
    bytes: &[u8],
) -> Result<(), WriteFailed>
    ensures { Put (S.seen out.old) (S.seen out.new) block.old block.new
        (flat_map (λ b. codes " " ++ pair_text b) bytes.now) (is_ok result) }
{
    for byte in bytes {
        put_further_pair(out, block, *byte)?;
    }
    Ok(())
}

// Puts a byte with a space before it.
fn put_further_pair<S: Sink>(out: &mut S, block: &mut Block, byte: u8) -> Result<(), WriteFailed>
    ensures { Put (S.seen out.old) (S.seen out.new) block.old block.new
        (codes " " ++ pair_text byte) (is_ok result) }
{
    put(out, block, b" ")?;
    put_pair(out, block, byte)
}

/// How many bytes each number of a list has.
#[derive(Clone, Copy)]
pub(crate) enum Width {
    /// Four.
    Cell,
    /// Two.
    Half,
}

/// The first number of a list, and the bytes after it.
pub(crate) fn first_number(width: Width, bytes: &[u8]) -> Option<(u32, &[u8])>
    ensures { MatchOption result (numbers_of width bytes.now ≡ [])
        (λ r. numbers_of width bytes.now ≡ r.0 ∷ numbers_of width r.1.now) }
{
    match width {
        Width::Cell => first_cell(bytes),
        Width::Half => first_half(bytes),
    }
}

fn first_cell(bytes: &[u8]) -> Option<(u32, &[u8])>
    ensures { MatchOption result (numbers_of Width.Cell bytes.now ≡ [])
        (λ r. numbers_of Width.Cell bytes.now ≡ r.0 ∷ numbers_of Width.Cell r.1.now) }
{
    match bytes {
        [a, b, c, d, rest @ ..] => Some((u32::from_be_bytes([*a, *b, *c, *d]), rest)),
        _ => None,
    }
}

fn first_half(bytes: &[u8]) -> Option<(u32, &[u8])>
    ensures { MatchOption result (numbers_of Width.Half bytes.now ≡ [])
        (λ r. numbers_of Width.Half bytes.now ≡ r.0 ∷ numbers_of Width.Half r.1.now) }
{
    match bytes {
        [a, b, rest @ ..] => Some((u16::from_be_bytes([*a, *b]) as u32, rest)),
        _ => None,
    }
}

// Puts the numbers of so many bytes each in angle brackets.
fn put_list<S: Sink>(
    out: &mut S,
    block: &mut Block,
    width: Width,
    bytes: &[u8],
) -> Result<(), WriteFailed>
    ensures { Put (S.seen out.old) (S.seen out.new) block.old block.new
        (list_text (numbers_of width bytes.now)) (is_ok result) }
{
    put(out, block, b"<")?;
    put_numbers(out, block, width, bytes)?;
    put(out, block, b">")
}

// Puts numbers with spaces between them.
fn put_numbers<S: Sink>(
    out: &mut S,
    block: &mut Block,
    width: Width,
    bytes: &[u8],
) -> Result<(), WriteFailed>
    ensures { Put (S.seen out.old) (S.seen out.new) block.old block.new
        (joined (codes " ") number_text (numbers_of width bytes.now)) (is_ok result) }
{
    let Some((first, rest)) = first_number(width, bytes) else {
        return Ok(());
    };
    put_number(out, block, first)?;
    put_further_numbers(out, block, width, rest)
}

// Puts numbers with a space before each.
fn put_further_numbers<S: Sink>(
    out: &mut S,
    block: &mut Block,
    width: Width,
    bytes: &[u8],
) -> Result<(), WriteFailed>
    ensures { Put (S.seen out.old) (S.seen out.new) block.old block.new
        (flat_map (λ n. codes " " ++ number_text n) (numbers_of width bytes.now)) (is_ok result) }
{
    let mut left = bytes;
    while let Some((number, rest)) = first_number(width, left) {
        put_further_number(out, block, number)?;
        left = rest;
    }
    Ok(())
}

// Puts a number with a space before it.
fn put_further_number<S: Sink>(out: &mut S, block: &mut Block, n: u32) -> Result<(), WriteFailed>
    ensures { Put (S.seen out.old) (S.seen out.new) block.old block.new
        (codes " " ++ number_text n) (is_ok result) }
{
    put(out, block, b" ")?;
    put_number(out, block, n)
}
