//! What texts, characters and pairs of digits stand for (Devicetree Specification v0.4, 6.2).

ghost use Rattle.std.specs.Prelude.{◌≡◌, ◌≤◌, ◌<◌, ◌-◌, ◌+◌, ◌*◌, ◌%◌, ◌++◌, ◌∷◌, [], IfOk, OnOk, length, take, drop};
ghost use Rattle.std.specs.List.{prefix_len};
ghost use Rattle.edt_base.specs.SourceBytes.{is_hex, is_octal};
ghost use Rattle.dts_lex.specs.Tokens.{escape};
ghost use Rattle.dts_parse.specs.Texts.{char_worth, digit, escaped, hexes, hexes_two, letter, octal, octal_two, pair_worth, text_bytes, two_digits, unescaped, within};

use crate::bytes::{digit, is_hex, is_octal};
use std::alloc::{AllocError, Global};

fn two_digits(base: u8, high: u8, low: u8) -> u8
    ensures { result ≡ two_digits base high low }
{
    ((u32::from(high) * u32::from(base) + u32::from(low)) % 256) as u8
}

/// The byte of two hexadecimal digits.
pub(crate) fn pair_worth(text: &[u8]) -> u8
    ensures { result ≡ pair_worth text.now }
{
    match text {
        [high, low, ..] => two_digits(16, digit(*high), digit(*low)),
        _ => 0,
    }
}

/// The byte of a character in quotes.
pub(crate) fn char_worth(text: &[u8]) -> u8
    ensures { result ≡ char_worth text.now }
{
    match text {
        [_, first, rest @ ..] => {
            if *first == b'\\' {
                escaped(rest)
            } else {
                *first
            }
        }
        _ => 0,
    }
}

/// The byte of the escape whose backslash stands before.
fn escaped(rest: &[u8]) -> u8
    ensures { result ≡ escaped rest.now }
{
    match rest {
        [] => b'\\',
        [first, behind @ ..] => {
            if is_octal(*first) {
                octal(*first, behind)
            } else if *first == b'x' {
                hexes(behind)
            } else {
                letter(*first)
            }
        }
    }
}

/// Up to three octal digits, up to 377.
fn octal(first: u8, rest: &[u8]) -> u8
    ensures { result ≡ octal first rest.now }
{
    match rest {
        [second, behind @ ..] if is_octal(*second) => octal_two(first, *second, behind),
        _ => first.saturating_sub(b'0'),
    }
}

fn octal_two(first: u8, second: u8, rest: &[u8]) -> u8
    ensures { result ≡ octal_two first second rest.now }
{
    let two = two_digits(8, first.saturating_sub(b'0'), second.saturating_sub(b'0'));
    match rest {
        [third, ..] if first <= b'3' && is_octal(*third) => two_digits(
            8,
            two,
            third.saturating_sub(b'0'),
        ),
        _ => two,
    }
}

/// Up to two hexadecimal digits; without one the `x` before stands for itself.
fn hexes(rest: &[u8]) -> u8
    ensures { result ≡ hexes rest.now }
{
    match rest {
        [first, behind @ ..] if is_hex(*first) => hexes_two(*first, behind),
        _ => b'x',
    }
}

fn hexes_two(first: u8, rest: &[u8]) -> u8
    ensures { result ≡ hexes_two first rest.now }
{
    match rest {
        [second, ..] if is_hex(*second) => two_digits(16, digit(first), digit(*second)),
        _ => digit(first),
    }
}

fn letter(byte: u8) -> u8
    ensures { result ≡ letter byte }
{
    match byte {
        b'a' => 7,
        b'b' => 8,
        b't' => 9,
        b'n' => 10,
        b'v' => 11,
        b'f' => 12,
        b'r' => 13,
        _ => byte,
    }
}

/// How many bytes an escape has after its backslash.
fn escape_size(rest: &[u8]) -> usize
    ensures size { result ≡ escape rest.now }
    ensures within { result ≤ length rest.now }
{
    let Some((first, behind)) = rest.split_first() else {
        return 0;
    };
    if is_octal(*first) {
        1 + octal_length(if *first <= b'3' { 2 } else { 1 }, behind)
    } else if *first == b'x' {
        1 + hex_length(behind)
    } else {
        1
    }
}

/// How many octal digits stand at the front, counted up to `most`.
fn octal_length(most: usize, bytes: &[u8]) -> usize
    ensures length { result ≡ prefix_len is_octal (take most bytes.now) }
    ensures within { result ≤ length bytes.now }
{
    bytes
        .iter()
        .take(most)
        .take_while(|byte| is_octal(**byte))
        .count()
}

/// How many hexadecimal digits stand at the front, counted up to 2.
fn hex_length(bytes: &[u8]) -> usize
    ensures length { result ≡ prefix_len is_hex (take 2 bytes.now) }
    ensures within { result ≤ length bytes.now }
{
    bytes
        .iter()
        .take(2)
        .take_while(|byte| is_hex(**byte))
        .count()
}

/// What stands between quotes or braces: without the first so many bytes and without the last.
pub(crate) fn within(count: usize, text: &[u8]) -> &[u8]
    ensures { result.now ≡ within count text.now }
{
    if count >= text.len() {
        return &text[text.len()..];
    }
    let (_, rest) = text.split_at(count);
    let (inner, _) = rest.split_at(rest.len().saturating_sub(1));
    inner
}

/// The byte that a text begins with, and what is left of it.
fn next_byte(first: u8, behind: &[u8]) -> (u8, &[u8])
    ensures next { unescaped 0 (first ∷ behind.now) ≡ result.0 ∷ unescaped 0 result.1.now }
    ensures shorter { length result.1.now ≤ length behind.now }
{
    if first == b'\\' {
        let (_, rest) = behind.split_at(escape_size(behind));
        (escaped(behind), rest)
    } else {
        (first, behind)
    }
}

/// The bytes of a text in quotes, and a zero.
pub(crate) fn text_bytes(alloc: Global, text: &[u8]) -> Result<Vec<u8>, AllocError>
    ensures { IfOk result (λ v. v.items ≡ text_bytes text.now) }
{
    let mut out = Vec::new(alloc);
    let mut rest = within(1, text);
    while let Some((first, behind)) = rest.split_first() {
        let (byte, left) = next_byte(*first, behind);
        out.push(byte)?;
        rest = left;
    }
    out.push(0)?;
    Ok(out)
}
