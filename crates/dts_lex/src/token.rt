//! Which token stands at the start of what is left.

ghost use Rattle.std.specs.Prelude.{◌≡◌, ◌≤◌, ◌<◌, ◌+◌, length, option_map, drop, take, true};
ghost use Rattle.std.specs.Prelude.{false, IfSome, IsTrue};
ghost use Rattle.std.specs.List.{prefix_len};
ghost use Rattle.edt_base.specs.SourceBytes.{is_hex, is_octal};
ghost use Rattle.dts_lex.specs.Inner.Counts.{IsKnown};
ghost use Rattle.dts_lex.specs.Tokens.{at_colon, at_pair, at_quote, at_word, behind, char};
ghost use Rattle.dts_lex.specs.Tokens.{char_size, escape, escapes, found, in_rounds, is_narrow};
ghost use Rattle.dts_lex.specs.Tokens.{is_no_brace, is_word_byte, mark, pair, path_reference};
ghost use Rattle.dts_lex.specs.Tokens.{quoted, reference, sized, stands, text, word};

use crate::lexer::SpanKind;
use crate::names::is_path;
use crate::opened::Opened;
use crate::punctuators::{directive_length, punctuator_length};
use crate::words::{begins_label, is_hex, is_octal, is_word_byte, plain_length, word_length};

/// What stands somewhere.
#[derive(Clone, Copy)]
pub(crate) struct Found {
    /// The kind of the token.
    pub(crate) kind: SpanKind,
    /// How many bytes it has.
    pub(crate) size: usize,
}

/// What stands at the start, where no gap stands; `None` where no token does.
pub(crate) fn token_at(opened: Opened, bytes: &[u8], known: usize) -> Option<Found>
    requires { IsKnown opened bytes.now known }
    ensures found { result ≡ stands opened bytes.now }
    ensures size { IfSome result (λ f. (0 < f.size) × (f.size ≤ length bytes.now)) }
{
    let (first, rest) = bytes.split_first()?;
    if is_word_byte(opened.is_narrow(), *first) {
        word(opened, bytes, known)
    } else if *first == b'"' {
        text(rest)
    } else if *first == b'\'' {
        char(rest)
    } else if *first == b'&' && !opened.in_rounds() {
        reference(rest)
    } else {
        mark(opened, bytes)
    }
}

/// The token of the word at the start.
fn word(opened: Opened, bytes: &[u8], known: usize) -> Option<Found>
    requires word { at_word (is_narrow opened) bytes.now ≡ true }
    requires known { IsKnown opened bytes.now known }
    ensures found { result ≡ word opened (prefix_len (is_word_byte (is_narrow opened)) bytes.now)
        bytes.now }
    ensures size { IfSome result (λ f. (0 < f.size) × (f.size ≤ length bytes.now)) }
{
    let size = known_length(opened, bytes, known);
    let (_, rest) = bytes.split_at(size);
    if !opened.in_rounds() && at_colon(rest) {
        of_size(SpanKind::Name, size)
    } else if !opened.in_rounds() && opened.squares > 0 {
        pair(bytes)
    } else if opened.angles > 0 || opened.numbers > 0 {
        of_size(SpanKind::Number, size)
    } else {
        of_size(SpanKind::Name, size)
    }
}

/// How many bytes the word at the start has, looked at anew only where that isn't known.
fn known_length(opened: Opened, bytes: &[u8], known: usize) -> usize
    requires { IsKnown opened bytes.now known }
    ensures length { result ≡ prefix_len (is_word_byte (is_narrow opened)) bytes.now }
    ensures within { result ≤ length bytes.now }
{
    if known > 0 {
        known
    } else {
        word_length(opened.is_narrow(), bytes)
    }
}

/// What is known of the word at the start, where it is a row of pairs of digits: its length.
pub(crate) fn row_length(opened: Opened, bytes: &[u8], known: usize) -> usize
    requires { IsKnown opened bytes.now known }
    ensures { IsKnown opened bytes.now result }
{
    if opened.squares > 0 && !opened.in_rounds() {
        known_length(opened, bytes, known)
    } else {
        0
    }
}

/// What is known after a token of the word that it stands in.
pub(crate) fn known_behind(opened: Opened, found: Found, bytes: &[u8], known: usize) -> usize
    requires { IsKnown opened bytes.now known }
    ensures { IsKnown (behind opened found.kind (take found.size bytes.now))
        (drop found.size bytes.now) result }
{
    match found.kind {
        SpanKind::HexPair if found.size == 2 => known_behind_pair(opened, bytes, known),
        _ => 0,
    }
}

fn known_behind_pair(opened: Opened, bytes: &[u8], known: usize) -> usize
    requires { IsKnown opened bytes.now known }
    ensures { IsKnown opened (drop 2 bytes.now) result }
{
    let narrow = opened.is_narrow();
    match bytes {
        [first, second, ..]
            if known > 2 && is_word_byte(narrow, *first) && is_word_byte(narrow, *second) => known
            - 2,
        _ => 0,
    }
}

fn of_size(kind: SpanKind, size: usize) -> Option<Found>
    ensures { result ≡ found kind size }
{
    Some(Found { kind, size })
}

fn at_colon(bytes: &[u8]) -> bool
    ensures { result ≡ at_colon bytes.now }
{
    match bytes {
        [first, ..] => *first == b':',
        _ => false,
    }
}

/// The pair of hexadecimal digits at the start.
fn pair(bytes: &[u8]) -> Option<Found>
    ensures found { result ≡ pair bytes.now }
    ensures size { IfSome result (λ f. (0 < f.size) × (f.size ≤ length bytes.now)) }
{
    match bytes {
        [high, low, ..] if is_hex(*high) && is_hex(*low) => of_size(SpanKind::HexPair, 2),
        _ => None,
    }
}

/// The string literal after its opening quote.
fn text(rest: &[u8]) -> Option<Found>
    ensures found { result ≡ text rest.now }
    ensures size { IfSome result (λ f. (0 < f.size) × (f.size ≤ length rest.now + 1)) }
{
    let size = quoted_length(rest)?;
    of_size(SpanKind::Str, size + 1)
}

/// How many bytes a string literal has after its opening quote, the closing one with them.
fn quoted_length(rest: &[u8]) -> Option<usize>
    ensures length { result ≡ quoted false rest.now }
    ensures within { IfSome result (λ n. n ≤ length rest.now) }
{
    let mut escaped = false;
    for (at, byte) in rest.iter().enumerate() {
        match escapes(escaped, *byte) {
            None => return Some(at + 1),
            Some(next) => escaped = next,
        }
    }
    None
}

/// Whether the byte after this one is escaped; `None` at the closing quote.
fn escapes(escaped: bool, byte: u8) -> Option<bool>
    ensures { result ≡ escapes escaped byte }
{
    if escaped {
        Some(false)
    } else if byte == b'"' {
        None
    } else {
        Some(byte == b'\\')
    }
}

/// The character after its opening quote.
fn char(rest: &[u8]) -> Option<Found>
    ensures found { result ≡ char rest.now }
    ensures size { IfSome result (λ f. (0 < f.size) × (f.size ≤ length rest.now + 1)) }
{
    let size = char_size(rest);
    if size == 0 {
        return None;
    }
    let (_, behind) = rest.split_at(size);
    if at_quote(behind) {
        of_size(SpanKind::Char, size + 2)
    } else {
        None
    }
}

fn at_quote(bytes: &[u8]) -> bool
    ensures quote { result ≡ at_quote bytes.now }
    ensures within { IsTrue result → 1 ≤ length bytes.now }
{
    match bytes {
        [first, ..] => *first == b'\'',
        _ => false,
    }
}

/// How many bytes a character has, 0 where none stands.
fn char_size(rest: &[u8]) -> usize
    ensures size { result ≡ char_size rest.now }
    ensures within { result ≤ length rest.now }
{
    match rest {
        [b'\\', behind @ ..] => match escape_size(behind) {
            0 => 0,
            size => size + 1,
        },
        [b'\'' | b'\n', ..] => 0,
        [_, ..] => 1,
        [] => 0,
    }
}

/// How many bytes an escape has after its backslash.
fn escape_size(rest: &[u8]) -> usize
    ensures size { result ≡ escape rest.now }
    ensures within { result ≤ length rest.now }
{
    let Some((first, behind)) = rest.split_first() else {
        return 0;
    };
    if is_octal(*first) {
        1 + octal_length(if *first <= b'3' { 2 } else { 1 }, behind)
    } else if *first == b'x' {
        1 + hex_length(behind)
    } else {
        1
    }
}

/// How many octal digits stand at the start, counted up to `most`.
fn octal_length(most: usize, bytes: &[u8]) -> usize
    ensures length { result ≡ prefix_len is_octal (take most bytes.now) }
    ensures within { result ≤ length bytes.now }
{
    bytes
        .iter()
        .take(most)
        .take_while(|byte| is_octal(**byte))
        .count()
}

/// How many hexadecimal digits stand at the start, counted up to 2.
fn hex_length(bytes: &[u8]) -> usize
    ensures length { result ≡ prefix_len is_hex (take 2 bytes.now) }
    ensures within { result ≤ length bytes.now }
{
    bytes
        .iter()
        .take(2)
        .take_while(|byte| is_hex(**byte))
        .count()
}

/// The reference after its `&`.
fn reference(rest: &[u8]) -> Option<Found>
    ensures found { result ≡ reference rest.now }
    ensures size { IfSome result (λ f. (0 < f.size) × (f.size ≤ length rest.now + 1)) }
{
    let (first, behind) = rest.split_first()?;
    if *first == b'{' {
        path_reference(behind)
    } else if begins_label(*first) {
        of_size(SpanKind::Ref, plain_length(behind) + 2)
    } else {
        None
    }
}

/// The path after its brace.
fn path_reference(rest: &[u8]) -> Option<Found>
    ensures found { result ≡ path_reference rest.now }
    ensures size { IfSome result (λ f. (0 < f.size) × (f.size ≤ length rest.now + 2)) }
{
    let size = brace_place(rest);
    let (path, behind) = rest.split_at(size);
    if is_path(path) && !behind.is_empty() {
        of_size(SpanKind::PathRef, size + 3)
    } else {
        None
    }
}

/// How many bytes stand before the first `}`.
fn brace_place(bytes: &[u8]) -> usize
    ensures length { result ≡ prefix_len is_no_brace bytes.now }
    ensures within { result ≤ length bytes.now }
{
    bytes.iter().take_while(|byte| **byte != b'}').count()
}

/// The directive or the punctuator at the start.
fn mark(opened: Opened, bytes: &[u8]) -> Option<Found>
    ensures found { result ≡ mark opened bytes.now }
    ensures size { IfSome result (λ f. (0 < f.size) × (f.size ≤ length bytes.now)) }
{
    if opened.in_rounds() {
        return sized(SpanKind::Punct, punctuator_length(true, bytes));
    }
    let size = directive_length(bytes);
    if size > 0 {
        of_size(SpanKind::Directive, size)
    } else {
        sized(SpanKind::Punct, punctuator_length(false, bytes))
    }
}

fn sized(kind: SpanKind, size: usize) -> Option<Found>
    ensures { result ≡ sized kind size }
{
    match size {
        0 => None,
        _ => of_size(kind, size),
    }
}
