//! The tokens of C (ISO C, 6.4): what stands at the front of a line.

ghost use Rattle.std.specs.Prelude.{◌≡◌, ◌+◌, ◌<◌, ◌≤◌, ◌^◌, length, drop, option_map, IfSome, false, true, not, ◌&&◌, nat_eq};
ghost use Rattle.std.specs.List.{prefix_len};
ghost use Rattle.c_tokens.specs.Bytes.{byte_at, is_blank, is_digit, is_letter, is_word_byte, is_exponent, is_sign, is_quote, is_prefix, is_punctuator, takes_equals, is_doubled, is_other};
ghost use Rattle.c_tokens.specs.Grammar.{comment_end, literal_end, number_rest, quote_place, begins_number, is_three, is_two, punctuator_length, sign_of_length, literal_of, comment_of, plain_front, token_front, front, kind_of, IsWithin};

use crate::tok::TokKind;

/// What stands at the front of a line.
#[derive(Clone, Copy, Debug, PartialEq, Eq)]
pub enum Piece {
    /// White space or a comment of so many bytes.
    Gap(usize),
    /// A comment that isn't closed on the line.
    Unclosed,
    /// A token of so many bytes.
    Token(TokKind, usize),
    /// Nothing of C.
    Nothing,
}

fn byte_at(bytes: &[u8], at: usize) -> u8
    ensures is { result ≡ byte_at bytes.now at }
    ensures there { 0 < result → at < length bytes.now }
{
    match bytes.get(at) {
        Some(byte) => *byte,
        None => 0,
    }
}

fn is_blank(byte: u8) -> bool
    ensures { result ≡ is_blank byte }
{
    matches!(byte, b' ' | b'\t' | 11 | 12 | b'\r')
}

fn is_digit(byte: u8) -> bool
    ensures { result ≡ is_digit byte }
{
    matches!(byte, b'0'..=b'9')
}

fn is_letter(byte: u8) -> bool
    ensures { result ≡ is_letter byte }
{
    matches!(byte, b'a'..=b'z' | b'A'..=b'Z' | b'_')
}

fn is_word_byte(byte: u8) -> bool
    ensures { result ≡ is_word_byte byte }
{
    is_letter(byte) || is_digit(byte)
}

fn is_exponent(byte: u8) -> bool
    ensures { result ≡ is_exponent byte }
{
    matches!(byte, b'e' | b'E' | b'p' | b'P')
}

fn is_sign(byte: u8) -> bool
    ensures { result ≡ is_sign byte }
{
    matches!(byte, b'+' | b'-')
}

fn is_quote(byte: u8) -> bool
    ensures { result ≡ is_quote byte }
{
    matches!(byte, b'"' | b'\'')
}

fn is_prefix(byte: u8) -> bool
    ensures { result ≡ is_prefix byte }
{
    matches!(byte, b'L' | b'u' | b'U')
}

fn is_punctuator(byte: u8) -> bool
    ensures { result ≡ is_punctuator byte }
{
    matches!(
        byte,
        b'[' | b']'
            | b'('
            | b')'
            | b'{'
            | b'}'
            | b'.'
            | b'&'
            | b'*'
            | b'+'
            | b'-'
            | b'~'
            | b'!'
            | b'/'
            | b'%'
            | b'<'
            | b'>'
            | b'^'
            | b'|'
            | b'?'
            | b':'
            | b';'
            | b'='
            | b','
            | b'#'
    )
}

fn takes_equals(byte: u8) -> bool
    ensures { result ≡ takes_equals byte }
{
    matches!(
        byte,
        b'<' | b'>' | b'=' | b'!' | b'*' | b'/' | b'%' | b'+' | b'-' | b'&' | b'^' | b'|'
    )
}

fn is_doubled(byte: u8) -> bool
    ensures { result ≡ is_doubled byte }
{
    matches!(byte, b'+' | b'-' | b'&' | b'|' | b'<' | b'>' | b'#')
}

fn is_other(byte: u8) -> bool
    ensures { result ≡ is_other byte }
{
    matches!(byte, b'$' | b'@' | b'\\' | b'`')
}

/// How long a comment is from behind its `/*` to its `*/`.
pub(crate) fn comment_end(bytes: &[u8]) -> Option<usize>
    ensures is { result ≡ comment_end false bytes.now }
    ensures within { IfSome result (λ n. (0 < n) × (n ≤ length bytes.now)) }
{
    let mut star = false;
    for (at, byte) in bytes.iter().enumerate() {
        if star && *byte == b'/' {
            return Some(at + 1);
        }
        star = *byte == b'*';
    }
    None
}

/// Whether a byte ends the literal of this quote.
fn is_end(quote: u8, escaped: bool, byte: u8) -> bool
    ensures { result ≡ (not escaped && nat_eq byte quote) }
{
    !escaped && byte == quote
}

/// Whether a byte escapes the next one.
fn escapes(escaped: bool, byte: u8) -> bool
    ensures { result ≡ (not escaped && nat_eq byte 92) }
{
    !escaped && byte == b'\\'
}

/// How long a literal is from behind its quote to the next that no backslash escapes.
fn literal_end(quote: u8, bytes: &[u8]) -> Option<usize>
    ensures is { result ≡ literal_end quote false bytes.now }
    ensures within { IfSome result (λ n. (0 < n) × (n ≤ length bytes.now)) }
{
    let mut escaped = false;
    for (at, byte) in bytes.iter().enumerate() {
        if is_end(quote, escaped, *byte) {
            return Some(at + 1);
        }
        escaped = escapes(escaped, *byte);
    }
    None
}

/// How many bytes more belong to a number.
fn number_rest(bytes: &[u8]) -> usize
    ensures is { result ≡ number_rest false bytes.now }
    ensures within { result ≤ length bytes.now }
{
    let mut exponent = false;
    for (at, byte) in bytes.iter().enumerate() {
        if !(is_word_byte(*byte) || *byte == b'.' || (exponent && is_sign(*byte))) {
            return at;
        }
        exponent = is_exponent(*byte);
    }
    bytes.len()
}

/// How many bytes at the front are letters, digits and `_`.
fn word_length(bytes: &[u8]) -> usize
    ensures is { result ≡ prefix_len is_word_byte bytes.now }
    ensures within { result ≤ length bytes.now }
    ensures some { is_word_byte (byte_at bytes.now 0) ≡ true → 0 < result }
{
    bytes.iter().take_while(|byte| is_word_byte(**byte)).count()
}

/// Where the quote of a literal stands that begins with these bytes.
fn quote_place(a: u8, b: u8, c: u8) -> Option<usize>
    ensures is { result ≡ quote_place a b c }
    ensures near { IfSome result (λ p. p < 3) }
{
    if is_quote(a) {
        Some(0)
    } else if is_prefix(a) && is_quote(b) {
        Some(1)
    } else if a == b'u' && b == b'8' && c == b'"' {
        Some(2)
    } else {
        None
    }
}

fn begins_number(a: u8, b: u8) -> bool
    ensures { result ≡ begins_number a b }
{
    is_digit(a) || (a == b'.' && is_digit(b))
}

fn is_three(a: u8, b: u8, c: u8) -> bool
    ensures { result ≡ is_three a b c }
{
    (a == b'.' && b == b'.' && c == b'.') || ((a == b'<' || a == b'>') && b == a && c == b'=')
}

fn is_two(a: u8, b: u8) -> bool
    ensures { result ≡ is_two a b }
{
    (a == b'-' && b == b'>') || (is_doubled(a) && b == a) || (takes_equals(a) && b == b'=')
}

/// How long the punctuator is that begins with these bytes, 0 where none does.
fn punctuator_length(a: u8, b: u8, c: u8) -> usize
    ensures is { result ≡ punctuator_length a b c }
    ensures few { result ≤ 3 }
{
    if is_three(a, b, c) {
        3
    } else if is_two(a, b) {
        2
    } else if is_punctuator(a) {
        1
    } else {
        0
    }
}

fn sign_of_length(length: usize, a: u8) -> Piece
    ensures { result ≡ sign_of_length length a }
{
    if length > 0 {
        Piece::Token(TokKind::Punct, length)
    } else if is_other(a) {
        Piece::Token(TokKind::Other, 1)
    } else {
        Piece::Nothing
    }
}

/// A literal whose quote stands at the place and whose rest has this length.
fn literal_of(quote: u8, place: usize, length: Option<usize>) -> Piece
    requires { IfSome length (λ n. place + 1 + n < 2 ^ 64) }
    ensures { result ≡ literal_of quote place length }
{
    match length {
        None => Piece::Nothing,
        Some(n) if quote == b'"' => Piece::Token(TokKind::Str, place + 1 + n),
        Some(1) => Piece::Nothing,
        Some(n) => Piece::Token(TokKind::Char, place + 1 + n),
    }
}

/// An identifier, a number or a sign.
fn plain_front(bytes: &[u8]) -> Piece
    requires { 0 < length bytes.now }
    ensures is { result ≡ plain_front bytes.now }
    ensures within { IsWithin (length bytes.now) result }
{
    let (a, b) = (byte_at(bytes, 0), byte_at(bytes, 1));
    if is_letter(a) {
        Piece::Token(TokKind::Ident, word_length(bytes))
    } else if begins_number(a, b) {
        Piece::Token(TokKind::Number, 1 + number_rest(&bytes[1..]))
    } else {
        sign_of_length(punctuator_length(a, b, byte_at(bytes, 2)), a)
    }
}

/// The bytes from a place on.
pub(crate) fn behind(bytes: &[u8], at: usize) -> &[u8]
    ensures { result.now ≡ drop at bytes.now }
{
    if at < bytes.len() { &bytes[at..] } else { &[] }
}

/// A literal, if its quote stands at a place, or another token.
fn token_front(place: Option<usize>, bytes: &[u8]) -> Piece
    requires some { 0 < length bytes.now }
    requires place { IfSome place (λ p. p < 3) }
    ensures is { result ≡ token_front place bytes.now }
    ensures within { IsWithin (length bytes.now) result }
{
    match place {
        None => plain_front(bytes),
        Some(place) => {
            let quote = byte_at(bytes, place);
            literal_of(quote, place, literal_end(quote, behind(bytes, place + 1)))
        }
    }
}

/// A comment whose `/*` stands at the front.
fn comment_front(bytes: &[u8]) -> Piece
    requires { 2 ≤ length bytes.now }
    ensures is { result ≡ comment_of (comment_end false (drop 2 bytes.now)) }
    ensures within { IsWithin (length bytes.now) result }
{
    match comment_end(&bytes[2..]) {
        None => Piece::Unclosed,
        Some(n) => Piece::Gap(2 + n),
    }
}

/// What stands at the front of a line that isn't empty.
pub(crate) fn front(bytes: &[u8]) -> Piece
    requires { 0 < length bytes.now }
    ensures is { result ≡ front bytes.now }
    ensures within { IsWithin (length bytes.now) result }
{
    let (a, b) = (byte_at(bytes, 0), byte_at(bytes, 1));
    if is_blank(a) {
        Piece::Gap(1)
    } else if a == b'/' && b == b'*' {
        comment_front(bytes)
    } else if a == b'/' && b == b'/' {
        Piece::Gap(bytes.len())
    } else {
        token_front(quote_place(a, b, byte_at(bytes, 2)), bytes)
    }
}

/// The kind of the one token that these bytes are, as a `##` may make it (ISO C, 6.10.3.3); `None`
/// where they aren't one. Takes no memory.
pub fn kind_of(bytes: &[u8]) -> Option<TokKind>
    ensures { result ≡ kind_of bytes.now }
{
    if bytes.is_empty() {
        return None;
    }
    match front(bytes) {
        Piece::Token(kind, n) if n == bytes.len() => Some(kind),
        _ => None,
    }
}
