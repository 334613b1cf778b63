//! Numbers (ISO C's, without its other suffixes).

ghost use Rattle.std.specs.Prelude.{◌≡◌, ◌≤◌, ◌<◌, Some, length, drop, take};
ghost use Rattle.std.specs.List.{prefix_len};
ghost use Rattle.edt_base.specs.SourceBytes.{is_digit, is_hex, is_octal};
ghost use Rattle.dts_parse.specs.Numbers.{digits_worth, is_l, is_long, is_suffix, is_u, number, number_of_digits, number_terminal, with_digit};
ghost use Rattle.dts_parse.specs.Texts.{digit};

use crate::bytes::{digit, is_digit, is_hex, is_octal};
use crate::terminal::Terminal;

/// A word as a number: decimal, octal with a leading 0 or hexadecimal after `0x`, with a suffix.
pub(crate) fn number(text: &[u8]) -> Terminal
    ensures { result ≡ number text.now }
{
    if text.starts_with(b"0x") {
        let (_, rest) = text.split_at(2);
        number_of_digits(16, hex_length(rest), rest)
    } else if text.starts_with(b"0") {
        number_of_digits(8, octal_length(text), text)
    } else {
        number_of_digits(10, decimal_length(text), text)
    }
}

fn hex_length(text: &[u8]) -> usize
    ensures length { result ≡ prefix_len is_hex text.now }
    ensures within { result ≤ length text.now }
{
    text.iter().take_while(|byte| is_hex(**byte)).count()
}

fn octal_length(text: &[u8]) -> usize
    ensures length { result ≡ prefix_len is_octal text.now }
    ensures within { result ≤ length text.now }
{
    text.iter().take_while(|byte| is_octal(**byte)).count()
}

fn decimal_length(text: &[u8]) -> usize
    ensures length { result ≡ prefix_len is_digit text.now }
    ensures within { result ≤ length text.now }
{
    text.iter().take_while(|byte| is_digit(**byte)).count()
}

/// The number that so many digits at the front are, with a suffix after them.
fn number_of_digits(base: u64, count: usize, text: &[u8]) -> Terminal
    requires { count ≤ length text.now }
    ensures { result ≡ number_of_digits base count text.now }
{
    let (digits, rest) = text.split_at(count);
    if count > 0 && is_suffix(rest) {
        number_terminal(digits_worth(base, digits))
    } else {
        Terminal::Other
    }
}

fn number_terminal(n: Option<u64>) -> Terminal
    ensures { result ≡ number_terminal n }
{
    match n {
        None => Terminal::Huge,
        Some(n) => Terminal::Number(n),
    }
}

/// What digits are worth; `None` where that is 2 to the power of 64 or more.
fn digits_worth(base: u64, digits: &[u8]) -> Option<u64>
    ensures { result ≡ digits_worth base (Some 0) digits.now }
{
    let mut worth = Some(0);
    for byte in digits {
        worth = with_digit(base, digit(*byte), worth);
    }
    worth
}

fn with_digit(base: u64, digit: u8, worth: Option<u64>) -> Option<u64>
    ensures { result ≡ with_digit base digit worth }
{
    worth?.checked_mul(base)?.checked_add(u64::from(digit))
}

/// U, L, UL, LL or ULL in either case, or nothing.
fn is_suffix(text: &[u8]) -> bool
    ensures { result ≡ is_suffix text.now }
{
    match text {
        [] => true,
        [first, rest @ ..] => (is_u(*first) && is_long(rest)) || is_long(text),
    }
}

/// L or LL, or nothing.
fn is_long(text: &[u8]) -> bool
    ensures { result ≡ is_long text.now }
{
    match text {
        [] => true,
        [first] => is_l(*first),
        [first, second] => is_l(*first) && is_l(*second),
        _ => false,
    }
}

fn is_u(byte: u8) -> bool
    ensures { result ≡ is_u byte }
{
    matches!(byte, b'U' | b'u')
}

fn is_l(byte: u8) -> bool
    ensures { result ≡ is_l byte }
{
    matches!(byte, b'L' | b'l')
}
