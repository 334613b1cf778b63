//! Which value a plain text is.

ghost use Rattle.std.specs.Prelude.{◌≡◌, ◌≤◌, false, string_bytes};
ghost use Rattle.edt_base.specs.YamlData.{value_of};
ghost use Rattle.yaml_profile.specs.Scalars.{is_null, is_true, is_false, digit, spelled};
ghost use Rattle.yaml_profile.specs.Scalars.{behind_zero, magnitude, whole_number, is_sign};
ghost use Rattle.yaml_profile.specs.Scalars.{is_exponent, goes_on, is_other, scalar_of};
ghost use Rattle.yaml_profile.specs.Scalars.{number_or_text};

use edt_base::{Text, Yaml};

/// The value of a plain text. A text that is none of the others is a string.
#[tactic(auto, unfolding(crate::specs::Scalars::scalar_of))]
pub(crate) fn scalar_of(text: String) -> Yaml
    ensures { value_of result ≡ scalar_of (string_bytes text) }
{
    let t = text.as_str();
    if is_null(t) {
        Yaml::Null
    } else if is_true(t) {
        Yaml::Bool(true)
    } else if is_false(t) {
        Yaml::Bool(false)
    } else {
        number_or_text(text)
    }
}

fn number_or_text(text: String) -> Yaml
    ensures { value_of result ≡ number_or_text (string_bytes text)
        (whole_number (string_bytes text)) }
{
    if let Some(n) = whole_number(text.as_bytes()) {
        return Yaml::Int(n);
    }
    if is_other(text.as_bytes()) {
        Yaml::Other
    } else {
        Yaml::Str(Text::new(text))
    }
}

fn is_null(text: &str) -> bool
    ensures { result ≡ is_null text.now }
{
    matches!(text, "" | "~" | "null" | "Null" | "NULL")
}

fn is_true(text: &str) -> bool
    ensures { result ≡ is_true text.now }
{
    matches!(
        text,
        "true" | "True" | "TRUE" | "yes" | "Yes" | "YES" | "on" | "On" | "ON"
    )
}

fn is_false(text: &str) -> bool
    ensures { result ≡ is_false text.now }
{
    matches!(
        text,
        "false" | "False" | "FALSE" | "no" | "No" | "NO" | "off" | "Off" | "OFF"
    )
}

/// The value of a digit, 16 where it is none.
pub(crate) fn digit(c: u32) -> u32
    ensures value { result ≡ digit c }
    ensures below { result ≤ 16 }
{
    match c {
        48..=57 => c - 48,
        65..=70 => c - 55,
        97..=102 => c - 87,
        _ => 16,
    }
}

/// The number that these digits spell, `None` where one is none or the number is 2^64 or more.
fn spelled(base: u32, digits: &[u8]) -> Option<u64>
    requires { base ≤ 16 }
    ensures { result ≡ spelled base 0 digits.now }
{
    let mut so_far = 0u64;
    for c in digits {
        let value = digit(*c as u32);
        let next = so_far as u128 * base as u128 + value as u128;
        if value >= base || next >= 0x1_0000_0000_0000_0000 {
            return None;
        }
        so_far = next as u64;
    }
    Some(so_far)
}

/// 0, or a digit 1 to 9 and digits, or `0x` and hexadecimal digits.
fn magnitude(text: &[u8]) -> Option<u64>
    ensures { result ≡ magnitude text.now }
{
    match text {
        [] => None,
        [b'0', behind @ ..] => behind_zero(behind),
        _ => spelled(10, text),
    }
}

fn behind_zero(text: &[u8]) -> Option<u64>
    ensures { result ≡ behind_zero text.now }
{
    match text {
        [] => Some(0),
        [_] => None,
        [x, digits @ ..] => {
            if *x == b'x' {
                spelled(16, digits)
            } else {
                None
            }
        }
    }
}

fn whole_number(text: &[u8]) -> Option<i128>
    ensures { result ≡ whole_number text.now }
{
    match text {
        [b'-', rest @ ..] => Some(-(magnitude(rest)? as i128)),
        [b'+', rest @ ..] => Some(magnitude(rest)? as i128),
        _ => Some(magnitude(text)? as i128),
    }
}

fn is_sign(c: u8) -> bool
    ensures { result ≡ is_sign c }
{
    c == b'+' || c == b'-'
}

fn is_exponent(c: u8) -> bool
    ensures { result ≡ is_exponent c }
{
    c == b'e' || c == b'E'
}

/// Whether it looks like a number.
fn is_other(text: &[u8]) -> bool
    ensures { result ≡ is_other text.now }
{
    match text {
        [first, rest @ ..] => (first.is_ascii_digit() || *first == b'.' || is_sign(*first))
            && goes_on(rest),
        [] => false,
    }
}

/// Only characters of numbers, with signs after an `e` or `E` alone.
fn goes_on(text: &[u8]) -> bool
    ensures { result ≡ goes_on false text.now }
{
    let mut behind_e = false;
    for c in text {
        let fits = c.is_ascii_digit()
            || matches!(*c, b'.' | b'_' | b':')
            || is_exponent(*c)
            || (is_sign(*c) && behind_e);
        if !fits {
            return false;
        }
        behind_e = is_exponent(*c);
    }
    true
}
