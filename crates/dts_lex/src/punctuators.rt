//! Directives, operators and other punctuators, and what is open after them.

ghost use Rattle.std.specs.Prelude.{◌≡◌, ◌≤◌, ◌<◌, ◌+◌, length, IsTrue};
ghost use Rattle.dts_lex.specs.Tokens.{at_double, directive_in, directives, is_double, is_operator};
ghost use Rattle.dts_lex.specs.Tokens.{is_outer_punctuator, punctuator};

/// How many bytes the directive at the start has, 0 without one.
pub(crate) fn directive_length(bytes: &[u8]) -> usize
    ensures length { result ≡ directive_in directives bytes.now }
    ensures within { result ≤ length bytes.now }
{
    if bytes.starts_with(b"/dts-v1/") {
        8
    } else if bytes.starts_with(b"/plugin/") {
        8
    } else if bytes.starts_with(b"/memreserve/") {
        12
    } else if bytes.starts_with(b"/delete-node/") {
        13
    } else if bytes.starts_with(b"/delete-property/") {
        17
    } else if bytes.starts_with(b"/omit-if-no-ref/") {
        16
    } else if bytes.starts_with(b"/bits/") {
        6
    } else if bytes.starts_with(b"/include/") {
        9
    } else if bytes.starts_with(b"/incbin/") {
        8
    } else {
        0
    }
}

/// How many bytes the punctuator at the start has, 0 without one; within parentheses operators are
/// punctuators.
pub(crate) fn punctuator_length(rounds: bool, bytes: &[u8]) -> usize
    ensures length { result ≡ punctuator rounds bytes.now }
    ensures within { result ≤ length bytes.now }
{
    let Some(first) = bytes.first() else {
        return 0;
    };
    if bytes.starts_with(b"/*") {
        0
    } else if rounds && at_double(bytes) {
        2
    } else if is_outer_punctuator(*first) || (rounds && is_operator(*first)) {
        1
    } else {
        0
    }
}

/// An operator of two bytes stands at the start.
fn at_double(bytes: &[u8]) -> bool
    ensures double { result ≡ at_double bytes.now }
    ensures within { IsTrue result → 2 ≤ length bytes.now }
{
    match bytes {
        [first, second, ..] => is_double(*first, *second),
        _ => false,
    }
}

/// An operator has these two bytes.
fn is_double(first: u8, second: u8) -> bool
    ensures { result ≡ is_double first second }
{
    (first == b'<' && (second == b'<' || second == b'='))
        || (first == b'>' && (second == b'>' || second == b'='))
        || (second == b'=' && (first == b'=' || first == b'!'))
        || (first == b'&' && second == b'&')
        || (first == b'|' && second == b'|')
}

/// A punctuator outside parentheses and within them.
fn is_outer_punctuator(byte: u8) -> bool
    ensures { result ≡ is_outer_punctuator byte }
{
    matches!(
        byte,
        b'(' | b')' | b'[' | b']' | b'{' | b'}' | b'<' | b'>' | b'/' | b':' | b';' | b'=' | b','
    )
}

/// A punctuator within parentheses alone.
fn is_operator(byte: u8) -> bool
    ensures { result ≡ is_operator byte }
{
    matches!(
        byte,
        b'-' | b'~' | b'!' | b'*' | b'%' | b'+' | b'&' | b'^' | b'|' | b'?'
    )
}
