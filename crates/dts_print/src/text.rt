//! Texts, bytes and numbers as a source spells them.

ghost use Rattle.std.specs.Prelude.{◌≡◌, ◌<◌, ◌∷◌, [], is_ok, false};
ghost use Rattle.std.specs.Fmt.{digit_glyph, digits};
ghost use Rattle.std.specs.List.{flat_map};
ghost use Rattle.edt_base.specs.Put.{Put};
ghost use Rattle.dts_print.specs.Printed.{before_last, escaped, number_text, pair_text, quoted, tabs};

use edt_base::{Block, Sink, WriteFailed, put, put_byte};

/// Puts so many tabs.
pub(crate) fn put_tabs<S: Sink>(
    out: &mut S,
    block: &mut Block,
    count: usize,
) -> Result<(), WriteFailed>
    ensures { Put (S.seen out.old) (S.seen out.new) block.old block.new (tabs count)
        (is_ok result) }
{
    for _tab in 0..count {
        put_byte(out, block, b'\t')?;
    }
    Ok(())
}

/// All bytes but the last.
pub(crate) fn before_last(bytes: &[u8]) -> &[u8]
    ensures { result.now ≡ before_last bytes.now }
{
    match bytes {
        [text @ .., _] => text,
        [] => bytes,
    }
}

/// Puts a text in quotes.
pub(crate) fn put_quoted<S: Sink>(
    out: &mut S,
    block: &mut Block,
    text: &[u8],
) -> Result<(), WriteFailed>
    ensures { Put (S.seen out.old) (S.seen out.new) block.old block.new (quoted text.now)
        (is_ok result) }
{
    put_byte(out, block, b'"')?;
    put_escaped(out, block, text)?;
    put_byte(out, block, b'"')
}

// Puts a text as it stands between quotes.
fn put_escaped<S: Sink>(out: &mut S, block: &mut Block, text: &[u8]) -> Result<(), WriteFailed>
    ensures { Put (S.seen out.old) (S.seen out.new) block.old block.new (flat_map escaped text.now)
        (is_ok result) }
{
    for byte in text {
        put_escaped_byte(out, block, *byte)?;
    }
    Ok(())
}

// Puts a byte as it stands in a text in quotes.
fn put_escaped_byte<S: Sink>(out: &mut S, block: &mut Block, byte: u8) -> Result<(), WriteFailed>
    ensures { Put (S.seen out.old) (S.seen out.new) block.old block.new (escaped byte)
        (is_ok result) }
{
    if byte == b'"' || byte == b'\\' {
        put(out, block, &[b'\\', byte])
    } else if 32 <= byte && byte <= 126 {
        put_byte(out, block, byte)
    } else {
        let digits = [
            b'\\',
            b'0' + byte / 64,
            b'0' + byte / 8 % 8,
            b'0' + byte % 8,
        ];
        put(out, block, &digits)
    }
}

// A hexadecimal digit.
fn digit(n: u8) -> u8
    requires { n < 16 }
    ensures { result ≡ digit_glyph false n }
{
    if n < 10 { b'0' + n } else { b'a' - 10 + n }
}

/// Puts a byte as two hexadecimal digits.
pub(crate) fn put_pair<S: Sink>(out: &mut S, block: &mut Block, byte: u8) -> Result<(), WriteFailed>
    ensures { Put (S.seen out.old) (S.seen out.new) block.old block.new (pair_text byte)
        (is_ok result) }
{
    put(out, block, &[digit(byte / 16), digit(byte % 16)])
}

/// Puts a number in hexadecimal.
pub(crate) fn put_number<S: Sink>(out: &mut S, block: &mut Block, n: u32) -> Result<(), WriteFailed>
    ensures { Put (S.seen out.old) (S.seen out.new) block.old block.new (number_text n)
        (is_ok result) }
{
    put(out, block, b"0x")?;
    put_digits(out, block, n)
}

// Puts the digits of a number, at most eight, without leading zeros.
fn put_digits<S: Sink>(out: &mut S, block: &mut Block, n: u32) -> Result<(), WriteFailed>
    ensures { Put (S.seen out.old) (S.seen out.new) block.old block.new (digits 16 false n)
        (is_ok result) }
{
    if n < 16 {
        return put_byte(out, block, digit(n as u8));
    }
    put_digits(out, block, n / 16)?;
    put_byte(out, block, digit((n % 16) as u8))
}
