//! Bytes and digits.

ghost use Rattle.std.specs.Prelude.{◌≡◌, ◌≤◌, ◌<◌, ◌-◌, ◌+◌, ◌*◌, ◌%◌, if◌then◌else◌};
ghost use Rattle.edt_base.specs.SourceBytes.{begins_label, is_digit, is_hex, is_letter, is_node_byte, is_octal, is_plain, is_prop_byte};
ghost use Rattle.dts_parse.specs.Texts.{digit};
ghost use Rattle.dts_parse.specs.Token.{is_ascii};

pub(crate) fn is_ascii(byte: u8) -> bool
    ensures { result ≡ is_ascii byte }
{
    byte < 128
}

pub(crate) fn is_digit(byte: u8) -> bool
    ensures { result ≡ is_digit byte }
{
    matches!(byte, b'0'..=b'9')
}

pub(crate) fn is_octal(byte: u8) -> bool
    ensures { result ≡ is_octal byte }
{
    matches!(byte, b'0'..=b'7')
}

pub(crate) fn is_hex(byte: u8) -> bool
    ensures { result ≡ is_hex byte }
{
    is_digit(byte) || matches!(byte, b'a'..=b'f' | b'A'..=b'F')
}

pub(crate) fn begins_label(byte: u8) -> bool
    ensures { result ≡ begins_label byte }
{
    matches!(byte, b'a'..=b'z' | b'A'..=b'Z') || byte == b'_'
}

pub(crate) fn is_plain(byte: u8) -> bool
    ensures { result ≡ is_plain byte }
{
    begins_label(byte) || is_digit(byte)
}

pub(crate) fn is_node_byte(byte: u8) -> bool
    ensures { result ≡ is_node_byte byte }
{
    is_plain(byte) || matches!(byte, b',' | b'.' | b'+' | b'-')
}

pub(crate) fn is_prop_byte(byte: u8) -> bool
    ensures { result ≡ is_prop_byte byte }
{
    is_node_byte(byte) || matches!(byte, b'?' | b'#')
}

/// What a digit is worth.
pub(crate) fn digit(byte: u8) -> u8
    ensures { result ≡ digit byte }
{
    if byte <= b'9' {
        byte.saturating_sub(b'0')
    } else if byte <= b'Z' {
        byte.saturating_sub(55)
    } else {
        byte.saturating_sub(87)
    }
}
