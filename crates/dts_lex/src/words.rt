//! Bytes by what they may be part of, and words.

ghost use Rattle.std.specs.Prelude.{◌≡◌, ◌≤◌, length};
ghost use Rattle.std.specs.List.{prefix_len};
ghost use Rattle.edt_base.specs.SourceBytes.{begins_label, is_blank, is_digit, is_hex, is_letter};
ghost use Rattle.edt_base.specs.SourceBytes.{is_node_byte, is_octal, is_plain, is_prop_byte};
ghost use Rattle.edt_base.specs.SourceBytes.{is_wide};
ghost use Rattle.dts_lex.specs.Tokens.{is_word_byte};

pub(crate) fn is_blank(byte: u8) -> bool
    ensures { result ≡ is_blank byte }
{
    matches!(byte, b' ' | b'\t'..=b'\r')
}

pub(crate) fn is_digit(byte: u8) -> bool
    ensures { result ≡ is_digit byte }
{
    matches!(byte, b'0'..=b'9')
}

pub(crate) fn is_octal(byte: u8) -> bool
    ensures { result ≡ is_octal byte }
{
    matches!(byte, b'0'..=b'7')
}

fn is_letter(byte: u8) -> bool
    ensures { result ≡ is_letter byte }
{
    matches!(byte, b'a'..=b'z' | b'A'..=b'Z')
}

pub(crate) fn is_hex(byte: u8) -> bool
    ensures { result ≡ is_hex byte }
{
    is_digit(byte) || matches!(byte, b'a'..=b'f' | b'A'..=b'F')
}

/// A label begins with it.
pub(crate) fn begins_label(byte: u8) -> bool
    ensures { result ≡ begins_label byte }
{
    is_letter(byte) || byte == b'_'
}

/// A byte of labels and numbers.
pub(crate) fn is_plain(byte: u8) -> bool
    ensures { result ≡ is_plain byte }
{
    begins_label(byte) || is_digit(byte)
}

/// A byte of a node's name and of its unit address.
pub(crate) fn is_node_byte(byte: u8) -> bool
    ensures { result ≡ is_node_byte byte }
{
    is_plain(byte) || matches!(byte, b',' | b'.' | b'+' | b'-')
}

/// A byte of a property's name.
fn is_prop_byte(byte: u8) -> bool
    ensures { result ≡ is_prop_byte byte }
{
    is_node_byte(byte) || matches!(byte, b'?' | b'#')
}

/// A byte of a word where names stand.
fn is_wide(byte: u8) -> bool
    ensures { result ≡ is_wide byte }
{
    is_prop_byte(byte) || byte == b'@'
}

/// A byte of a word, in lists and values or elsewhere.
pub(crate) fn is_word_byte(narrow: bool, byte: u8) -> bool
    ensures { result ≡ is_word_byte narrow byte }
{
    if narrow {
        is_plain(byte)
    } else {
        is_wide(byte)
    }
}

/// How many bytes the word at the start has.
pub(crate) fn word_length(narrow: bool, bytes: &[u8]) -> usize
    ensures length { result ≡ prefix_len (is_word_byte narrow) bytes.now }
    ensures within { result ≤ length bytes.now }
{
    bytes
        .iter()
        .take_while(|byte| is_word_byte(narrow, **byte))
        .count()
}

/// How many bytes at the start have letters, digits and `_` alone.
pub(crate) fn plain_length(bytes: &[u8]) -> usize
    ensures length { result ≡ prefix_len is_plain bytes.now }
    ensures within { result ≤ length bytes.now }
{
    bytes.iter().take_while(|byte| is_plain(**byte)).count()
}
