//! Paths of references.

ghost use Rattle.std.specs.Prelude.{◌≡◌};
ghost use Rattle.dts_lex.specs.Names.{is_path, is_row, row_ends, row_step};

use crate::words::is_node_byte;

/// Where a byte stands in a row of nodes' names with a slash before each.
#[derive(Clone, Copy)]
pub(crate) enum Row {
    /// After a slash.
    Slash,
    /// In a name.
    Word,
    /// After the `@` of a name.
    At,
    /// In the unit address of a name.
    Unit,
}

fn row_step(state: Row, byte: u8) -> Option<Row>
    ensures { result ≡ row_step state byte }
{
    match state {
        Row::Slash => is_node_byte(byte).then_some(Row::Word),
        Row::Word => {
            if is_node_byte(byte) {
                Some(Row::Word)
            } else if byte == b'@' {
                Some(Row::At)
            } else if byte == b'/' {
                Some(Row::Slash)
            } else {
                None
            }
        }
        Row::At => is_node_byte(byte).then_some(Row::Unit),
        Row::Unit => {
            if is_node_byte(byte) {
                Some(Row::Unit)
            } else if byte == b'/' {
                Some(Row::Slash)
            } else {
                None
            }
        }
    }
}

fn row_ends(state: Row) -> bool
    ensures { result ≡ row_ends state }
{
    match state {
        Row::Slash | Row::At => false,
        Row::Word | Row::Unit => true,
    }
}

fn is_row(bytes: &[u8]) -> bool
    ensures { result ≡ is_row Row.Slash bytes.now }
{
    let mut state = Row::Slash;
    for byte in bytes {
        match row_step(state, *byte) {
            None => return false,
            Some(next) => state = next,
        }
    }
    row_ends(state)
}

/// The root's path, or nodes' names with a slash before each.
pub(crate) fn is_path(bytes: &[u8]) -> bool
    ensures { result ≡ is_path bytes.now }
{
    match bytes {
        [] => false,
        [only] => *only == b'/',
        [first, rest @ ..] => *first == b'/' && is_row(rest),
    }
}
