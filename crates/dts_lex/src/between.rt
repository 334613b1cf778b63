//! What stands between tokens: blanks, comments and skipped lines.

ghost use Rattle.std.specs.Prelude.{◌≡◌, ◌≤◌, length};
ghost use Rattle.dts_lex.specs.Between.{closes, closes_behind, enter, enter_within, gap};
ghost use Rattle.dts_lex.specs.Between.{marks_place, skips, start};
ghost use Rattle.edt_base.specs.SourceBytes.{is_blank};

use crate::words::{is_blank, is_digit};

/// Where a byte between two tokens stands.
#[derive(Clone, Copy)]
pub(crate) enum Between {
    /// At the first byte of a line.
    LineStart,
    /// Elsewhere among blanks.
    Within,
    /// In a comment that the line ends, or in a skipped line.
    Line,
    /// At the star of a `/*`.
    Opening,
    /// In a comment that `*/` ends.
    Comment,
    /// At the slash of a `*/`.
    Closing,
}

/// Where a gap begins that begins at this byte of a source.
pub(crate) fn gap_start(at: u64) -> Between
    ensures { result ≡ start at }
{
    if at == 0 {
        Between::LineStart
    } else {
        Between::Within
    }
}

/// How many bytes the gap has that `bytes` begin with.
pub(crate) fn gap_length(start: Between, bytes: &[u8]) -> usize
    ensures gap { result ≡ gap start bytes.now }
    ensures within { result ≤ length bytes.now }
{
    let mut state = start;
    for (at, byte) in bytes.iter().enumerate() {
        match enter(state, *byte, &bytes[at..]) {
            None => return at,
            Some(next) => state = next,
        }
    }
    bytes.len()
}

/// Where one more byte leads, with which `bytes` begin; `None` where the gap ends before it.
fn enter(state: Between, byte: u8, bytes: &[u8]) -> Option<Between>
    ensures { result ≡ enter state byte bytes.now }
{
    match state {
        Between::LineStart => {
            if skips(bytes) {
                Some(Between::Line)
            } else {
                enter_within(byte, bytes)
            }
        }
        Between::Within => enter_within(byte, bytes),
        Between::Line => Some(if byte == b'\n' {
            Between::LineStart
        } else {
            Between::Line
        }),
        Between::Opening => Some(Between::Comment),
        Between::Comment => Some(if bytes.starts_with(b"*/") {
            Between::Closing
        } else {
            Between::Comment
        }),
        Between::Closing => Some(Between::Within),
    }
}

fn enter_within(byte: u8, bytes: &[u8]) -> Option<Between>
    ensures { result ≡ enter_within byte bytes.now }
{
    if byte == b'\n' {
        Some(Between::LineStart)
    } else if is_blank(byte) {
        Some(Between::Within)
    } else if bytes.starts_with(b"//") {
        Some(Between::Line)
    } else if bytes.starts_with(b"/*") && closes_behind(bytes) {
        Some(Between::Opening)
    } else {
        None
    }
}

/// A line that begins so is skipped: a mark of where the text came from.
fn skips(bytes: &[u8]) -> bool
    ensures { result ≡ skips bytes.now }
{
    marks_place(bytes) || bytes.starts_with(b"#line ") || bytes.starts_with(b"#line\t")
}

/// A line that begins so says which line of which file follows.
fn marks_place(bytes: &[u8]) -> bool
    ensures { result ≡ marks_place bytes.now }
{
    match bytes {
        [punctuator, blank, digit, ..] => *punctuator == b'#' && *blank == b' ' && is_digit(*digit),
        _ => false,
    }
}

/// The comment whose `/*` stands at the start is closed.
fn closes_behind(bytes: &[u8]) -> bool
    ensures { result ≡ closes_behind bytes.now }
{
    match bytes {
        [_, _, rest @ ..] => closes(rest),
        _ => false,
    }
}

/// A `*/` stands somewhere.
fn closes(bytes: &[u8]) -> bool
    ensures { result ≡ closes bytes.now }
{
    let mut rest = bytes;
    while let Some((_, behind)) = rest.split_first() {
        if rest.starts_with(b"*/") {
            return true;
        }
        rest = behind;
    }
    false
}
