//! How long names and bodies are as spelled, without spelling them.

ghost use Rattle.std.specs.Prelude.{◌≡◌, ◌-◌, ◌^◌, length, min};
ghost use Rattle.std.specs.List.{flat_map};
ghost use Rattle.dt_names.specs.Inner.Left.{behind_id};
ghost use Rattle.dt_names.specs.Inner.Lengths.{spelled_size};
ghost use Rattle.dt_names.specs.Pieces.{escaped, quoted, spell};
ghost use Rattle.dt_names.specs.Inner.Words.{piece_of, word_pieces};

use crate::left::{AtLeft, EndingLeft};
use crate::list::Listed;
use crate::piece::Piece;
use crate::pieces::next_behind;
use crate::word::{Word, form_len};
use itoa::Buffer;

/// The length of a piece as spelled, at most the greatest 64-bit number.
pub(crate) fn piece_len(piece: &Piece) -> u64
    ensures { result ≡ min (length (spell (piece_of piece.now))) (2 ^ 64 - 1) }
{
    match piece {
        Piece::Lit(text) => text.len() as u64,
        Piece::Form(text) => form_len(text),
        Piece::Str(text) => quoted_len(text),
        Piece::Num(n) => Buffer::new().format(*n).len() as u64,
    }
}

// The length of a text as a string literal.
fn quoted_len(text: &[u8]) -> u64
    ensures { result ≡ min (length (quoted text.now)) (2 ^ 64 - 1) }
{
    let mut len: u64 = 2;
    let mut left = text;
    while let Some((byte, rest)) = left.split_first() {
        len = len.saturating_add(escaped_len(*byte));
        left = rest;
    }
    len
}

// The length of a byte in a string literal.
fn escaped_len(byte: u8) -> u64
    ensures { result ≡ length (escaped byte) }
{
    if byte == b'"' || byte == b'\\' {
        2
    } else if 32 <= byte && byte <= 126 {
        1
    } else {
        4
    }
}

#[tactic(auto, using(crate::proofs::Lengths::one_spelled, crate::proofs::Lengths::spells_id))]
// The length of a word as spelled.
fn word_len(word: &Word) -> u64
    ensures { result ≡ spelled_size (word_pieces word.now) }
{
    match word {
        Word::Id(id) => id.len(),
        Word::Name(name) => name.len(),
        Word::One(piece) => piece_len(piece),
    }
}

/// The length of what is left behind an id as spelled, at most the greatest 64-bit number: time in
/// proportion to the number of its words, whatever the lengths of ids and names.
pub(crate) fn behind_len(at: AtLeft, ending: EndingLeft, list: Listed) -> u64
    ensures { result ≡ spelled_size (behind_id at.entry ending.entry list.entry) }
{
    let mut len: u64 = 0;
    let (mut at, mut ending, mut list) = (at, ending, list);
    while let Some(word) = next_behind(&mut at, &mut ending, &mut list) {
        len = len.saturating_add(word_len(&word));
    }
    len
}
