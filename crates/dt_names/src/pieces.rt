//! The pieces of a name or a body, one by one.

ghost use Rattle.std.specs.Prelude.{◌≡◌, ◌∷◌, ◌++◌, [], MatchOption, codes};
ghost use Rattle.dt_names.specs.Facts.{id_pieces, name_first, names_pieces};
ghost use Rattle.dt_names.specs.Inner.Ids.{id_left};
ghost use Rattle.dt_names.specs.Inner.Left.{behind_id};
ghost use Rattle.dt_names.specs.Inner.Lengths.{spelled_size};
ghost use Rattle.dt_names.specs.Inner.Lists.{listed};
ghost use Rattle.dt_names.specs.Pieces.{lit, form};
ghost use Rattle.dt_names.specs.Inner.Rows.{tail_pieces};
ghost use Rattle.dt_names.specs.Inner.Words.{piece_of, word_pieces};

use crate::left::{AtLeft, EndingLeft, next_at, next_ending};
use crate::length::{behind_len, piece_len};
use crate::list::{Listed, next_of_list};
use crate::piece::Piece;
use crate::row::{At, Ending};
use crate::tail::Tail;
use crate::word::{Id, Word};
use std::marker::Model;

/// What is left of an id.
#[derive(Clone, Copy)]
enum IdLeft<'a> {
    /// All of this.
    Whole(Id<'a>),
    /// The names on what is left of the path.
    Names(&'a [u8]),
    /// A name's form, and the names behind it.
    Name(&'a [u8], &'a [u8]),
}

/// The pieces of a name or a body that are still to come. Contracts see the list of them.
#[derive(Drop)]
pub struct Pieces<'a> {
    id: IdLeft<'a>,
    at: AtLeft<'a>,
    ending: EndingLeft<'a>,
    list: Listed<'a>,
}

impl<'a> Model for Pieces<'a> {
    ghost use Rattle.std.specs.Prelude.{◌++◌, List};
    ghost use Rattle.dt_names.specs.Inner.Ids.{id_left};
    ghost use Rattle.dt_names.specs.Inner.Left.{behind_id};
    ghost use Rattle.dt_names.specs.Pieces.{PieceData};

    ghost Value = { List PieceData };

    ghost view = { λ s. id_left s.id ++ behind_id s.at s.ending s.list };
}

impl<'a> Pieces<'a> {
    /// The pieces of a name that begins with an id.
    pub(crate) fn of_name(id: Id<'a>, tail: Tail<'a>) -> Pieces<'a>
        ensures { result ≡ id_pieces id.entry.path.now ++ tail_pieces tail.entry }
    {
        Pieces {
            id: IdLeft::Whole(id),
            at: AtLeft::Whole(tail.at),
            ending: EndingLeft::Whole(tail.ending),
            list: Listed::Nothing,
        }
    }

    /// The pieces of a name without an id, or of a part of one.
    pub(crate) fn of_tail(tail: Tail<'a>) -> Pieces<'a>
        ensures { result ≡ tail_pieces tail.entry }
    {
        Pieces {
            id: IdLeft::Names(&[]),
            at: AtLeft::Whole(tail.at),
            ending: EndingLeft::Whole(tail.ending),
            list: Listed::Nothing,
        }
    }

    /// The pieces of an id.
    pub(crate) fn of_id(id: Id<'a>) -> Pieces<'a>
        ensures { result ≡ id_pieces id.entry.path.now }
    {
        Pieces {
            id: IdLeft::Whole(id),
            at: AtLeft::Whole(At::Itself),
            ending: EndingLeft::Whole(Ending::Nothing),
            list: Listed::Nothing,
        }
    }

    /// The pieces of a list.
    pub(crate) fn of_list(list: Listed<'a>) -> Pieces<'a>
        ensures { result ≡ listed list.entry }
    {
        Pieces {
            id: IdLeft::Names(&[]),
            at: AtLeft::Whole(At::Itself),
            ending: EndingLeft::Whole(Ending::Nothing),
            list,
        }
    }

    #[inline(always)]
    /// The next piece; None exactly after the last. Takes no memory.
    pub fn next(&mut self) -> Option<Piece<'a>>
        ensures { MatchOption result ((self.old ≡ []) × (self.new ≡ []))
            (λ p. self.old ≡ piece_of p ∷ self.new) }
    {
        if let Some(piece) = next_of_id(&mut self.id) {
            return Some(piece);
        }
        let word = next_behind(&mut self.at, &mut self.ending, &mut self.list)?;
        let (piece, left) = begun(word);
        self.id = left;
        Some(piece)
    }

    /// How long the pieces are as spelled one behind the other, at most the greatest 64-bit number.
    /// Doesn't walk the bytes of ids and of the names of properties and entries. Takes no memory.
    pub fn spelled_len(&self) -> u64
        ensures { result ≡ spelled_size self.now }
    {
        id_left_len(self.id).saturating_add(behind_len(self.at, self.ending, self.list))
    }
}

#[inline(always)]
/// Takes the next word of what is left behind an id; None exactly where nothing is left.
pub(crate) fn next_behind<'a>(
    at: &mut AtLeft<'a>,
    ending: &mut EndingLeft<'a>,
    list: &mut Listed<'a>,
) -> Option<Word<'a>>
    ensures { MatchOption result ((behind_id at.old ending.old list.old ≡ [])
        × (behind_id at.new ending.new list.new ≡ []))
        (λ w. behind_id at.old ending.old list.old
        ≡ word_pieces w ++ behind_id at.new ending.new list.new) }
{
    if let Some(word) = next_at(at) {
        return Some(word);
    }
    if let Some(word) = next_ending(ending) {
        return Some(word);
    }
    match *list {
        Listed::Nothing => None,
        Listed::One(piece) => {
            *list = Listed::Nothing;
            Some(Word::One(piece))
        }
        _ => {
            let (word, left) = next_of_list(*list)?;
            *list = left;
            Some(word)
        }
    }
}

#[tactic(auto, using(crate::proofs::Lengths::spells_id))]
// The length of what is left of an id.
fn id_left_len(id: IdLeft) -> u64
    ensures { result ≡ spelled_size (id_left id.entry) }
{
    match id {
        IdLeft::Whole(id) => id.len(),
        _ => names_len(id),
    }
}

// The same, name by name.
fn names_len(id: IdLeft) -> u64
    ensures { result ≡ spelled_size (id_left id.entry) }
{
    let mut len: u64 = 0;
    let mut left = id;
    while let Some(piece) = next_of_id(&mut left) {
        len = len.saturating_add(piece_len(&piece));
    }
    len
}

#[inline(always)]
// The first piece of a word, and what is left of it.
fn begun<'a>(word: Word<'a>) -> (Piece<'a>, IdLeft<'a>)
    ensures { word_pieces word.entry ≡ piece_of result.0 ∷ id_left result.1 }
{
    match word {
        Word::Id(id) => (Piece::Lit("DT_N"), IdLeft::Names(id.path)),
        Word::Name(name) => (Piece::Form(name.text), IdLeft::Names(&[])),
        Word::One(piece) => (piece, IdLeft::Names(&[])),
    }
}

#[inline(always)]
// Takes the next piece of an id; None exactly where nothing is left.
fn next_of_id<'a>(left: &mut IdLeft<'a>) -> Option<Piece<'a>>
    ensures { MatchOption result ((id_left left.old ≡ []) × (id_left left.new ≡ []))
        (λ p. id_left left.old ≡ piece_of p ∷ id_left left.new) }
{
    match *left {
        IdLeft::Whole(id) => {
            *left = IdLeft::Names(id.path);
            Some(Piece::Lit("DT_N"))
        }
        IdLeft::Names(path) => {
            let (name, rest) = next_name(path)?;
            *left = IdLeft::Name(name, rest);
            Some(Piece::Lit("_S_"))
        }
        IdLeft::Name(name, rest) => {
            *left = IdLeft::Names(rest);
            Some(Piece::Form(name))
        }
    }
}

// The next name on a path, and what is left of the path behind it.
fn next_name<'a>(path: &'a [u8]) -> Option<(&'a [u8], &'a [u8])>
    ensures { MatchOption result (names_pieces path.now ≡ [])
        (λ r. names_pieces path.now ≡ lit (codes "_S_") ∷ form r.0.now ∷ names_pieces r.1.now) }
{
    let mut left = path;
    while let Some((byte, rest)) = left.split_first() {
        left = rest;
        if *byte == b'/' {
            let (name, behind) = first_name(rest);
            if !name.is_empty() {
                return Some((name, behind));
            }
        }
    }
    None
}

// What stands before the first `/`, and the rest.
fn first_name<'a>(text: &'a [u8]) -> (&'a [u8], &'a [u8])
    ensures name { result.0.now ≡ name_first text.now }
    ensures rest { names_pieces result.1.now ≡ names_pieces text.now }
{
    for (place, byte) in text.iter().enumerate() {
        if *byte == b'/' {
            return (&text[..place], &text[place..]);
        }
    }
    (text, &[])
}
