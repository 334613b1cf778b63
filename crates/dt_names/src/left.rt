//! What is left of a name behind its id: of what it speaks of, and of how it ends.

ghost use Rattle.std.specs.Prelude.{◌≡◌, ◌∷◌, ◌++◌, [], MatchOption};
ghost use Rattle.dt_names.specs.Inner.Left.{at_left, ending_left};
ghost use Rattle.dt_names.specs.Inner.Rows.{at_pieces};
ghost use Rattle.dt_names.specs.Inner.Words.{word_pieces};

use crate::piece::Piece;
use crate::row::{At, Ending};
use crate::word::{Name, Word};

/// What is left of what a name speaks of.
#[derive(Clone, Copy)]
pub(crate) enum AtLeft<'a> {
    /// All of this.
    Whole(At<'a>),
    /// A number.
    Number(usize),
    /// The form of a name.
    Form(Name<'a>),
    /// The form of a property's name, and the place of an element.
    Elem(Name<'a>, usize),
    /// The form of a property's name, and the name of an entry.
    Entry(Name<'a>, Name<'a>),
}

/// What is left of how a name ends.
#[derive(Clone, Copy)]
pub(crate) enum EndingLeft<'a> {
    /// All of this.
    Whole(Ending<'a>),
    /// The form of a word.
    Form(&'a [u8]),
    /// The form of a word, and a marker.
    FormMark(&'a [u8], &'static str),
}

#[inline(always)]
/// Takes the next word of what a name speaks of; None exactly where nothing is left.
pub(crate) fn next_at<'a>(left: &mut AtLeft<'a>) -> Option<Word<'a>>
    ensures { MatchOption result ((at_left left.old ≡ []) × (at_left left.new ≡ []))
        (λ w. at_left left.old ≡ word_pieces w ++ at_left left.new) }
{
    match *left {
        AtLeft::Whole(at) => begin_at(left, at),
        AtLeft::Number(number) => {
            *left = AtLeft::Whole(At::Itself);
            Some(Word::One(Piece::Num(number as u128)))
        }
        AtLeft::Form(name) => {
            *left = AtLeft::Whole(At::Itself);
            Some(Word::Name(name))
        }
        AtLeft::Elem(name, place) => {
            *left = AtLeft::Whole(At::Nth("_IDX_", place));
            Some(Word::Name(name))
        }
        AtLeft::Entry(name, entry) => {
            *left = AtLeft::Whole(At::Named("_NAME_", entry));
            Some(Word::Name(name))
        }
    }
}

#[inline(always)]
// The same where all of it is left.
fn begin_at<'a>(left: &mut AtLeft<'a>, at: At<'a>) -> Option<Word<'a>>
    requires { at_left left.old ≡ at_pieces at }
    ensures { MatchOption result ((at_pieces at.entry ≡ []) × (at_left left.new ≡ []))
        (λ w. at_pieces at.entry ≡ word_pieces w ++ at_left left.new) }
{
    match at {
        At::Itself => None,
        At::Nth(mark, place) => {
            *left = AtLeft::Number(place);
            Some(Word::One(Piece::Lit(mark)))
        }
        At::Named(mark, name) => {
            *left = AtLeft::Form(name);
            Some(Word::One(Piece::Lit(mark)))
        }
        At::Prop(name) => {
            *left = AtLeft::Form(name);
            Some(Word::One(Piece::Lit("_P_")))
        }
        At::Elem(name, place) => {
            *left = AtLeft::Elem(name, place);
            Some(Word::One(Piece::Lit("_P_")))
        }
        At::Entry(name, entry) => {
            *left = AtLeft::Entry(name, entry);
            Some(Word::One(Piece::Lit("_P_")))
        }
    }
}

#[inline(always)]
/// Takes the next word of how a name ends; None exactly where nothing is left.
pub(crate) fn next_ending<'a>(left: &mut EndingLeft<'a>) -> Option<Word<'a>>
    ensures { MatchOption result ((ending_left left.old ≡ []) × (ending_left left.new ≡ []))
        (λ w. ending_left left.old ≡ word_pieces w ++ ending_left left.new) }
{
    match *left {
        EndingLeft::Whole(Ending::Nothing) => None,
        EndingLeft::Whole(Ending::Mark(mark)) => {
            *left = EndingLeft::Whole(Ending::Nothing);
            Some(Word::One(Piece::Lit(mark)))
        }
        EndingLeft::Whole(Ending::Marks(mark, after)) => {
            *left = EndingLeft::Whole(Ending::Mark(after));
            Some(Word::One(Piece::Lit(mark)))
        }
        EndingLeft::Whole(Ending::Word(mark, word)) => {
            *left = EndingLeft::Form(word);
            Some(Word::One(Piece::Lit(mark)))
        }
        EndingLeft::Whole(Ending::Between(mark, word, after)) => {
            *left = EndingLeft::FormMark(word, after);
            Some(Word::One(Piece::Lit(mark)))
        }
        EndingLeft::Form(word) => {
            *left = EndingLeft::Whole(Ending::Nothing);
            Some(Word::One(Piece::Form(word)))
        }
        EndingLeft::FormMark(word, after) => {
            *left = EndingLeft::Whole(Ending::Mark(after));
            Some(Word::One(Piece::Form(word)))
        }
    }
}
