//! What a name has behind its id, and its parts.

ghost use Rattle.std.specs.Prelude.{◌≡◌, ◌∷◌, ◌++◌, [], MatchOption, codes, drop, false, take, true};
ghost use Rattle.dt_names.specs.Inner.Keys.{IsParted, behind_prop, is_of_prop};
ghost use Rattle.dt_names.specs.Inner.Rows.{at_pieces, ending_pieces, tail_pieces};

use crate::row::{At, Ending};

/// What a name has behind its id: what it speaks of, and how it ends.
#[derive(Clone, Copy)]
pub(crate) struct Tail<'a> {
    pub(crate) at: At<'a>,
    pub(crate) ending: Ending<'a>,
}

impl<'a> Tail<'a> {
    /// What it speaks of, with nothing more.
    fn at(at: At<'a>) -> Tail<'a>
        ensures { tail_pieces result ≡ at_pieces at.entry ++ [] }
    {
        Tail {
            at,
            ending: Ending::Nothing,
        }
    }

    /// An ending alone.
    fn ending(ending: Ending<'a>) -> Tail<'a>
        ensures { tail_pieces result ≡ ending_pieces ending.entry }
    {
        Tail {
            at: At::Itself,
            ending,
        }
    }
}

/// Where a name speaks of a property: what it says of this, and what is behind it.
pub(crate) fn of_prop<'a>(tail: Tail<'a>) -> Option<(Tail<'a>, Tail<'a>)>
    ensures { MatchOption result (is_of_prop (tail_pieces tail.entry) ≡ false)
        (λ r. IsParted (tail_pieces tail.entry) (tail_pieces r.0) (tail_pieces r.1)) }
{
    let ending = tail.ending;
    match tail.at {
        At::Itself => word_of_prop(ending),
        At::Nth(_, _) => None,
        At::Named(mark, name) => {
            if mark != "_P_" {
                return None;
            }
            Some((Tail::at(At::Named(mark, name)), Tail::ending(ending)))
        }
        At::Prop(name) => Some((Tail::at(At::Prop(name)), Tail::ending(ending))),
        At::Elem(name, place) => {
            let at = At::Nth("_IDX_", place);
            Some((Tail::at(At::Prop(name)), Tail { at, ending }))
        }
        At::Entry(name, entry) => {
            let at = At::Named("_NAME_", entry);
            Some((Tail::at(At::Prop(name)), Tail { at, ending }))
        }
    }
}

// The same of the ending of a name that says nothing before it.
fn word_of_prop<'a>(ending: Ending<'a>) -> Option<(Tail<'a>, Tail<'a>)>
    ensures { MatchOption result (is_of_prop (ending_pieces ending.entry) ≡ false)
        (λ r. IsParted (ending_pieces ending.entry) (tail_pieces r.0) (tail_pieces r.1)) }
{
    let (mark, word, behind) = match ending {
        Ending::Word(mark, word) => (mark, word, Ending::Nothing),
        Ending::Between(mark, word, after) => (mark, word, Ending::Mark(after)),
        _ => return None,
    };
    if mark != "_P_" {
        return None;
    }
    Some((Tail::ending(Ending::Word(mark, word)), Tail::ending(behind)))
}

/// What is behind the property, where the name speaks of one; else all of it.
pub(crate) fn behind_prop<'a>(tail: Tail<'a>) -> Tail<'a>
    ensures { tail_pieces result ≡ behind_prop (tail_pieces tail.entry) }
{
    match of_prop(tail) {
        Some((_, behind)) => behind,
        None => tail,
    }
}

/// The first two pieces, which tell the entry where the name speaks of one, and the others.
pub(crate) fn split_entry<'a>(tail: Tail<'a>) -> (Tail<'a>, Tail<'a>)
    ensures entry { tail_pieces result.0 ≡ take 2 (tail_pieces tail.entry) }
    ensures others { tail_pieces result.1 ≡ drop 2 (tail_pieces tail.entry) }
{
    let ending = tail.ending;
    match tail.at {
        At::Itself => split_ending(ending),
        At::Nth(mark, place) => (Tail::at(At::Nth(mark, place)), Tail::ending(ending)),
        At::Named(mark, name) => (Tail::at(At::Named(mark, name)), Tail::ending(ending)),
        At::Prop(name) => (Tail::at(At::Prop(name)), Tail::ending(ending)),
        At::Elem(name, place) => {
            let at = At::Nth("_IDX_", place);
            (Tail::at(At::Prop(name)), Tail { at, ending })
        }
        At::Entry(name, entry) => {
            let at = At::Named("_NAME_", entry);
            (Tail::at(At::Prop(name)), Tail { at, ending })
        }
    }
}

// The same of the ending of a name that says nothing before it.
fn split_ending<'a>(ending: Ending<'a>) -> (Tail<'a>, Tail<'a>)
    ensures entry { tail_pieces result.0 ≡ take 2 (ending_pieces ending.entry) }
    ensures others { tail_pieces result.1 ≡ drop 2 (ending_pieces ending.entry) }
{
    match ending {
        Ending::Between(mark, word, after) => (
            Tail::ending(Ending::Word(mark, word)),
            Tail::ending(Ending::Mark(after)),
        ),
        Ending::Nothing => (Tail::ending(ending), Tail::ending(Ending::Nothing)),
        Ending::Mark(_) => (Tail::ending(ending), Tail::ending(Ending::Nothing)),
        Ending::Marks(_, _) => (Tail::ending(ending), Tail::ending(Ending::Nothing)),
        Ending::Word(_, _) => (Tail::ending(ending), Tail::ending(Ending::Nothing)),
    }
}
