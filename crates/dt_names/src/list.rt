//! Bodies, word by word: one piece, visits, ordinals, and values in braces.

ghost use Rattle.std.specs.Prelude.{◌≡◌, ◌∷◌, ◌++◌, [], MatchOption};
ghost use Rattle.dt_names.specs.Facts.{between, visit_end};
ghost use Rattle.edt_base.specs.Nodes.{okay_of, is_okay};
ghost use Rattle.dt_names.specs.Inner.Lists.{listed, things_of, thing_pieces, values_of};
ghost use Rattle.dt_names.specs.Pieces.{lit, num};
ghost use Rattle.dt_names.specs.Inner.Places.{places_in};
ghost use Rattle.dt_names.specs.Inner.Words.{piece_of, word_pieces};
ghost use Rattle.dt_names.specs.declared.list.Listed.TheVariants.{Within};

use crate::piece::{Params, Piece};
use crate::place::Places;
use crate::word::{Id, Name, Word};
use edt_base::{Bound, NodeId, Text};

/// What a body visits.
#[derive(Clone, Copy)]
pub(crate) enum Visited<'a> {
    /// The ids of these nodes.
    Ids(&'a Bound, &'a [NodeId]),
    /// The ids of those of these nodes that are okay.
    OkayIds(&'a Bound, &'a [NodeId]),
    /// The elements of a property: the node's id, the property's name and the place.
    Elems(Id<'a>, Name<'a>, Places),
    /// Numbers.
    Numbers(Places),
    /// The ids of the nodes at these places.
    Nodes(&'a Bound, Places),
    /// The ids of those nodes at these places that are okay.
    OkayNodes(&'a Bound, Places),
}

/// The values in braces.
#[derive(Clone, Copy)]
pub(crate) enum Values<'a> {
    /// Cells.
    Ints(&'a [u32]),
    /// Bytes.
    Bytes(&'a [u8]),
    /// Strings.
    Texts(&'a [Text]),
}

/// A body, or what is left of one.
#[derive(Clone, Copy)]
pub(crate) enum Listed<'a> {
    /// Nothing.
    Nothing,
    /// One piece.
    One(Piece<'a>),
    /// A visit of each thing, as the parameters have it.
    Visits(Params, Visited<'a>),
    /// A visit of a thing, and those behind it.
    Open(Params, Thing<'a>, Visited<'a>),
    /// What is left of a visit behind `fn(`, and those behind it.
    Within(Params, Thing<'a>, Visited<'a>),
    /// The visits behind the first.
    MoreVisits(Params, Visited<'a>),
    /// Ordinals, each with a comma behind it.
    Ords(&'a [u32]),
    /// An ordinal, and those behind it.
    Ord(u32, &'a [u32]),
    /// The comma behind an ordinal, and those behind it.
    Comma(&'a [u32]),
    /// The ordinals behind the first.
    MoreOrds(&'a [u32]),
    /// Values in braces.
    Braces(Values<'a>),
    /// A value, those behind it, and the closing brace.
    Value(Piece<'a>, Values<'a>),
    /// The values behind the first, and the closing brace.
    MoreBraces(Values<'a>),
}

/// What is visited, or what is left of it.
#[derive(Clone, Copy)]
pub(crate) enum Thing<'a> {
    /// The id of a node.
    Id(Id<'a>),
    /// An element of a property.
    Elem(Id<'a>, Name<'a>, usize),
    /// The comma behind an element's node, the property and the place.
    Behind(Name<'a>, usize),
    /// An element's property and its place.
    Named(Name<'a>, usize),
    /// The comma behind an element's property, and the place.
    Placed(usize),
    /// A number.
    Number(usize),
    /// Nothing.
    Nothing,
}

/// The next word of a list, and what is left of it then; None exactly where nothing is left.
pub(crate) fn next_of_list<'a>(list: Listed<'a>) -> Option<(Word<'a>, Listed<'a>)>
    ensures { MatchOption result (listed list.entry ≡ [])
        (λ r. listed list.entry ≡ word_pieces r.0 ++ listed r.1) }
{
    match list {
        Listed::Nothing => None,
        Listed::One(piece) => Some((Word::One(piece), Listed::Nothing)),
        Listed::Visits(params, things) => {
            let (thing, rest) = next_thing(things)?;
            Some((lit("fn("), Listed::Within(params, thing, rest)))
        }
        Listed::Open(params, thing, rest) => {
            Some((lit("fn("), Listed::Within(params, thing, rest)))
        }
        Listed::Within(params, thing, rest) => Some(next_within(params, thing, rest)),
        Listed::MoreVisits(params, things) => {
            let (thing, rest) = next_thing(things)?;
            Some((lit(between(params)), Listed::Open(params, thing, rest)))
        }
        Listed::Ords(ords) => {
            let (ord, rest) = ords.split_first()?;
            Some((num(*ord), Listed::Comma(rest)))
        }
        Listed::Ord(ord, rest) => Some((num(ord), Listed::Comma(rest))),
        Listed::Comma(rest) => Some((lit(","), Listed::MoreOrds(rest))),
        Listed::MoreOrds(ords) => {
            let (ord, rest) = ords.split_first()?;
            Some((lit(" "), Listed::Ord(*ord, rest)))
        }
        Listed::Braces(values) => match next_value(values) {
            Some((value, rest)) => Some((lit("{"), Listed::Value(value, rest))),
            None => Some((lit("{}"), Listed::Nothing)),
        },
        Listed::Value(value, rest) => Some((Word::One(value), Listed::MoreBraces(rest))),
        Listed::MoreBraces(values) => match next_value(values) {
            Some((value, rest)) => Some((lit(", "), Listed::Value(value, rest))),
            None => Some((lit("}"), Listed::Nothing)),
        },
    }
}

fn lit<'a>(text: &'static str) -> Word<'a>
    ensures { word_pieces result ≡ lit text.now ∷ [] }
{
    Word::One(Piece::Lit(text))
}

fn num<'a>(number: u32) -> Word<'a>
    ensures { word_pieces result ≡ num number ∷ [] }
{
    Word::One(Piece::Num(u128::from(number)))
}

// The next word of a visit that is begun, and what is left then.
fn next_within<'a>(params: Params, thing: Thing<'a>, rest: Visited<'a>) -> (Word<'a>, Listed<'a>)
    ensures { listed (Within params thing.entry rest.entry)
        ≡ word_pieces result.0 ++ listed result.1 }
{
    match next_of_thing(thing) {
        Some((word, left)) => (word, Listed::Within(params, left, rest)),
        None => (lit(visit_end(params)), Listed::MoreVisits(params, rest)),
    }
}

// The next word of a thing, and what is left of it then.
fn next_of_thing<'a>(thing: Thing<'a>) -> Option<(Word<'a>, Thing<'a>)>
    ensures { MatchOption result (thing_pieces thing.entry ≡ [])
        (λ r. thing_pieces thing.entry ≡ word_pieces r.0 ++ thing_pieces r.1) }
{
    match thing {
        Thing::Id(id) => Some((Word::Id(id), Thing::Nothing)),
        Thing::Elem(id, name, place) => Some((Word::Id(id), Thing::Behind(name, place))),
        Thing::Behind(name, place) => Some((lit(", "), Thing::Named(name, place))),
        Thing::Named(name, place) => Some((Word::Name(name), Thing::Placed(place))),
        Thing::Placed(place) => Some((lit(", "), Thing::Number(place))),
        Thing::Number(number) => { Some((Word::One(Piece::Num(number as u128)), Thing::Nothing)) }
        Thing::Nothing => None,
    }
}

// What closes a visit.
fn visit_end(params: Params) -> &'static str
    ensures { result.now ≡ visit_end params }
{
    match params {
        Params::FnVargs => ", __VA_ARGS__)",
        _ => ")",
    }
}

// What parts two visits.
fn between(params: Params) -> &'static str
    ensures { result.now ≡ between params }
{
    match params {
        Params::FnSep => " DT_DEBRACKET_INTERNAL sep ",
        _ => " ",
    }
}

// The next of the things to visit, and those behind it.
fn next_thing<'a>(things: Visited<'a>) -> Option<(Thing<'a>, Visited<'a>)>
    ensures { MatchOption result (things_of things.entry ≡ [])
        (λ r. things_of things.entry ≡ thing_pieces r.0 ∷ things_of r.1) }
{
    match things {
        Visited::Ids(bound, ids) => {
            let (id, rest) = ids.split_first()?;
            Some((
                Thing::Id(Id::of(bound, id.0 as usize)),
                Visited::Ids(bound, rest),
            ))
        }
        Visited::OkayIds(bound, ids) => {
            let (id, rest) = next_okay(bound, ids)?;
            Some((Thing::Id(Id::of(bound, id)), Visited::OkayIds(bound, rest)))
        }
        Visited::Elems(id, name, places) => {
            let (place, rest) = places.split_first()?;
            Some((Thing::Elem(id, name, place), Visited::Elems(id, name, rest)))
        }
        Visited::Numbers(places) => {
            let (place, rest) = places.split_first()?;
            Some((Thing::Number(place), Visited::Numbers(rest)))
        }
        Visited::Nodes(bound, places) => {
            let (place, rest) = places.split_first()?;
            Some((Thing::Id(Id::of(bound, place)), Visited::Nodes(bound, rest)))
        }
        Visited::OkayNodes(bound, places) => {
            let (place, rest) = next_okay_place(bound, places)?;
            Some((
                Thing::Id(Id::of(bound, place)),
                Visited::OkayNodes(bound, rest),
            ))
        }
    }
}

// Whether the node at a place is okay.
fn is_okay(bound: &Bound, node: usize) -> bool
    ensures { result ≡ is_okay bound.now.tree.nodes node }
{
    match bound.tree.nodes().get(node) {
        Some(node) => node.status.as_str() == "okay",
        None => false,
    }
}

// The first of these nodes that is okay, and those after it.
fn next_okay<'a>(bound: &Bound, ids: &'a [NodeId]) -> Option<(usize, &'a [NodeId])>
    ensures { MatchOption result (okay_of bound.now.tree.nodes ids.now ≡ [])
        (λ r. okay_of bound.now.tree.nodes ids.now ≡ r.0 ∷ okay_of bound.now.tree.nodes r.1.now) }
{
    match bound.tree.next_okay(ids) {
        Some((id, rest)) => Some((id.0 as usize, rest)),
        None => None,
    }
}

// The first of these places whose node is okay, and those behind it.
fn next_okay_place(bound: &Bound, places: Places) -> Option<(usize, Places)>
    ensures { MatchOption result (okay_of bound.now.tree.nodes (places_in places) ≡ [])
        (λ r. okay_of bound.now.tree.nodes (places_in places)
        ≡ r.0 ∷ okay_of bound.now.tree.nodes (places_in r.1)) }
{
    let mut left = places;
    while let Some((place, rest)) = left.split_first() {
        if is_okay(bound, place) {
            return Some((place, rest));
        }
        left = rest;
    }
    None
}

// The next value, and those behind it.
fn next_value<'a>(values: Values<'a>) -> Option<(Piece<'a>, Values<'a>)>
    ensures { MatchOption result (values_of values.entry ≡ [])
        (λ r. values_of values.entry ≡ piece_of r.0 ∷ values_of r.1) }
{
    match values {
        Values::Ints(ints) => {
            let (int, rest) = ints.split_first()?;
            Some((Piece::Num(u128::from(*int)), Values::Ints(rest)))
        }
        Values::Bytes(bytes) => {
            let (byte, rest) = bytes.split_first()?;
            Some((Piece::Num(u128::from(*byte)), Values::Bytes(rest)))
        }
        Values::Texts(texts) => {
            let (text, rest) = texts.split_first()?;
            Some((Piece::Str(text.as_str().as_bytes()), Values::Texts(rest)))
        }
    }
}
