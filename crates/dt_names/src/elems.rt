//! The elements of a property.

ghost use Rattle.std.specs.Prelude.{◌≡◌, ◌∷◌, [], MatchOption, length};
ghost use Rattle.dt_names.specs.Inner.Elems.{element, elements_left, count_left};
ghost use Rattle.dt_names.specs.Facts.{elements, elem_count};

use crate::piece::Piece;
use edt_base::{Entry, NodeId, Prop, PropType, Text, Val};

/// An element of a property.
#[derive(Clone, Copy)]
pub(crate) enum Elem<'a> {
    /// A number or a string.
    Item(Piece<'a>),
    /// A node.
    Node(usize),
    /// An entry of a phandle-array.
    Entry(&'a Option<Entry>),
}

/// The elements of a property that are left.
#[derive(Clone, Copy)]
pub(crate) enum Elems<'a> {
    /// None: the type has no elements, or none is left.
    Nothing,
    /// The text of a string.
    Text(&'a [u8]),
    /// Cells.
    Ints(&'a [u32]),
    /// Bytes.
    Bytes(&'a [u8]),
    /// Strings.
    Texts(&'a [Text]),
    /// The node of a phandle.
    Node(usize),
    /// Nodes.
    Nodes(&'a [NodeId]),
    /// The entries of a phandle-array.
    Entries(&'a [Option<Entry>]),
}

/// The elements of a property.
pub(crate) fn elems_of(prop: &Prop) -> Elems<'_>
    ensures elements { elements_left result ≡ elements prop.now.ty prop.now.val }
    ensures count { count_left result ≡ elem_count prop.now.ty prop.now.val }
{
    match &prop.val {
        Val::Bool(_) => Elems::Nothing,
        Val::Int(_) => Elems::Nothing,
        Val::Ints(ints) => Elems::Ints(ints.as_slice()),
        Val::U8s(bytes) => Elems::Bytes(bytes.as_slice()),
        Val::Str(text) => Elems::Text(text.as_str().as_bytes()),
        Val::Strs(texts) => Elems::Texts(texts.as_slice()),
        Val::Node(node) => match prop.ty {
            PropType::Phandle => Elems::Node(node.0 as usize),
            _ => Elems::Nothing,
        },
        Val::Nodes(nodes) => Elems::Nodes(nodes.as_slice()),
        Val::Entries(entries) => Elems::Entries(entries.as_slice()),
        Val::Compound => Elems::Nothing,
    }
}

/// How many elements there are, where the type has elements.
pub(crate) fn elem_count(elems: Elems<'_>) -> Option<usize>
    ensures { result ≡ count_left elems.entry }
{
    match elems {
        Elems::Nothing => None,
        Elems::Text(_) => Some(1),
        Elems::Ints(ints) => Some(ints.len()),
        Elems::Bytes(bytes) => Some(bytes.len()),
        Elems::Texts(texts) => Some(texts.len()),
        Elems::Node(_) => Some(1),
        Elems::Nodes(nodes) => Some(nodes.len()),
        Elems::Entries(entries) => Some(entries.len()),
    }
}

/// How many elements are left.
pub(crate) fn elems_len(elems: Elems<'_>) -> usize
    ensures { result ≡ length (elements_left elems.entry) }
{
    match elems {
        Elems::Nothing => 0,
        Elems::Text(_) => 1,
        Elems::Ints(ints) => ints.len(),
        Elems::Bytes(bytes) => bytes.len(),
        Elems::Texts(texts) => texts.len(),
        Elems::Node(_) => 1,
        Elems::Nodes(nodes) => nodes.len(),
        Elems::Entries(entries) => entries.len(),
    }
}

/// The next element, and what is left behind it.
pub(crate) fn next_elem<'a>(elems: Elems<'a>) -> Option<(Elem<'a>, Elems<'a>)>
    ensures { MatchOption result (elements_left elems.entry ≡ [])
        (λ r. elements_left elems.entry ≡ element r.0 ∷ elements_left r.1) }
{
    match elems {
        Elems::Nothing => None,
        Elems::Text(text) => Some((Elem::Item(Piece::Str(text)), Elems::Nothing)),
        Elems::Ints(ints) => {
            let (int, rest) = ints.split_first()?;
            Some((Elem::Item(Piece::Num(*int as u128)), Elems::Ints(rest)))
        }
        Elems::Bytes(bytes) => {
            let (byte, rest) = bytes.split_first()?;
            Some((Elem::Item(Piece::Num(*byte as u128)), Elems::Bytes(rest)))
        }
        Elems::Texts(texts) => {
            let (text, rest) = texts.split_first()?;
            Some((
                Elem::Item(Piece::Str(text.as_str().as_bytes())),
                Elems::Texts(rest),
            ))
        }
        Elems::Node(node) => Some((Elem::Node(node), Elems::Nothing)),
        Elems::Nodes(nodes) => {
            let (node, rest) = nodes.split_first()?;
            Some((Elem::Node(node.0 as usize), Elems::Nodes(rest)))
        }
        Elems::Entries(entries) => {
            let (entry, rest) = entries.split_first()?;
            Some((Elem::Entry(entry), Elems::Entries(rest)))
        }
    }
}
