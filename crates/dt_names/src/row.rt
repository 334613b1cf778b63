//! A row of the table of definitions at what it speaks of, as plain data: the shape of its name,
//! and its body. What it stands for is `fact_of` in `specs/Rows.antt`.

use crate::list::Values;
use crate::piece::{Params, Piece};
use crate::word::Name;
use edt_base::NodeId;

/// What a name says behind the id of the node, or at its front where it has no id.
#[derive(Clone, Copy)]
pub(crate) enum At<'a> {
    /// Nothing: it speaks of the node itself.
    Itself,
    /// A marker and a number.
    Nth(&'static str, usize),
    /// A marker and the form of a name.
    Named(&'static str, Name<'a>),
    /// A property.
    Prop(Name<'a>),
    /// An element of a property, by its place.
    Elem(Name<'a>, usize),
    /// An entry of a property, by its name.
    Entry(Name<'a>, Name<'a>),
}

/// How a name ends.
#[derive(Clone, Copy)]
pub(crate) enum Ending<'a> {
    /// With nothing more.
    Nothing,
    /// With a marker.
    Mark(&'static str),
    /// With two markers.
    Marks(&'static str, &'static str),
    /// With a marker and the form of a word.
    Word(&'static str, &'a [u8]),
    /// With the form of a word between two markers.
    Between(&'static str, &'a [u8], &'static str),
}

/// A body.
#[derive(Clone, Copy)]
pub(crate) enum Body<'a> {
    /// One piece.
    One(Piece<'a>),
    /// The id of the node at a place.
    Id(usize),
    /// Ordinals.
    Ords(&'a [u32]),
    /// Values in braces.
    Braces(Values<'a>),
    /// A visit of each thing, as the parameters have it.
    Visits(Things<'a>),
}

/// What a body visits.
#[derive(Clone, Copy)]
pub(crate) enum Things<'a> {
    /// The ids of these nodes.
    Ids(&'a [NodeId]),
    /// The ids of those of these nodes that are okay.
    OkayIds(&'a [NodeId]),
    /// So many elements of a property.
    Elems(Name<'a>, usize),
    /// So many numbers.
    Numbers(usize),
    /// The ids of all nodes.
    Nodes,
    /// The ids of all nodes that are okay.
    OkayNodes,
}

/// A row: a definition of the node `owner`.
#[derive(Clone, Copy)]
pub(crate) struct Row<'a> {
    pub(crate) owner: u32,
    /// The name has no id: the definition is one of the tree.
    pub(crate) of_tree: bool,
    /// The definition is on the entry that the one before it is on.
    pub(crate) goes_on: bool,
    pub(crate) at: At<'a>,
    pub(crate) ending: Ending<'a>,
    pub(crate) params: Params,
    pub(crate) body: Body<'a>,
}
