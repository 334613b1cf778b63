//! The words of names and bodies.

ghost use Rattle.std.specs.Prelude.{◌≡◌, ◌+◌, ◌-◌, ◌^◌, length, min};
ghost use Rattle.edt_base.specs.Nodes.{path_at};
ghost use Rattle.edt_base.specs.Forms.{form_of};
ghost use Rattle.edt_base.specs.Ids.{id_size};

use crate::piece::Piece;
use edt_base::{Bound, NodeId};

/// The id of a node, whose length is known.
#[derive(Clone, Copy)]
pub(crate) struct Id<'a> {
    /// The node's path.
    pub(crate) path: &'a [u8],
    len: u64,
    ghost counted: { len ≡ id_size path.now },
}

impl<'a> Id<'a> {
    #[tactic(auto, unfolding(edt_base::specs::Ids::id_text))]
    /// The id of the node at a place, that of an empty path past the nodes. Takes constant time.
    pub(crate) fn of(bound: &'a Bound, node: usize) -> Id<'a>
        ensures { result.path.now ≡ path_at bound.now.tree.nodes node }
    {
        bound.tree.is_well_formed();
        let Some(found) = bound.tree.nodes().get(node) else {
            return Id { path: &[], len: 4 };
        };
        let len = bound.id_len(NodeId(node as u32));
        Id {
            path: found.path.as_str().as_bytes(),
            len,
        }
    }

    /// The length of the id as spelled, at most the greatest 64-bit number.
    pub(crate) fn len(&self) -> u64
        ensures { result ≡ id_size self.now.path.now }
    {
        self.len
    }
}

/// The name of a property or an entry, whose form's length is known: a name can be long, and stands
/// in the definitions of each element or cell.
#[derive(Clone, Copy)]
pub(crate) struct Name<'a> {
    /// The name.
    pub(crate) text: &'a [u8],
    len: u64,
    ghost counted: { len ≡ min (length (form_of text.now)) (2 ^ 64 - 1) },
}

impl<'a> Name<'a> {
    /// The name, its form counted once.
    pub(crate) fn new(text: &'a [u8]) -> Name<'a>
        ensures { result.text.now ≡ text.now }
    {
        Name {
            text,
            len: form_len(text),
        }
    }

    /// The length of the name's form, at most the greatest 64-bit number.
    pub(crate) fn len(&self) -> u64
        ensures { result ≡ min (length (form_of self.now.text.now)) (2 ^ 64 - 1) }
    {
        self.len
    }
}

#[tactic(auto, unfolding(edt_base::specs::Forms::form_of))]
/// The length of a text's form, at most the greatest 64-bit number.
pub(crate) fn form_len(text: &[u8]) -> u64
    ensures { result ≡ min (length (form_of text.now)) (2 ^ 64 - 1) }
{
    let mut len: u64 = 0;
    let mut left = text;
    while let Some((byte, rest)) = left.split_first() {
        if *byte < 128 || *byte >= 192 {
            len = len.saturating_add(1);
        }
        left = rest;
    }
    len
}

/// A word of a name or a body.
#[derive(Clone, Copy)]
pub(crate) enum Word<'a> {
    /// The id of a node.
    Id(Id<'a>),
    /// The form of a property's name.
    Name(Name<'a>),
    /// One piece.
    One(Piece<'a>),
}
