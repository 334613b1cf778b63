//! Nodes of the final tree before their values are bytes.

use edt_base::{Part, Text};
use std::marker::Model;

/// A cell: a number, or the place of a node whose phandle it is, if there is one.
#[derive(Debug, Drop)]
pub enum DraftCell {
    /// A number.
    Num(u32),
    /// A node, by its place.
    Ref(Option<usize>),
}

/// A part of a value: bytes as they were written, cells, or the path of a node.
#[derive(Drop)]
pub enum DraftPart {
    /// Bytes.
    Ready(Part),
    /// Cells.
    Mixed(Vec<DraftCell>),
    /// The path of a node.
    PathTo(Option<usize>),
}

/// A property with its value. Contracts see its name with its parts.
#[derive(Drop)]
pub(crate) struct DraftProp {
    pub(crate) name: Text,
    pub(crate) parts: Vec<DraftPart>,
}

impl Model for DraftProp {
    ghost use Rattle.std.specs.Prelude.{List, ℕ, map};
    ghost use Rattle.dts_tree.specs.Drafts.{DraftPartData};
    ghost use Rattle.dts_tree.specs.Inner.DraftForm.{draft_part_data};

    ghost Value = { List ℕ × List DraftPartData };

    ghost view = { λ p. (p.name, map draft_part_data p.parts.items) };
}

/// A node. Contracts see the plain `DraftData`.
#[derive(Drop)]
pub(crate) struct Draft {
    pub(crate) name: Text,
    pub(crate) path: Text,
    pub(crate) parent: Option<usize>,
    pub(crate) labels: Vec<Text>,
    pub(crate) props: Vec<DraftProp>,
}

impl Model for Draft {
    ghost use Rattle.dts_tree.specs.Drafts.{DraftData};

    ghost Value = { DraftData };

    ghost view = { λ d. record { name = d.name; path = d.path; parent = d.parent; labels = d.labels.items; props = d.props.items } };
}
