//! Definitions that stand together, and what they speak of.

ghost use Rattle.std.specs.Prelude.{◌≡◌, ◌∷◌, [], unwrap_or, MatchBool};
ghost use Rattle.dt_names.specs.declared.section.Of.TheVariants.{Nothing};

use crate::fact::Fact;
use crate::node_rows::TitledHead;
use crate::prop_rows::PropRows;
use crate::tree_rows::TitledTree;
use crate::word::Id;
use std::marker::Model;

/// What definitions speak of.
#[derive(Clone, Copy)]
pub(crate) enum Of<'a> {
    /// A node of this id.
    Node(Id<'a>),
    /// A property of this name, of the node of the definitions before.
    Prop(&'a [u8]),
    /// The tree.
    Tree,
    /// Nothing: there are none.
    Nothing,
}

/// The rows of definitions that stand together.
#[derive(Drop)]
pub(crate) enum Kind<'a> {
    /// Those of a node before its properties.
    Head(TitledHead<'a>),
    /// Those on a property.
    Prop(PropRows<'a>),
    /// Those of the tree.
    Tree(TitledTree<'a>),
    /// None.
    Nothing,
}

/// Definitions that stand together and are left. Contracts see the list of them.
#[derive(Drop)]
pub(crate) struct Rows<'a> {
    kind: Kind<'a>,
}

impl<'a> Model for Rows<'a> {
    ghost use Rattle.std.specs.Prelude.{List};
    ghost use Rattle.dt_names.specs.Facts.{FactData};
    ghost use Rattle.dt_names.specs.Inner.Parts.{rows_in};

    ghost Value = { List FactData };

    ghost view = { λ s. rows_in s.kind };
}

impl<'a> Rows<'a> {
    /// No definitions.
    pub(crate) fn none() -> Rows<'a>
        ensures { result ≡ [] }
    {
        Rows {
            kind: Kind::Nothing,
        }
    }

    /// Those of a node before its properties, where it has some.
    pub(crate) fn head(rows: Option<TitledHead<'a>>) -> Rows<'a>
        ensures { result ≡ unwrap_or rows.entry [] }
    {
        match rows {
            Some(rows) => Rows {
                kind: Kind::Head(rows),
            },
            None => Rows::none(),
        }
    }

    /// Those on a property.
    pub(crate) fn prop(rows: PropRows<'a>) -> Rows<'a>
        ensures { result ≡ rows.entry }
    {
        Rows {
            kind: Kind::Prop(rows),
        }
    }

    /// Those of the tree.
    pub(crate) fn tree(rows: TitledTree<'a>) -> Rows<'a>
        ensures { result ≡ rows.entry }
    {
        Rows {
            kind: Kind::Tree(rows),
        }
    }

    /// Puts the next definition into `fact`; false exactly where none is left.
    pub(crate) fn next(&mut self, fact: &mut Fact<'a>) -> bool
        ensures { MatchBool result (self.old ≡ fact.new ∷ self.new) ((self.old ≡ [])
            × (self.new ≡ [])) }
    {
        match &mut self.kind {
            Kind::Head(rows) => rows.next(fact),
            Kind::Prop(rows) => rows.next(fact),
            Kind::Tree(rows) => rows.next(fact),
            Kind::Nothing => false,
        }
    }
}

/// Definitions that stand together and are left, with what they speak of.
#[derive(Drop)]
pub(crate) struct Section<'a> {
    pub(crate) of: Of<'a>,
    pub(crate) rows: Rows<'a>,
}

impl<'a> Section<'a> {
    /// No definitions.
    pub(crate) fn none() -> Section<'a>
        ensures rows { result.rows ≡ [] }
        ensures of { result.of ≡ Nothing }
    {
        Section {
            of: Of::Nothing,
            rows: Rows::none(),
        }
    }
}
