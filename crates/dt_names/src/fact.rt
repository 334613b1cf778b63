//! A definition, and the queue in which definitions that come together wait.

ghost use Rattle.std.specs.Prelude.{◌≡◌, ◌∷◌, ◌++◌, [], drop, option_map, take, if◌then◌else◌, MatchBool};
ghost use Rattle.edt_base.specs.Nodes.{path_at};
ghost use Rattle.dt_names.specs.Clash.{said};
ghost use Rattle.dt_names.specs.Facts.{full_name};
ghost use Rattle.dt_names.specs.Inner.Keys.{behind_prop, is_of_prop};
ghost use Rattle.dt_names.specs.Inner.Lists.{things_of};
ghost use Rattle.dt_names.specs.Inner.Rows.{body_pieces, fact_of, at_pieces, ending_pieces, tail_pieces, things_at, waiting, with_heading};

use crate::child_place::node_count;
use crate::held::Held;
use crate::list::{Listed, Visited};
use crate::piece::Params;
use crate::pieces::Pieces;
use crate::place::Places;
use crate::row::{At, Body, Ending, Row, Things};
use crate::rows::number;
use crate::tail::{Tail, behind_prop, of_prop, split_entry};
use crate::word::Id;
use edt_base::{Bound, NodeId};
use std::marker::Model;

/// A definition of a bound tree's header. Contracts see it as the plain `FactData`.
#[derive(Drop)]
pub struct Fact<'a> {
    bound: &'a Bound,
    heading: Option<&'a [u8]>,
    row: Row<'a>,
}

impl<'a> Model for Fact<'a> {
    ghost use Rattle.std.specs.Prelude.{option_map};
    ghost use Rattle.dt_names.specs.Facts.{FactData};
    ghost use Rattle.dt_names.specs.Inner.Rows.{fact_of};

    ghost Value = { FactData };

    ghost view = { λ f. record (fact_of f.bound.now.tree.nodes f.row) {
      heading = option_map
          (λ h. h.now) f.heading;
    } };
}

impl<'a> Fact<'a> {
    /// The definition of a row.
    pub(crate) fn new(bound: &'a Bound, row: Row<'a>) -> Fact<'a>
        ensures { result ≡ fact_of bound.now.tree.nodes row.entry }
    {
        Fact {
            bound,
            heading: None,
            row,
        }
    }

    /// Room for a definition.
    pub(crate) fn nothing(bound: &'a Bound) -> Fact<'a> {
        Fact::new(bound, number(0, At::Itself, Ending::Nothing, 0))
    }

    /// Puts a comment before the definition.
    pub(crate) fn title(&mut self, heading: &'a [u8])
        ensures { self.new ≡ with_heading heading.now self.old }
    {
        self.heading = Some(heading);
    }

    /// The node that the definition belongs to: that whose name or entry it speaks of, or the node
    /// of a word or of a compatible string's first instance.
    pub(crate) fn owner(&self) -> NodeId
        ensures { result ≡ self.now.owner }
    {
        NodeId(self.row.owner)
    }

    /// The definition's parameters.
    pub fn params(&self) -> Params
        ensures { result ≡ self.now.params }
    {
        self.row.params
    }

    /// The definition is on the entry that the one before it is on.
    pub(crate) fn goes_on(&self) -> bool
        ensures { result ≡ self.now.goes_on }
    {
        self.row.goes_on
    }

    /// The name, in pieces.
    pub fn name(&self) -> Pieces<'a>
        ensures { result ≡ full_name self.now }
    {
        let row = self.row;
        if row.of_tree {
            return Pieces::of_tail(tail_of(row));
        }
        Pieces::of_name(id_of(self.bound, row.owner), tail_of(row))
    }

    /// The property that the name speaks of, in pieces; none where it speaks of none.
    pub(crate) fn prop(&self) -> Pieces<'a>
        ensures { result ≡ (if is_of_prop self.now.rest then take 2 self.now.rest else []) }
    {
        match of_prop(tail_of(self.row)) {
            Some((prop, _)) => Pieces::of_tail(prop),
            None => Pieces::of_list(Listed::Nothing),
        }
    }

    /// The two pieces that the name has behind the id and the property, which tell an entry.
    pub(crate) fn entry(&self) -> Pieces<'a>
        ensures { result ≡ take 2 (behind_prop self.now.rest) }
    {
        let (entry, _) = split_entry(behind_prop(tail_of(self.row)));
        Pieces::of_tail(entry)
    }

    /// What the name has behind these, in pieces.
    pub(crate) fn last(&self) -> Pieces<'a>
        ensures { result ≡ drop 2 (behind_prop self.now.rest) }
    {
        let (_, last) = split_entry(behind_prop(tail_of(self.row)));
        Pieces::of_tail(last)
    }

    /// The body, in pieces.
    pub fn body(&self) -> Pieces<'a>
        ensures { result ≡ self.now.body }
    {
        let row = self.row;
        body_of(self.bound, row.owner, row.params, row.body)
    }

    /// What it says besides its name.
    pub(crate) fn held(&self) -> Held<'a>
        ensures { result ≡ said self.now }
    {
        let row = self.row;
        Held {
            bound: self.bound,
            owner: row.owner,
            params: row.params,
            body: row.body,
        }
    }

    /// The text of the comment that stands before the definition: a node's path at its first
    /// definition, `tree` at the first of the tree.
    pub fn heading(&self) -> Option<&'a [u8]>
        ensures { option_map (λ h. h.now) result ≡ self.now.heading }
    {
        self.heading
    }
}

/// The pieces of a body, of a definition of a node.
pub(crate) fn body_of<'a>(
    bound: &'a Bound,
    owner: u32,
    params: Params,
    body: Body<'a>,
) -> Pieces<'a>
    ensures { result ≡ body_pieces bound.now.tree.nodes owner params body.entry }
{
    match body {
        Body::One(piece) => Pieces::of_list(Listed::One(piece)),
        Body::Id(id) => Pieces::of_id(Id::of(bound, id)),
        Body::Ords(ords) => Pieces::of_list(Listed::Ords(ords)),
        Body::Braces(values) => Pieces::of_list(Listed::Braces(values)),
        Body::Visits(things) => {
            let visited = visited(bound, owner, things);
            Pieces::of_list(Listed::Visits(params, visited))
        }
    }
}

// The id of a node.
fn id_of(bound: &Bound, node: u32) -> Id<'_>
    ensures { result.path.now ≡ path_at bound.now.tree.nodes node }
{
    Id::of(bound, node as usize)
}

// What a row's name has behind the id.
fn tail_of(row: Row<'_>) -> Tail<'_>
    ensures { tail_pieces result ≡ at_pieces row.entry.at ++ ending_pieces row.entry.ending }
{
    Tail {
        at: row.at,
        ending: row.ending,
    }
}

// What a body visits, as its list has it.
fn visited<'a>(bound: &'a Bound, owner: u32, things: Things<'a>) -> Visited<'a>
    ensures { things_of result ≡ things_at bound.now.tree.nodes owner things.entry }
{
    match things {
        Things::Ids(ids) => Visited::Ids(bound, ids),
        Things::OkayIds(ids) => Visited::OkayIds(bound, ids),
        Things::Elems(name, count) => {
            Visited::Elems(id_of(bound, owner), name, Places::below(count))
        }
        Things::Numbers(count) => Visited::Numbers(Places::below(count)),
        Things::Nodes => Visited::Nodes(bound, Places::below(node_count(bound))),
        Things::OkayNodes => Visited::OkayNodes(bound, Places::below(node_count(bound))),
    }
}

/// Definitions that come together. Contracts see those that are left.
#[derive(Drop)]
pub(crate) struct Queue<'a> {
    bound: &'a Bound,
    first: Option<Row<'a>>,
    second: Option<Row<'a>>,
    third: Option<Row<'a>>,
    fourth: Option<Row<'a>>,
}

impl<'a> Model for Queue<'a> {
    ghost use Rattle.std.specs.Prelude.{List, ◌∷◌, []};
    ghost use Rattle.dt_names.specs.Facts.{FactData};
    ghost use Rattle.dt_names.specs.Inner.Rows.{waiting};

    ghost Value = { List FactData };

    ghost view = { λ q. waiting q.bound.now.tree.nodes
        (q.first ∷ q.second ∷ q.third ∷ q.fourth ∷ []) };
}

impl<'a> Queue<'a> {
    /// No definitions.
    pub(crate) fn none(bound: &'a Bound) -> Queue<'a>
        ensures { result ≡ [] }
    {
        Queue {
            bound,
            first: None,
            second: None,
            third: None,
            fourth: None,
        }
    }

    /// Up to four definitions.
    pub(crate) fn four(
        bound: &'a Bound,
        first: Option<Row<'a>>,
        second: Option<Row<'a>>,
        third: Option<Row<'a>>,
        fourth: Option<Row<'a>>,
    ) -> Queue<'a>
        ensures { result
            ≡ waiting bound.now.tree.nodes
            (first.entry ∷ second.entry ∷ third.entry ∷ fourth.entry ∷ []) }
    {
        Queue {
            bound,
            first,
            second,
            third,
            fourth,
        }
    }

    /// Puts the next definition into `fact`; false exactly where none is left.
    pub(crate) fn next(&mut self, fact: &mut Fact<'a>) -> bool
        ensures { MatchBool result (self.old ≡ fact.new ∷ self.new) ((self.old ≡ [])
            × (self.new ≡ [])) }
    {
        let bound = self.bound;
        if let Some(row) = self.first {
            self.first = None;
            *fact = Fact::new(bound, row);
            return true;
        }
        if let Some(row) = self.second {
            self.second = None;
            *fact = Fact::new(bound, row);
            return true;
        }
        if let Some(row) = self.third {
            self.third = None;
            *fact = Fact::new(bound, row);
            return true;
        }
        if let Some(row) = self.fourth {
            self.fourth = None;
            *fact = Fact::new(bound, row);
            return true;
        }
        false
    }
}

/// One definition or none. Contracts see it as long as it is left.
#[derive(Drop)]
pub(crate) struct Single<'a> {
    bound: &'a Bound,
    row: Option<Row<'a>>,
}

impl<'a> Model for Single<'a> {
    ghost use Rattle.std.specs.Prelude.{List, ◌∷◌, []};
    ghost use Rattle.dt_names.specs.Facts.{FactData};
    ghost use Rattle.dt_names.specs.Inner.Rows.{waiting};

    ghost Value = { List FactData };

    ghost view = { λ q. waiting q.bound.now.tree.nodes (q.row ∷ []) };
}

impl<'a> Single<'a> {
    pub(crate) fn new(bound: &'a Bound, row: Option<Row<'a>>) -> Single<'a>
        ensures { result ≡ waiting bound.now.tree.nodes (row.entry ∷ []) }
    {
        Single { bound, row }
    }

    /// Puts the definition into `fact`; false exactly where none is left.
    pub(crate) fn next(&mut self, fact: &mut Fact<'a>) -> bool
        ensures { MatchBool result (self.old ≡ fact.new ∷ self.new) ((self.old ≡ [])
            × (self.new ≡ [])) }
    {
        let Some(row) = self.row else {
            return false;
        };
        self.row = None;
        *fact = Fact::new(self.bound, row);
        true
    }
}
