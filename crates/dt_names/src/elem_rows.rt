//! The definitions on the elements of a property.

ghost use Rattle.std.specs.Prelude.{◌≡◌, ◌∷◌, ◌++◌, [], codes, option_map, MatchBool};
ghost use Rattle.std.specs.Option.{option_map_or};
ghost use Rattle.edt_base.specs.Nodes.{path_at};
ghost use Rattle.dt_names.specs.Inner.Elems.{element, elements_left};
ghost use Rattle.dt_names.specs.Facts.{choice_lines, each, elem_lines, id_at, item_rows, node_rows, plain};
ghost use Rattle.dt_names.specs.Pieces.{lit, num};
ghost use Rattle.dt_names.specs.Inner.Rows.{at_pieces};
ghost use Rattle.dt_names.specs.Inner.Words.{piece_of};

use crate::cell_rows::EntryRows;
use crate::elems::{Elem, Elems, elems_len, next_elem};
use crate::fact::{Fact, Queue};
use crate::piece::Piece;
use crate::row::{At, Body, Ending};
use crate::rows::{number, plain};
use crate::word::Name;
use edt_base::{Bound, Text};
use std::marker::Model;

/// The definitions on an element that are left: its value, its choice, and those of an entry.
#[derive(Drop)]
struct ElemLines<'a> {
    value: Queue<'a>,
    choice: Queue<'a>,
    entry: EntryRows<'a>,
}

impl<'a> Model for ElemLines<'a> {
    ghost use Rattle.std.specs.Prelude.{◌++◌, List};
    ghost use Rattle.dt_names.specs.Facts.{FactData};

    ghost Value = { List FactData };

    ghost view = { λ s. s.value ++ (s.choice ++ s.entry) };
}

impl<'a> ElemLines<'a> {
    fn none(bound: &'a Bound) -> ElemLines<'a>
        ensures { result ≡ [] }
    {
        ElemLines {
            value: Queue::none(bound),
            choice: Queue::none(bound),
            entry: EntryRows::none(bound),
        }
    }

    // Those of the element i of a property of the node n.
    fn new(
        bound: &'a Bound,
        n: u32,
        name: Name<'a>,
        choices: &'a [(u32, Text)],
        i: usize,
        elem: Elem<'a>,
    ) -> ElemLines<'a>
        ensures { result
            ≡ elem_lines bound.now.tree.nodes n (path_at bound.now.tree.nodes n)
            name.entry.text.now choices.now i (element elem.entry) }
    {
        let at = At::Elem(name, i);
        match elem {
            Elem::Item(item) => ElemLines {
                value: item_rows(bound, n, at, item),
                choice: choice_rows(bound, n, at, choices.get(i)),
                entry: EntryRows::none(bound),
            },
            Elem::Node(node) => ElemLines {
                value: node_rows(bound, n, at, node),
                choice: Queue::none(bound),
                entry: EntryRows::none(bound),
            },
            Elem::Entry(Some(entry)) => ElemLines {
                value: Queue::none(bound),
                choice: Queue::none(bound),
                entry: EntryRows::of_entry(bound, n, name, i, entry),
            },
            Elem::Entry(None) => ElemLines {
                value: unspecified(bound, n, at),
                choice: Queue::none(bound),
                entry: EntryRows::none(bound),
            },
        }
    }

    // Puts those of another element in the place of these. Apart from `next`, which needn't hold
    // room for them.
    #[inline(never)]
    fn begin(
        &mut self,
        bound: &'a Bound,
        n: u32,
        name: Name<'a>,
        choices: &'a [(u32, Text)],
        i: usize,
        elem: Elem<'a>,
    )
        ensures { self.new
            ≡ elem_lines bound.now.tree.nodes n (path_at bound.now.tree.nodes n)
            name.entry.text.now choices.now i (element elem.entry) }
    {
        *self = ElemLines::new(bound, n, name, choices, i, elem);
    }

    fn next(&mut self, fact: &mut Fact<'a>) -> bool
        ensures { MatchBool result (self.old ≡ fact.new ∷ self.new) ((self.old ≡ [])
            × (self.new ≡ [])) }
    {
        if self.value.next(fact) {
            return true;
        }
        if self.choice.next(fact) {
            return true;
        }
        self.entry.next(fact)
    }
}

// An element that is a number or a string.
fn item_rows<'a>(bound: &'a Bound, n: u32, at: At<'a>, item: Piece<'a>) -> Queue<'a>
    ensures { result
        ≡ item_rows n (path_at bound.now.tree.nodes n) (at_pieces at.entry) (piece_of item.entry) }
{
    Queue::four(
        bound,
        Some(plain(n, at, Ending::Nothing, Body::One(item))),
        Some(number(n, at, Ending::Mark("_EXISTS"), 1)),
        None,
        None,
    )
}

// An element that is a node.
fn node_rows<'a>(bound: &'a Bound, n: u32, at: At<'a>, node: usize) -> Queue<'a>
    ensures { result
        ≡ node_rows n (path_at bound.now.tree.nodes n) (at_pieces at.entry)
        (id_at bound.now.tree.nodes node) }
{
    Queue::four(
        bound,
        Some(plain(n, at, Ending::Nothing, Body::Id(node))),
        Some(plain(n, at, Ending::Mark("_PH"), Body::Id(node))),
        Some(number(n, at, Ending::Mark("_EXISTS"), 1)),
        None,
    )
}

// An entry that names no node.
fn unspecified<'a>(bound: &'a Bound, n: u32, at: At<'a>) -> Queue<'a>
    ensures { result
        ≡ plain n (path_at bound.now.tree.nodes n)
        (at_pieces at.entry ++ lit (codes "_EXISTS") ∷ []) (num 0 ∷ []) ∷ [] }
{
    let exists = number(n, at, Ending::Mark("_EXISTS"), 0);
    Queue::four(bound, Some(exists), None, None, None)
}

/// A choice, behind a property or one of its elements, where there is one.
pub(crate) fn choice_rows<'a>(
    bound: &'a Bound,
    n: u32,
    at: At<'a>,
    choice: Option<&'a (u32, Text)>,
) -> Queue<'a>
    ensures { result
        ≡ option_map_or (choice_lines n (path_at bound.now.tree.nodes n) (at_pieces at.entry))
        (option_map (λ c. c.now) choice.entry) [] }
{
    match choice {
        Some(choice) => choice_lines(bound, n, at, choice),
        None => Queue::none(bound),
    }
}

// A choice.
fn choice_lines<'a>(bound: &'a Bound, n: u32, at: At<'a>, choice: &'a (u32, Text)) -> Queue<'a>
    ensures { result
        ≡ choice_lines n (path_at bound.now.tree.nodes n) (at_pieces at.entry) choice.now }
{
    let form = choice.1.as_str().as_bytes();
    Queue::four(
        bound,
        Some(number(n, at, Ending::Mark("_ENUM_IDX"), choice.0 as u128)),
        Some(number(n, at, Ending::Between("_ENUM_VAL_", form, "_EXISTS"), 1)),
        None,
        None,
    )
}

/// The definitions on a property's elements that are left.
#[derive(Drop)]
pub(crate) struct ElemRows<'a> {
    bound: &'a Bound,
    owner: u32,
    name: Name<'a>,
    choices: &'a [(u32, Text)],
    lines: ElemLines<'a>,
    index: usize,
    count: usize,
    elems: Elems<'a>,
}

impl<'a> Model for ElemRows<'a> {
    ghost use Rattle.std.specs.Prelude.{◌≡◌, ◌+◌, ◌++◌, List, length};
    ghost use Rattle.edt_base.specs.Nodes.{path_at};
    ghost use Rattle.dt_names.specs.Inner.Elems.{elements_left};
    ghost use Rattle.dt_names.specs.Facts.{FactData, each, elem_lines};

    ghost Value = { List FactData };

    ghost view = { λ s. s.lines
        ++ each (elem_lines s.bound.now.tree.nodes s.owner (path_at s.bound.now.tree.nodes s.owner)
        s.name.text.now s.choices.now) s.index (elements_left s.elems) };

    ghost invariant = { λ s. s.index + length (elements_left s.elems) ≡ s.count };
}

impl<'a> ElemRows<'a> {
    /// Those of a property of the node n.
    pub(crate) fn new(
        bound: &'a Bound,
        n: u32,
        name: Name<'a>,
        choices: &'a [(u32, Text)],
        elems: Elems<'a>,
    ) -> ElemRows<'a>
        ensures { result
            ≡ each (elem_lines bound.now.tree.nodes n (path_at bound.now.tree.nodes n)
            name.entry.text.now choices.now) 0 (elements_left elems.entry) }
    {
        ElemRows {
            bound,
            owner: n,
            name,
            choices,
            lines: ElemLines::none(bound),
            index: 0,
            count: elems_len(elems),
            elems,
        }
    }

    /// Puts the next definition into `fact`; false exactly where none is left.
    pub(crate) fn next(&mut self, fact: &mut Fact<'a>) -> bool
        ensures { MatchBool result (self.old ≡ fact.new ∷ self.new) ((self.old ≡ [])
            × (self.new ≡ [])) }
    {
        let count = self.count;
        loop {
            if self.lines.next(fact) {
                return true;
            }
            let Some((elem, rest)) = next_elem(self.elems) else {
                return false;
            };
            let holds = self.index < count;
            prove!(holds);
            self.lines.begin(
                self.bound,
                self.owner,
                self.name,
                self.choices,
                self.index,
                elem,
            );
            self.index += 1;
            self.elems = rest;
        }
    }
}
