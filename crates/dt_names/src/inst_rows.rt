//! The definitions of the instances of each compatible string.

ghost use Rattle.std.specs.Prelude.{◌≡◌, ◌∷◌, [], length, nat_lt, slice_get, take, unwrap_or, if◌then◌else◌, MatchBool};
ghost use Rattle.std.specs.List.{flat_map};
ghost use Rattle.dt_names.specs.Facts.{each, inst_facts, okay_facts, place_fact};
ghost use Rattle.dt_names.specs.Inner.Rows.{okay_walks};

use crate::fact::{Fact, Queue};
use crate::piece::{Params, Piece};
use crate::row::{At, Body, Ending, Things};
use crate::rows::tree_row;
use edt_base::{Bound, Inst, NodeId};
use std::marker::Model;

/// The definitions of the instances of one compatible string by their numbers that are left.
#[derive(Drop)]
struct PlaceRows<'a> {
    bound: &'a Bound,
    compat: &'a [u8],
    index: usize,
    all: &'a [NodeId],
    rest: &'a [NodeId],
}

impl<'a> Model for PlaceRows<'a> {
    ghost use Rattle.std.specs.Prelude.{◌≡◌, ◌+◌, List, length};
    ghost use Rattle.dt_names.specs.Facts.{FactData, each, place_fact};

    ghost Value = { List FactData };

    ghost view = { λ s. each (place_fact s.bound.now.tree.nodes s.compat.now) s.index s.rest.now };

    ghost invariant = { λ s. s.index + length s.rest.now ≡ length s.all.now };
}

impl<'a> PlaceRows<'a> {
    fn new(bound: &'a Bound, compat: &'a [u8], nodes: &'a [NodeId]) -> PlaceRows<'a>
        ensures { result ≡ each (place_fact bound.now.tree.nodes compat.now) 0 nodes.now }
    {
        PlaceRows {
            bound,
            compat,
            index: 0,
            all: nodes,
            rest: nodes,
        }
    }

    fn next(&mut self, fact: &mut Fact<'a>) -> bool
        ensures { MatchBool result (self.old ≡ fact.new ∷ self.new) ((self.old ≡ [])
            × (self.new ≡ [])) }
    {
        let count = self.all.len();
        let Some((id, rest)) = self.rest.split_first() else {
            return false;
        };
        let holds = self.index < count;
        prove!(holds);
        let row = tree_row(
            id.0,
            At::Nth("DT_N_INST_", self.index),
            Ending::Word("_", self.compat),
            Params::Plain,
            Body::Id(id.0 as usize),
        );
        self.index += 1;
        self.rest = rest;
        *fact = Fact::new(self.bound, row);
        true
    }
}

/// The definitions of the instances of each compatible string that are left.
#[derive(Drop)]
pub(crate) struct InstRows<'a> {
    bound: &'a Bound,
    places: Option<PlaceRows<'a>>,
    okay: OkayRows<'a>,
    rest: &'a [Inst],
}

impl<'a> Model for InstRows<'a> {
    ghost use Rattle.std.specs.Prelude.{◌++◌, [], List, unwrap_or};
    ghost use Rattle.std.specs.List.{flat_map};
    ghost use Rattle.dt_names.specs.Facts.{FactData, inst_facts};

    ghost Value = { List FactData };

    ghost view = { λ s. unwrap_or s.places [] ++
        (s.okay ++ flat_map (inst_facts s.bound.now.tree.nodes) s.rest.now) };
}

impl<'a> InstRows<'a> {
    /// Those of a bound tree.
    pub(crate) fn new(bound: &'a Bound) -> InstRows<'a>
        ensures { result ≡ flat_map (inst_facts bound.now.tree.nodes) bound.now.insts }
    {
        InstRows {
            bound,
            places: None,
            okay: OkayRows::none(bound),
            rest: bound.insts.as_slice(),
        }
    }

    /// Puts the next definition into `fact`; false exactly where none is left.
    pub(crate) fn next(&mut self, fact: &mut Fact<'a>) -> bool
        ensures { MatchBool result (self.old ≡ fact.new ∷ self.new) ((self.old ≡ [])
            × (self.new ≡ [])) }
    {
        loop {
            if let Some(places) = &mut self.places {
                if places.next(fact) {
                    return true;
                }
            }
            if self.okay.next(fact) {
                return true;
            }
            let Some((inst, rest)) = self.rest.split_first() else {
                return false;
            };
            let compat = inst.compat.as_str().as_bytes();
            self.places = Some(PlaceRows::new(self.bound, compat, inst.nodes.as_slice()));
            begin_okay(&mut self.okay, self.bound, inst);
            self.rest = rest;
        }
    }
}

/// The definitions of the okay instances of a compatible string that are left.
#[derive(Drop)]
struct OkayRows<'a> {
    counts: Queue<'a>,
    walks: Queue<'a>,
}

impl<'a> Model for OkayRows<'a> {
    ghost use Rattle.std.specs.Prelude.{◌++◌, List};
    ghost use Rattle.dt_names.specs.Facts.{FactData};

    ghost Value = { List FactData };

    ghost view = { λ s. s.counts ++ s.walks };
}

impl<'a> OkayRows<'a> {
    fn none(bound: &'a Bound) -> OkayRows<'a>
        ensures { result ≡ [] }
    {
        OkayRows {
            counts: Queue::none(bound),
            walks: Queue::none(bound),
        }
    }

    fn next(&mut self, fact: &mut Fact<'a>) -> bool
        ensures { MatchBool result (self.old ≡ fact.new ∷ self.new) ((self.old ≡ [])
            × (self.new ≡ [])) }
    {
        if self.counts.next(fact) {
            return true;
        }
        self.walks.next(fact)
    }
}

// Puts the definitions of the okay instances of a compatible string in the place of others. Apart
// from `next`, which needn't hold room for them.
#[inline(never)]
fn begin_okay<'a>(rows: &mut OkayRows<'a>, bound: &'a Bound, inst: &'a Inst)
    ensures { rows.new
        ≡ (if nat_lt 0 inst.now.okay then okay_facts bound.now.tree.nodes
        (unwrap_or (slice_get inst.now.nodes 0) 0) inst.now else []) }
{
    *rows = okay_rows(bound, inst);
}

// The definitions of the okay instances, where there are some.
fn okay_rows<'a>(bound: &'a Bound, inst: &'a Inst) -> OkayRows<'a>
    ensures { result
        ≡ (if nat_lt 0 inst.now.okay then okay_facts bound.now.tree.nodes
        (unwrap_or (slice_get inst.now.nodes 0) 0) inst.now else []) }
{
    if inst.okay == 0 {
        return OkayRows::none(bound);
    }
    let first = first_of(inst.nodes.as_slice());
    let compat = inst.compat.as_str().as_bytes();
    let has = Ending::Word("DT_COMPAT_HAS_OKAY_", compat);
    let number = Ending::Between("DT_N_INST_", compat, "_NUM_OKAY");
    let count = Body::One(Piece::Num(inst.okay as u128));
    OkayRows {
        counts: Queue::four(
            bound,
            Some(tree_row(
                first,
                At::Itself,
                has,
                Params::Plain,
                Body::One(Piece::Num(1)),
            )),
            Some(tree_row(first, At::Itself, number, Params::Plain, count)),
            None,
            None,
        ),
        walks: okay_walks(bound, first, compat, inst.nodes.as_slice(), inst.okay),
    }
}

// The walks over the okay instances of a compatible string.
fn okay_walks<'a>(
    bound: &'a Bound,
    first: u32,
    compat: &'a [u8],
    nodes: &'a [NodeId],
    okay: u32,
) -> Queue<'a>
    ensures { result ≡ okay_walks bound.now.tree.nodes first compat.now nodes.now okay }
{
    let count = okay as usize;
    let okay = Body::Visits(Things::Ids(front(nodes, count)));
    let numbers = Body::Visits(Things::Numbers(count));
    let each = Ending::Word("DT_FOREACH_OKAY_", compat);
    let each_with = Ending::Word("DT_FOREACH_OKAY_VARGS_", compat);
    let each_number = Ending::Word("DT_FOREACH_OKAY_INST_", compat);
    Queue::four(
        bound,
        Some(tree_row(first, At::Itself, each, Params::Fn, okay)),
        Some(tree_row(first, At::Itself, each_with, Params::FnVargs, okay)),
        Some(tree_row(first, At::Itself, each_number, Params::Fn, numbers)),
        None,
    )
}

// The first of some nodes, the root where there is none.
fn first_of(ids: &[NodeId]) -> u32
    ensures { result ≡ unwrap_or (slice_get ids.now 0) 0 }
{
    match ids.first() {
        Some(id) => id.0,
        None => 0,
    }
}

// The first so many.
fn front(ids: &[NodeId], count: usize) -> &[NodeId]
    ensures { result.now ≡ take count ids.now }
{
    if count < ids.len() {
        &ids[..count]
    } else {
        ids
    }
}
