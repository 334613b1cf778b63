//! The definitions of a node on its status, its compatible strings and its bus.

ghost use Rattle.std.specs.Prelude.{◌≡◌, ◌∷◌, [], map, MatchBool};
ghost use Rattle.edt_base.specs.Nodes.{path_at};
ghost use Rattle.dt_names.specs.Facts.{marked, match_facts};

use crate::fact::{Fact, Single};
use crate::row::{At, Body, Ending};
use crate::rows::{number, plain};
use edt_base::{Bound, BoundNode, NodeRec, Text};
use std::marker::Model;

/// The definitions that a node has for each of some words behind a marker, as far as they are left.
#[derive(Drop)]
pub(crate) struct Marked<'a> {
    bound: &'a Bound,
    owner: u32,
    mark: &'static str,
    rest: &'a [Text],
}

impl<'a> Model for Marked<'a> {
    ghost use Rattle.std.specs.Prelude.{List, map};
    ghost use Rattle.edt_base.specs.Nodes.{path_at};
    ghost use Rattle.dt_names.specs.Facts.{FactData, marked};

    ghost Value = { List FactData };

    ghost view = { λ s. map (marked s.owner (path_at s.bound.now.tree.nodes s.owner) s.mark.now)
        s.rest.now };
}

impl<'a> Marked<'a> {
    /// Those of the node n.
    pub(crate) fn new(
        bound: &'a Bound,
        owner: u32,
        mark: &'static str,
        words: &'a [Text],
    ) -> Marked<'a>
        ensures { result
            ≡ map (marked owner (path_at bound.now.tree.nodes owner) mark.now) words.now }
    {
        Marked {
            bound,
            owner,
            mark,
            rest: words,
        }
    }

    /// Puts the next definition into `fact`; false exactly where none is left.
    pub(crate) fn next(&mut self, fact: &mut Fact<'a>) -> bool
        ensures { MatchBool result (self.old ≡ fact.new ∷ self.new) ((self.old ≡ [])
            × (self.new ≡ [])) }
    {
        let Some((word, rest)) = self.rest.split_first() else {
            return false;
        };
        self.rest = rest;
        let ending = Ending::Word(self.mark, word.as_str().as_bytes());
        *fact = Fact::new(self.bound, number(self.owner, At::Itself, ending, 1));
        true
    }
}

/// The definitions on a node's status, compatible strings and bus that are left.
#[derive(Drop)]
pub(crate) struct MatchRows<'a> {
    status: Single<'a>,
    compats: Marked<'a>,
    bus: Single<'a>,
    buses: Marked<'a>,
}

impl<'a> Model for MatchRows<'a> {
    ghost use Rattle.std.specs.Prelude.{List, ◌++◌};
    ghost use Rattle.dt_names.specs.Facts.{FactData};

    ghost Value = { List FactData };

    ghost view = { λ s. s.status ++ (s.compats ++ (s.bus ++ s.buses)) };
}

impl<'a> MatchRows<'a> {
    /// Those of the node n.
    pub(crate) fn new(
        bound: &'a Bound,
        n: u32,
        node: &'a NodeRec,
        bind: &'a BoundNode,
    ) -> MatchRows<'a>
        requires { path_at bound.now.tree.nodes n ≡ node.now.path }
        ensures { result ≡ match_facts bound.now.tree.nodes n node.now bind.now }
    {
        let status = Ending::Word("_STATUS_", node.status.as_str().as_bytes());
        let status = Single::new(bound, Some(number(n, At::Itself, status, 1)));
        let compats = Marked::new(bound, n, "_COMPAT_MATCHES_", node.compats.as_slice());
        match &bind.bus {
            Some(up) => MatchRows {
                status,
                compats,
                bus: Single::new(
                    bound,
                    Some(plain(n, At::Itself, Ending::Mark("_BUS"), Body::Id(up.0 as usize))),
                ),
                buses: Marked::new(bound, n, "_BUS_", bind.buses.as_slice()),
            },
            None => MatchRows {
                status,
                compats,
                bus: Single::new(bound, None),
                buses: Marked::new(bound, n, "_BUS_", &[]),
            },
        }
    }

    /// Puts the next definition into `fact`; false exactly where none is left.
    pub(crate) fn next(&mut self, fact: &mut Fact<'a>) -> bool
        ensures { MatchBool result (self.old ≡ fact.new ∷ self.new) ((self.old ≡ [])
            × (self.new ≡ [])) }
    {
        if self.status.next(fact) {
            return true;
        }
        if self.compats.next(fact) {
            return true;
        }
        if self.bus.next(fact) {
            return true;
        }
        self.buses.next(fact)
    }
}
