//! The definitions of a node on its children.

ghost use Rattle.std.specs.Prelude.{◌≡◌, ◌∷◌, [], MatchBool};
ghost use Rattle.edt_base.specs.Nodes.{path_at};
ghost use Rattle.dt_names.specs.Facts.{child_rows};

use crate::fact::{Fact, Queue};
use crate::row::{At, Ending, Things};
use crate::rows::{number, walks};
use edt_base::{Bound, NodeId};
use std::marker::Model;

/// The definitions on a node's children that are left.
#[derive(Drop)]
pub(crate) struct ChildRows<'a> {
    counts: Queue<'a>,
    all: Queue<'a>,
    okay: Queue<'a>,
}

impl<'a> Model for ChildRows<'a> {
    ghost use Rattle.std.specs.Prelude.{List, ◌++◌};
    ghost use Rattle.dt_names.specs.Facts.{FactData};

    ghost Value = { List FactData };

    ghost view = { λ s. s.counts ++ (s.all ++ s.okay) };
}

impl<'a> ChildRows<'a> {
    /// Those of the node n.
    pub(crate) fn new(bound: &'a Bound, n: u32, children: &'a [NodeId]) -> ChildRows<'a>
        ensures { result
            ≡ child_rows bound.now.tree.nodes n (path_at bound.now.tree.nodes n) children.now }
    {
        let okay = bound.tree.okay_count(children) as u128;
        let count = children.len() as u128;
        ChildRows {
            counts: Queue::four(
                bound,
                Some(number(n, At::Itself, Ending::Mark("_CHILD_NUM"), count)),
                Some(number(n, At::Itself, Ending::Mark("_CHILD_NUM_STATUS_OKAY"), okay)),
                None,
                None,
            ),
            all: walks(
                bound,
                n,
                At::Itself,
                "_FOREACH_CHILD",
                Things::Ids(children),
            ),
            okay: walks(
                bound,
                n,
                At::Itself,
                "_FOREACH_CHILD_STATUS_OKAY",
                Things::OkayIds(children),
            ),
        }
    }

    /// Puts the next definition into `fact`; false exactly where none is left.
    pub(crate) fn next(&mut self, fact: &mut Fact<'a>) -> bool
        ensures { MatchBool result (self.old ≡ fact.new ∷ self.new) ((self.old ≡ [])
            × (self.new ≡ [])) }
    {
        if self.counts.next(fact) {
            return true;
        }
        if self.all.next(fact) {
            return true;
        }
        self.okay.next(fact)
    }
}
