//! The definitions of the tree: aliases, labels, chosen nodes, and the walks over all nodes.

ghost use Rattle.std.specs.Prelude.{◌≡◌, ◌∷◌, [], codes, map, MatchBool};
ghost use Rattle.std.specs.List.{flat_map};
ghost use Rattle.dt_names.specs.Facts.{chosen_facts, each, helper_facts, label_facts, link, tree_facts, titled};

use crate::child_place::node_from;
use crate::fact::{Fact, Queue, Single};
use crate::inst_rows::InstRows;
use crate::piece::{Params, Piece};
use crate::row::{At, Body, Ending, Things};
use crate::rows::{link, tree_row};
use edt_base::{Bound, NodeId, Text};
use std::marker::Model;

/// The definitions of the aliases that are left.
#[derive(Drop)]
struct AliasRows<'a> {
    bound: &'a Bound,
    rest: &'a [(Text, NodeId)],
}

impl<'a> Model for AliasRows<'a> {
    ghost use Rattle.std.specs.Prelude.{List, codes, map};
    ghost use Rattle.dt_names.specs.Facts.{FactData, link};

    ghost Value = { List FactData };

    ghost view = { λ s. map (link s.bound.now.tree.nodes (codes "DT_N_ALIAS_")) s.rest.now };
}

impl<'a> AliasRows<'a> {
    fn next(&mut self, fact: &mut Fact<'a>) -> bool
        ensures { MatchBool result (self.old ≡ fact.new ∷ self.new) ((self.old ≡ [])
            × (self.new ≡ [])) }
    {
        let Some((alias, rest)) = self.rest.split_first() else {
            return false;
        };
        let row = link("DT_N_ALIAS_", alias.0.as_str().as_bytes(), alias.1.0);
        self.rest = rest;
        *fact = Fact::new(self.bound, row);
        true
    }
}

/// The definitions of the labels that are left.
#[derive(Drop)]
struct LabelRows<'a> {
    bound: &'a Bound,
    owner: u32,
    labels: &'a [Text],
    index: u32,
}

impl<'a> Model for LabelRows<'a> {
    ghost use Rattle.std.specs.Prelude.{◌++◌, List, codes, drop, map};
    ghost use Rattle.dt_names.specs.Facts.{FactData, each, label_facts, link};

    ghost Value = { List FactData };

    ghost view = { λ s. map
        (λ label. link s.bound.now.tree.nodes (codes "DT_N_NODELABEL_") (label, s.owner))
        s.labels.now
        ++ each (label_facts s.bound.now.tree.nodes) s.index (drop s.index s.bound.now.tree.nodes) };
}

impl<'a> LabelRows<'a> {
    fn next(&mut self, fact: &mut Fact<'a>) -> bool
        ensures { MatchBool result (self.old ≡ fact.new ∷ self.new) ((self.old ≡ [])
            × (self.new ≡ [])) }
    {
        loop {
            if let Some((label, rest)) = self.labels.split_first() {
                let row = link("DT_N_NODELABEL_", label.as_str().as_bytes(), self.owner);
                self.labels = rest;
                *fact = Fact::new(self.bound, row);
                return true;
            }
            let Some(node) = node_from(self.bound, self.index) else {
                return false;
            };
            self.labels = node.labels.as_slice();
            self.owner = self.index;
            self.index += 1;
        }
    }
}

/// The definitions of the chosen nodes that are left.
#[derive(Drop)]
struct ChosenRows<'a> {
    bound: &'a Bound,
    exists: Single<'a>,
    rest: &'a [(Text, NodeId)],
}

impl<'a> Model for ChosenRows<'a> {
    ghost use Rattle.std.specs.Prelude.{◌++◌, List};
    ghost use Rattle.std.specs.List.{flat_map};
    ghost use Rattle.dt_names.specs.Facts.{FactData, chosen_facts};

    ghost Value = { List FactData };

    ghost view = { λ s. s.exists ++ flat_map (chosen_facts s.bound.now.tree.nodes) s.rest.now };
}

impl<'a> ChosenRows<'a> {
    fn next(&mut self, fact: &mut Fact<'a>) -> bool
        ensures { MatchBool result (self.old ≡ fact.new ∷ self.new) ((self.old ≡ [])
            × (self.new ≡ [])) }
    {
        if self.exists.next(fact) {
            return true;
        }
        let Some((chosen, rest)) = self.rest.split_first() else {
            return false;
        };
        let word = chosen.0.as_str().as_bytes();
        let row = link("DT_CHOSEN_", word, chosen.1.0);
        let exists = tree_row(
            chosen.1.0,
            At::Itself,
            Ending::Between("DT_CHOSEN_", word, "_EXISTS"),
            Params::Plain,
            Body::One(Piece::Num(1)),
        );
        self.exists = Single::new(self.bound, Some(exists));
        self.rest = rest;
        *fact = Fact::new(self.bound, row);
        true
    }
}

// The walks over all nodes.
fn helper_rows(bound: &Bound) -> Queue<'_>
    ensures { result ≡ helper_facts bound.now.tree.nodes }
{
    let helper = Ending::Mark("DT_FOREACH_HELPER");
    let okay_helper = Ending::Mark("DT_FOREACH_OKAY_HELPER");
    Queue::four(
        bound,
        Some(tree_row(
            0,
            At::Itself,
            helper,
            Params::Fn,
            Body::Visits(Things::Nodes),
        )),
        Some(tree_row(
            0,
            At::Itself,
            okay_helper,
            Params::Fn,
            Body::Visits(Things::OkayNodes),
        )),
        None,
        None,
    )
}

/// The definitions of the tree that are left.
#[derive(Drop)]
struct TreeRows<'a> {
    aliases: AliasRows<'a>,
    labels: LabelRows<'a>,
    chosen: ChosenRows<'a>,
    insts: InstRows<'a>,
    helpers: Queue<'a>,
}

impl<'a> Model for TreeRows<'a> {
    ghost use Rattle.std.specs.Prelude.{◌++◌, List};
    ghost use Rattle.dt_names.specs.Facts.{FactData};

    ghost Value = { List FactData };

    ghost view = { λ s. s.aliases ++ (s.labels ++ (s.chosen ++ (s.insts ++ s.helpers))) };
}

impl<'a> TreeRows<'a> {
    fn new(bound: &'a Bound) -> TreeRows<'a>
        ensures { result ≡ tree_facts bound.now }
    {
        TreeRows {
            aliases: alias_rows(bound),
            labels: label_rows(bound),
            chosen: chosen_rows(bound),
            insts: InstRows::new(bound),
            helpers: helper_rows(bound),
        }
    }

    fn next(&mut self, fact: &mut Fact<'a>) -> bool
        ensures { MatchBool result (self.old ≡ fact.new ∷ self.new) ((self.old ≡ [])
            × (self.new ≡ [])) }
    {
        if self.aliases.next(fact) {
            return true;
        }
        if self.labels.next(fact) {
            return true;
        }
        if self.chosen.next(fact) {
            return true;
        }
        if self.insts.next(fact) {
            return true;
        }
        self.helpers.next(fact)
    }
}

fn alias_rows(bound: &Bound) -> AliasRows<'_>
    ensures { result
        ≡ map (link bound.now.tree.nodes (codes "DT_N_ALIAS_")) bound.now.tree.aliases }
{
    AliasRows {
        bound,
        rest: bound.tree.aliases().as_slice(),
    }
}

fn label_rows(bound: &Bound) -> LabelRows<'_>
    ensures { result ≡ each (label_facts bound.now.tree.nodes) 0 bound.now.tree.nodes }
{
    LabelRows {
        bound,
        owner: 0,
        labels: &[],
        index: 0,
    }
}

fn chosen_rows(bound: &Bound) -> ChosenRows<'_>
    ensures { result ≡ flat_map (chosen_facts bound.now.tree.nodes) bound.now.tree.chosen }
{
    ChosenRows {
        bound,
        exists: Single::new(bound, None),
        rest: bound.tree.chosen().as_slice(),
    }
}

/// The definitions of the tree that are left, the first of which has the tree's comment.
#[derive(Drop)]
pub(crate) struct TitledTree<'a> {
    title: Option<&'static str>,
    rows: TreeRows<'a>,
}

impl<'a> Model for TitledTree<'a> {
    ghost use Rattle.std.specs.Prelude.{List, option_map};
    ghost use Rattle.dt_names.specs.Facts.{FactData};
    ghost use Rattle.dt_names.specs.Inner.Rows.{titled_by};

    ghost Value = { List FactData };

    ghost view = { λ s. titled_by (option_map (λ t. t.now) s.title) s.rows };
}

impl<'a> TitledTree<'a> {
    /// Those of a bound tree.
    pub(crate) fn new(bound: &'a Bound) -> TitledTree<'a>
        ensures { result ≡ titled (codes "tree") (tree_facts bound.now) }
    {
        TitledTree {
            title: Some("tree"),
            rows: TreeRows::new(bound),
        }
    }

    /// Puts the next definition into `fact`; false exactly where none is left.
    pub(crate) fn next(&mut self, fact: &mut Fact<'a>) -> bool
        ensures { MatchBool result (self.old ≡ fact.new ∷ self.new) ((self.old ≡ [])
            × (self.new ≡ [])) }
    {
        if !self.rows.next(fact) {
            return false;
        }
        if let Some(title) = self.title {
            self.title = None;
            fact.title(title.as_bytes());
        }
        true
    }
}
