//! The nodes that can be placed next.

ghost use Rattle.std.specs.Prelude.{◌≡◌, ◌∷◌, ◌≤◌, [], OnOk, MatchOption};
ghost use Rattle.std.specs.List.{All};
ghost use Rattle.std.specs.BTreeSet.{insert_key};
ghost use Rattle.std.specs.Ordering.{nat_cmp};
ghost use Rattle.std.specs.BTreeMap.Range.{IsLtBy};

use edt_base::NodeId;
use std::alloc::{AllocError, Global};
use std::collections::BTreeSet;
use std::marker::Model;

/// Nodes that can be placed next. Contracts see their places, rising.
#[derive(Drop)]
pub(crate) struct Ready {
    ids: BTreeSet<u32>,
}

impl Model for Ready {
    ghost use Rattle.std.specs.Prelude.{List, ℕ};

    ghost Value = { List ℕ };

    ghost view = { λ r. r.ids.keys };
}

impl Ready {
    /// No node.
    pub(crate) fn new(alloc: Global) -> Ready
        ensures { result ≡ [] }
    {
        Ready {
            ids: BTreeSet::new(alloc),
        }
    }

    /// One more node.
    pub(crate) fn put(&mut self, id: NodeId) -> Result<(), AllocError>
        ensures { OnOk result (self.new ≡ insert_key nat_cmp self.old id) }
    {
        self.ids.insert(id.0)?;
        Ok(())
    }

    /// Takes the first node out.
    pub(crate) fn take_first(&mut self) -> Option<NodeId>
        ensures first { MatchOption result (self.old ≡ []) (λ id. self.old ≡ id ∷ self.new) }
        ensures least { MatchOption result (self.new ≡ []) (λ id. All (IsLtBy nat_cmp id) self.new) }
    {
        match self.ids.pop_first() {
            Some(id) => Some(NodeId(id)),
            None => None,
        }
    }
}
