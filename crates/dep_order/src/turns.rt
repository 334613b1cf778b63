//! What stands while the nodes are placed one after another.

ghost use Rattle.std.specs.Prelude.{◌≡◌, ◌<◌, ◌≤◌, ◌+◌, ◌++◌, ◌∷◌, ◌^◌, [], IfOk, IfErr, IfSome};
ghost use Rattle.std.specs.Prelude.{OnOk, MatchBool, MatchOption, length, map, drop, slice_get};
ghost use Rattle.std.specs.Prelude.{slice_index_or, slice_set, replicate, true, false, Some, None};
ghost use Rattle.std.specs.List.{prefix_len, range_with_len};
ghost use Rattle.dep_order.specs.Order.{required, AreWithin};
ghost use Rattle.dep_order.specs.Turns.{lists, is_done, met_from, with_waiter, with_ready, settled};
ghost use Rattle.dep_order.specs.Turns.{sent, marked, start, starters, is_true, IsUnderWay, IsMet};
ghost use Rattle.dep_order.specs.declared.ends.OrderEnd.TheVariants as ending;

use crate::OrderEnd;
use crate::ready::Ready;
use edt_base::NodeId;
use std::alloc::{AllocError, Global};
use std::marker::Model;
use std::mem;

/// A node that waits for another.
#[derive(Clone, Copy, Debug)]
pub(crate) struct Waiter {
    /// The node.
    pub(crate) id: NodeId,
    /// How many of the nodes that it requires are placed, from the first on.
    pub(crate) met: usize,
}

/// The nodes that wait for one node. Contracts see the list of them.
#[derive(Drop)]
pub(crate) struct Waiters {
    list: Vec<Waiter>,
}

impl Model for Waiters {
    ghost use Rattle.std.specs.Prelude.{List};
    ghost use Rattle.dep_order.specs.declared.turns.Waiter.{Waiter};

    ghost Value = { List Waiter };

    ghost view = { λ w. w.list.items };
}

impl Waiters {
    fn new(alloc: Global) -> Waiters
        ensures { result ≡ [] }
    {
        Waiters {
            list: Vec::new(alloc),
        }
    }

    fn put(&mut self, waiter: Waiter) -> Result<(), AllocError>
        ensures { OnOk result (self.new ≡ self.old ++ waiter ∷ []) }
    {
        self.list.push(waiter)?;
        Ok(())
    }

    fn as_slice(&self) -> &[Waiter]
        ensures { result.now ≡ self.now }
    {
        self.list.as_slice()
    }
}

/// The nodes that are placed, and what is known of the others. Contracts see the plain `TurnsData`.
#[derive(Drop)]
pub(crate) struct Turns {
    /// The placed nodes, in order.
    order: Vec<NodeId>,
    /// Of each node, whether it is placed.
    done: Vec<bool>,
    /// Of each node, which nodes wait for it. Each node waits for one alone, so that all nodes
    /// together go over each requirement once.
    waiting: Vec<Waiters>,
    /// The nodes whose required nodes are all placed.
    ready: Ready,
}

impl Model for Turns {
    ghost use Rattle.dep_order.specs.Turns.{TurnsData};

    ghost Value = { TurnsData };

    ghost view = { λ t. record {
      order = t.order.items;
      done = t.done.items;
      waiting = t.waiting.items;
      ready = t.ready;
    } };
}

impl Turns {
    /// Nothing is placed, and nothing known.
    pub(crate) fn new(alloc: Global, count: usize) -> Result<Turns, AllocError>
        ensures { IfOk result (λ t. t ≡ start count) }
    {
        Ok(Turns {
            order: Vec::new(alloc),
            done: vec![in alloc; false; count]?,
            waiting: no_waiters(alloc, count)?,
            ready: Ready::new(alloc),
        })
    }

    /// A node is placed. Gives those that waited for it.
    fn mark(&mut self, alloc: Global, id: NodeId) -> Result<Waiters, AllocError>
        requires marks { id < length self.old.done }
        requires queues { id < length self.old.waiting }
        ensures marked { OnOk result (self.new ≡ marked self.old id) }
        ensures taken { IfOk result (λ w. w ≡ slice_index_or self.old.waiting id []) }
    {
        self.order.push(id)?;
        self.done[id.0 as usize] = true;
        Ok(mem::replace(&mut self.waiting[id.0 as usize], Waiters::new(alloc)))
    }

    /// A node waits for another.
    fn wait(&mut self, other: NodeId, waiter: Waiter) -> Result<(), AllocError>
        requires { other < length self.old.waiting }
        ensures { OnOk result (self.new ≡ with_waiter self.old other waiter) }
    {
        self.waiting[other.0 as usize].put(waiter)
    }

    /// Lets a node wait for another, or be ready where there is none to wait for.
    fn send(&mut self, id: NodeId, met: usize, other: Option<NodeId>) -> Result<(), AllocError>
        requires { IfSome other (λ q. q < length self.old.waiting) }
        ensures { OnOk result (self.new ≡ sent self.old id met other) }
    {
        match other {
            Some(other) => self.wait(other, Waiter { id, met }),
            None => self.ready.put(id),
        }
    }

    /// Lets a node wait for the first that isn't placed of those that it requires.
    fn settle(&mut self, needs: &[Vec<NodeId>], waiter: Waiter) -> Result<(), AllocError>
        requires within { AreWithin (lists needs.now) }
        requires queues { length self.old.waiting ≡ length (lists needs.now) }
        requires met { IsMet (lists needs.now) self.old.order waiter }
        ensures { OnOk result (self.new ≡ settled (lists needs.now) self.old waiter) }
    {
        let ids = required(needs, waiter.id);
        let met = met_from(self.done.as_slice(), ids, waiter.met);
        self.send(waiter.id, met, node_at(ids, met))
    }

    /// Lets each of these nodes wait for another, or be ready.
    pub(crate) fn settle_all(
        &mut self,
        needs: &[Vec<NodeId>],
        waiters: &[Waiter],
    ) -> Result<(), AllocError>
        requires within { AreWithin (lists needs.now) }
        requires under_way { IsUnderWay (lists needs.now) self.old waiters.now }
        ensures under_way { OnOk result (IsUnderWay (lists needs.now) self.new []) }
        ensures order { OnOk result (self.new.order ≡ self.old.order) }
    {
        for waiter in waiters {
            self.settle(needs, *waiter)?;
        }
        Ok(())
    }

    /// Places the next node. `false` where none is ready.
    pub(crate) fn step(&mut self, alloc: Global, needs: &[Vec<NodeId>]) -> Result<bool, AllocError>
        requires within { AreWithin (lists needs.now) }
        requires under_way { IsUnderWay (lists needs.now) self.old [] }
        ensures under_way { OnOk result (IsUnderWay (lists needs.now) self.new []) }
        ensures more { IfOk result (λ more. MatchBool more
            (length self.new.order ≡ length self.old.order + 1) (self.new.ready ≡ [])) }
    {
        let Some(id) = self.ready.take_first() else {
            return Ok(false);
        };
        let released = self.mark(alloc, id)?;
        self.settle_all(needs, released.as_slice())?;
        Ok(true)
    }

    /// The order, or the first node that is left.
    pub(crate) fn finish(self) -> Result<Vec<NodeId>, OrderEnd>
        requires few { length self.done < 2 ^ 32 }
        ensures order { IfOk result (λ v. (v.items ≡ self.order)
            × (prefix_len is_true self.done ≡ length self.done)) }
        ensures left { IfErr result (λ end. (end ≡ ending.Cycle (prefix_len is_true self.done))
            × (prefix_len is_true self.done < length self.done)) }
    {
        let placed = true_front(self.done.as_slice());
        if placed < self.done.len() {
            return Err(OrderEnd::Cycle(NodeId(placed as u32)));
        }
        Ok(self.order)
    }
}

/// How many are true, from the first on.
fn true_front(done: &[bool]) -> usize
    ensures value { result ≡ prefix_len is_true done.now }
    ensures bound { result ≤ length done.now }
{
    done.iter().take_while(|placed| **placed).count()
}

/// All nodes, which have yet to look for one to wait for.
pub(crate) fn everyone(alloc: Global, count: usize) -> Result<Vec<Waiter>, AllocError>
    requires { count < 2 ^ 32 }
    ensures { IfOk result (λ v. v.items ≡ starters count) }
{
    let mut all = Vec::with_capacity(alloc, count)?;
    for id in 0..count as u32 {
        all.push(Waiter {
            id: NodeId(id),
            met: 0,
        })?;
    }
    Ok(all)
}

/// The node at a place of a list.
fn node_at(ids: &[NodeId], at: usize) -> Option<NodeId>
    ensures { result ≡ slice_get ids.now at }
{
    ids.get(at).copied()
}

/// What a node requires.
fn required(needs: &[Vec<NodeId>], id: NodeId) -> &[NodeId]
    requires { id < length (lists needs.now) }
    ensures { result.now ≡ required (lists needs.now) id }
{
    needs[id.0 as usize].as_slice()
}

/// As many empty lists.
fn no_waiters(alloc: Global, count: usize) -> Result<Vec<Waiters>, AllocError>
    ensures { IfOk result (λ v. v.items ≡ replicate count []) }
{
    let mut waiting = Vec::with_capacity(alloc, count)?;
    for _ in 0..count {
        waiting.push(Waiters::new(alloc))?;
    }
    Ok(waiting)
}

/// Whether a node is placed.
fn is_done(done: &[bool], id: NodeId) -> bool
    ensures { result ≡ is_done done.now id }
{
    match done.get(id.0 as usize) {
        Some(placed) => *placed,
        None => false,
    }
}

/// How many of these nodes are placed, from the first on.
fn placed_front(done: &[bool], ids: &[NodeId]) -> usize
    ensures value { result ≡ prefix_len (is_done done.now) ids.now }
    ensures bound { result ≤ length ids.now }
{
    ids.iter().take_while(|id| is_done(done, **id)).count()
}

/// How many of these nodes are placed, from the first on, where so many are known to be.
fn met_from(done: &[bool], ids: &[NodeId], known: usize) -> usize
    requires { known ≤ length ids.now }
    ensures { result ≡ met_from done.now ids.now known }
{
    let (_, behind) = ids.split_at(known);
    known + placed_front(done, behind)
}
