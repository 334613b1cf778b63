//! Rows of `dep_order`: `needs` has for each node the numbers of those that it requires and a `;`;
//! `+` and a number stand for the node so many places after, where there is one.
//!
//! The answer has the nodes in their order, or `cycle` and the node that is named.

ghost use Rattle.std.specs.Prelude.{◌≡◌, true, nat_lt};
ghost use Rattle.std.specs.List.{list_all};
ghost use Rattle.dep_order.specs.Order.{AreWithin};
ghost use Rattle.dep_order.specs.Turns.{lists};

use crate::table::Row;
use dep_order::{OrderEnd, order};
use edt_base::NodeId;
use std::alloc::{AllocError, Global};

pub fn answer(alloc: Global, row: &Row) -> Result<Option<String>, AllocError> {
    let Some(text) = row.text("needs") else {
        return Ok(None);
    };
    let needs = needs_of(alloc, text)?;
    Ok(Some(shown(alloc, &needs)?))
}

/// The order as text, or the node that is named.
fn shown(alloc: Global, needs: &Vec<Vec<NodeId>>) -> Result<String, AllocError> {
    if needs.len() >= 1 << 32 || !are_within(needs.as_slice()) {
        return String::from_str(alloc, "not within");
    }
    match order(alloc, needs) {
        Ok(ids) => places(alloc, ids.as_slice()),
        Err(end) => why(alloc, &end),
    }
}

/// Why there is no order, as text.
fn why(alloc: Global, end: &OrderEnd) -> Result<String, AllocError> {
    match end {
        OrderEnd::Cycle(id) => {
            let number = id.0;
            format!(in alloc; "cycle {number}")
        }
        OrderEnd::Memory(_) => Err(AllocError),
    }
}

/// The places of nodes as text.
fn places(alloc: Global, ids: &[NodeId]) -> Result<String, AllocError> {
    let mut out = String::new(alloc);
    for id in ids {
        write!(out, "{} ", id.0)?;
    }
    Ok(out)
}

/// What each node requires.
fn needs_of(alloc: Global, text: &str) -> Result<Vec<Vec<NodeId>>, AllocError> {
    let count = text.split(';').count().saturating_sub(1) as u64;
    let mut needs = Vec::new(alloc);
    for (node, list) in text.split(';').enumerate() {
        let mut ids = Vec::new(alloc);
        for word in list.split(' ') {
            let (from, digits) = match word.strip_prefix('+') {
                Some(digits) => (node as u64, digits),
                None => (0, word),
            };
            if let Ok(number) = digits.parse::<u32>() {
                let id = from.saturating_add(u64::from(number));
                if let Ok(id) = u32::try_from(id)
                    && (from == 0 || u64::from(id) < count)
                {
                    ids.push(NodeId(id))?;
                }
            }
        }
        if (node as u64) < count {
            needs.push(ids)?;
        }
    }
    Ok(needs)
}

/// Whether all these nodes are among so many.
fn are_below(ids: &[NodeId], count: usize) -> bool
    ensures { result ≡ list_all (λ q. nat_lt q count) ids.now }
{
    ids.iter().all(|id| (id.0 as usize) < count)
}

/// Whether every node that a node requires is there.
fn are_within(needs: &[Vec<NodeId>]) -> bool
    ensures { result ≡ true → AreWithin (lists needs.now) }
{
    let count = needs.len();
    for ids in needs {
        if !are_below(ids.as_slice(), count) {
            return false;
        }
    }
    true
}
