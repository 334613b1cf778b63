//! The registers and ranges of all nodes.

ghost use Rattle.std.specs.Prelude.{◌≡◌, ◌<◌, IfErr, IfOk, Ok, length};
ghost use Rattle.edt_base.specs.Nodes.{path_at};
ghost use Rattle.edt_base.specs.Refusals.{IsRefused};
ghost use Rattle.edt_base.specs.TreeData.{ancestors};
ghost use Rattle.edt_bound.specs.Addresses.{addresses_of, cut_of, seen_reg, seen_regs};
ghost use Rattle.edt_bound.specs.Phases.{AreAnswers, IsPhaseEnd};
ghost use Rattle.reg_ranges.specs.Translation.{AreWhole};

use edt_base::{End, NodeId, Range, Reg, Tree};
use reg_ranges::{ranges, regs, translate};
use std::alloc::{AllocError, Global};
use std::marker::Model;

/// The registers and ranges of a node.
#[derive(Drop)]
pub(crate) struct Addresses {
    pub(crate) regs: Vec<Reg>,
    pub(crate) ranges: Vec<Range>,
}

impl Model for Addresses {
    ghost use Rattle.edt_bound.specs.Addresses.{AddressData};

    ghost Value = { AddressData };

    ghost view = { λ a. record { regs = a.regs.items; ranges = a.ranges.items } };
}

/// The registers and ranges of each node, the addresses as the root sees them (Devicetree
/// Specification v0.4, 2.3.6 and 2.3.8); or the first fault in them, in preorder.
pub(crate) fn all_addresses(alloc: Global, t: &Tree) -> Result<Vec<Addresses>, End>
    ensures all { IfOk result (λ v. AreAnswers (addresses_of t.now.nodes)
        (length t.now.nodes) v.items) }
    ensures refused { IfErr result (IsPhaseEnd t.now.nodes (addresses_of t.now.nodes)) }
{
    t.is_well_formed();
    let count = t.nodes().len();
    let mut all = Vec::with_capacity(alloc, count)?;
    for place in 0..count {
        // All above the node stand before it, and are without fault.
        match addresses_of(alloc, t, NodeId(place as u32)) {
            Ok(next) => all.push(next)?,
            Err(end) => return Err(end),
        }
    }
    Ok(all)
}

fn addresses_of(alloc: Global, t: &Tree, id: NodeId) -> Result<Addresses, End>
    requires there { id < length t.now.nodes }
    requires whole { AreWhole t.now.nodes (ancestors t.now.nodes id) }
    ensures found { IfOk result (λ a. addresses_of t.now.nodes id ≡ Ok a) }
    ensures refused { IfErr result (IsRefused (addresses_of t.now.nodes id)
        (path_at t.now.nodes id)) }
{
    let Addresses { regs, ranges } = cut_of(alloc, t, id)?;
    let regs = seen_regs(alloc, t, id, regs)?;
    Ok(Addresses { regs, ranges })
}

// The same with the addresses as they are written.
fn cut_of(alloc: Global, t: &Tree, id: NodeId) -> Result<Addresses, End>
    requires { id < length t.now.nodes }
    ensures found { IfOk result (λ a. cut_of t.now.nodes id ≡ Ok a) }
    ensures refused { IfErr result (IsRefused (cut_of t.now.nodes id) (path_at t.now.nodes id)) }
{
    let regs = regs(alloc, t, id)?;
    let ranges = ranges(alloc, t, id)?;
    Ok(Addresses { regs, ranges })
}

// Registers of a node with their addresses as the root sees them.
fn seen_regs(alloc: Global, t: &Tree, id: NodeId, regs: Vec<Reg>) -> Result<Vec<Reg>, AllocError>
    requires there { id < length t.now.nodes }
    requires whole { AreWhole t.now.nodes (ancestors t.now.nodes id) }
    ensures { IfOk result (λ v. v.items ≡ seen_regs t.now.nodes id regs.items) }
{
    let mut seen = Vec::with_capacity(alloc, regs.len())?;
    for reg in regs {
        seen.push(seen_reg(t, id, reg))?;
    }
    Ok(seen)
}

fn seen_reg(t: &Tree, id: NodeId, reg: Reg) -> Reg
    requires there { id < length t.now.nodes }
    requires whole { AreWhole t.now.nodes (ancestors t.now.nodes id) }
    ensures { result ≡ seen_reg t.now.nodes id reg }
{
    let Reg { addr, size, name } = reg;
    let addr = match addr {
        Some(addr) => Some(translate(t, id, addr)),
        None => None,
    };
    Reg { addr, size, name }
}
