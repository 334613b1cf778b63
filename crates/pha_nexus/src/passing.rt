//! How a specifier passes a nexus node.

ghost use Rattle.std.specs.Prelude.{◌≡◌, ◌<◌, ◌++◌, ◌*◌, IfOk, IfErr, Ok, Some, true, length, option_map};
ghost use Rattle.edt_base.specs.Cells.{cells_of};
ghost use Rattle.edt_base.specs.Refusals.{IsStop};
ghost use Rattle.edt_base.specs.Values.{value_cells};
ghost use Rattle.pha_nexus.specs.Passing.{aligned, blended, chosen_bits, is_as_long, masked, passed, passed_at, sent, shared_bits};

use crate::cells::skip;
use crate::rows::taken_row;
use crate::space::Space;
use edt_base::{Cells, NodeId, Part, PropVal, Rule, Stop, Tree};
use std::alloc::{AllocError, Global};

/// Where a specifier goes on from a node with this map, and as what. The fault is V28 where the
/// node's mask or pass-through isn't as long as the specifier, else the first that the map's rows
/// give.
pub(crate) fn pass(
    alloc: Global,
    t: &Tree,
    space: &Space<'_>,
    at: NodeId,
    spec: &[u32],
    map: &PropVal,
) -> Result<(NodeId, Vec<u32>), Stop>
    requires { at < length t.now.nodes }
    ensures hop { IfOk result (λ r. passed_at t.now.nodes space.now at spec.now map.now
        ≡ Ok (record { node = r.0; spec = r.1.items })) }
    ensures there { IfOk result (λ r. r.0 < length t.now.nodes) }
    ensures stop { IfErr result (IsStop (passed_at t.now.nodes space.now at spec.now map.now)) }
{
    let map = map.parts.as_slice();
    pass_map(
        alloc,
        t,
        space,
        spec,
        map,
        space.mask(t, at),
        space.pass(t, at),
    )
}

// The same by a map with this mask and this pass-through.
fn pass_map(
    alloc: Global,
    t: &Tree,
    space: &Space<'_>,
    spec: &[u32],
    map: &[Part],
    mask: Option<&PropVal>,
    pass: Option<&PropVal>,
) -> Result<(NodeId, Vec<u32>), Stop>
    ensures hop { IfOk result (λ r. passed t.now.nodes space.now spec.now map.now
        (option_map (λ m. m.now) mask.entry) (option_map (λ p. p.now) pass.entry)
        ≡ Ok (record { node = r.0; spec = r.1.items })) }
    ensures there { IfOk result (λ r. r.0 < length t.now.nodes) }
    ensures stop { IfErr result (IsStop (passed t.now.nodes space.now spec.now map.now
        (option_map (λ m. m.now) mask.entry) (option_map (λ p. p.now) pass.entry))) }
{
    if !is_as_long(spec, mask) || !is_as_long(spec, pass) {
        return Err(Stop::Broken(Rule::V28));
    }
    let child = masked(alloc, spec, mask)?;
    match taken_row(alloc, t, space, child.as_slice(), map) {
        Ok(exit) => {
            let sent = sent(alloc, spec, pass, exit.parent)?;
            Ok((exit.node, sent))
        }
        Err(stop) => Err(stop),
    }
}

// Whether a mask or a pass-through has the specifier's length, where it is there.
fn is_as_long(spec: &[u32], value: Option<&PropVal>) -> bool
    ensures { result ≡ is_as_long spec.now (option_map (λ v. v.now) value.entry) }
{
    match value {
        None => true,
        Some(value) => value.byte_len() == 4 * spec.len() as u64,
    }
}

// The masked specifier.
fn masked(alloc: Global, spec: &[u32], mask: Option<&PropVal>) -> Result<Vec<u32>, AllocError>
    ensures { IfOk result (λ v. v.items ≡ masked spec.now (option_map (λ m. m.now) mask.entry)) }
{
    match mask {
        None => Vec::from_slice(alloc, spec),
        Some(mask) => shared_bits(alloc, spec, Cells::of(mask.parts.as_slice())),
    }
}

// The bits that a specifier and a mask share.
fn shared_bits(alloc: Global, spec: &[u32], mask: Cells<'_>) -> Result<Vec<u32>, AllocError>
    ensures { IfOk result (λ v. v.items ≡ shared_bits spec.now (cells_of mask.entry)) }
{
    let mut mask = mask;
    let mut left = spec;
    let mut shared = Vec::new(alloc);
    while let Some((cell, behind)) = left.split_first() {
        let Some(bits) = mask.next() else {
            return Ok(shared);
        };
        shared.push(*cell & bits)?;
        left = behind;
    }
    Ok(shared)
}

// The specifier that goes on, by the parent cells of the row that is taken.
fn sent(
    alloc: Global,
    spec: &[u32],
    pass: Option<&PropVal>,
    parent: Vec<u32>,
) -> Result<Vec<u32>, AllocError>
    requires { is_as_long spec.now (option_map (λ p. p.now) pass) ≡ true }
    ensures { IfOk result (λ v. v.items ≡ sent spec.now (option_map (λ p. p.now) pass.entry)
        parent.items) }
{
    match pass {
        None => Ok(parent),
        Some(pass) => aligned(alloc, spec, pass, parent.as_slice()),
    }
}

// The specifier and the parent cells by the pass-through, aligned at the right end.
fn aligned(
    alloc: Global,
    spec: &[u32],
    pass: &PropVal,
    parent: &[u32],
) -> Result<Vec<u32>, AllocError>
    requires { is_as_long spec.now (Some pass.now) ≡ true }
    ensures { IfOk result (λ v. v.items ≡ aligned spec.now (value_cells pass.now) parent.now) }
{
    let cut = spec.len().saturating_sub(parent.len());
    let kept = parent.len().saturating_sub(spec.len());
    let (_, own) = spec.split_at(cut);
    let (unchanged, other) = parent.split_at(kept);
    let mut pass = Cells::of(pass.parts.as_slice());
    skip(&mut pass, cut);
    let before = Vec::from_slice(alloc, unchanged)?;
    let sent = blended(before, own, pass, other)?;
    Ok(sent)
}

// Puts cells behind others: each has a specifier's bits where the pass-through has ones, else those
// of a parent cell.
fn blended(
    before: Vec<u32>,
    own: &[u32],
    pass: Cells<'_>,
    other: &[u32],
) -> Result<Vec<u32>, AllocError>
    ensures { IfOk result (λ v. v.items
        ≡ before.items ++ blended own.now (cells_of pass.entry) other.now) }
{
    let mut sent = before;
    let mut pass = pass;
    let mut owns = own;
    let mut others = other;
    while let Some((cell, owns_behind)) = owns.split_first() {
        let Some(bits) = pass.next() else {
            return Ok(sent);
        };
        let Some((parent, others_behind)) = others.split_first() else {
            return Ok(sent);
        };
        sent.push(chosen_bits(*cell, bits, *parent))?;
        owns = owns_behind;
        others = others_behind;
    }
    Ok(sent)
}

fn chosen_bits(own: u32, pass: u32, other: u32) -> u32
    ensures { result ≡ chosen_bits own pass other }
{
    own & pass | other & !pass
}
