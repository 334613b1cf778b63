//! The interrupts of nodes.

ghost use Rattle.std.specs.Prelude.{◌≡◌, ◌<◌, All, IfErr, IfOk, Ok, codes, length, option_map};
ghost use Rattle.edt_base.specs.EntryData.{EntryData};
ghost use Rattle.edt_base.specs.Nodes.{path_at, prop_at};
ghost use Rattle.edt_base.specs.Refusals.{IsRefused, IsStop};
ghost use Rattle.edt_base.specs.Values.{name_parts};
ghost use Rattle.pha_nexus.specs.Matching.{IsMatches};
ghost use Rattle.pha_nexus.specs.Passing.{Hop};
ghost use Rattle.irq_map.specs.Interrupts.{irq_at, irq_of, irqs_from, irqs_in, irqs_of};
ghost use Rattle.irq_map.specs.Unit.{unit_of};
ghost use Rattle.irq_map.specs.Written.{extended_in, interrupt, plain_in};

use crate::gic::counted;
use crate::unit::{arrived, unit_of};
use crate::written::{extended_in, plain_in};
use bind_merge::Library;
use edt_base::{End, Irq, NodeId, PropVal, Rule, Stop, Text, Tree, entry_name, names_fit};
use pha_nexus::{Matches, Space, Specifier, named};
use std::alloc::{AllocError, Global};

/// The interrupts that a node raises, in order (Devicetree Specification v0.4, 2.4). They are the
/// entries of `interrupts-extended`, each a controller's phandle with a specifier, or, without that
/// property, the specifiers in `interrupts`, whose controller the nearest `interrupt-parent` names
/// from the node upward. A controller with `interrupt-map` sends the specifier on, with the node's
/// unit address in front of it; where the maps end the address is cut off. The binding of the last
/// node names the cells by `interrupt-cells`, and below `arm,gic` the cells named `irq` are raised
/// by 32 where the cell `type` is 0, and by 16 where it is 1. `interrupt-names` names the
/// interrupts. A node with neither property has none.
///
/// The fault is told at the node, and is the first of these. Of `interrupts-extended` V20 where no
/// node has an entry's phandle or the entry is unspecified, V32 where the node has no count of
/// cells, V22 where these aren't there. Of `interrupts` V30 where there is no `interrupt-parent`,
/// V20 where no node has that phandle, V32, V33 where the value isn't whole specifiers. Then by
/// interrupt V34 where `reg` is shorter than the unit address, what `follow` tells, V31 where the
/// last node is no interrupt controller, V23 where it has no binding, V24 where the binding doesn't
/// name as many cells, V35 where a GIC's `type` is missing or above 1. After all interrupts V25
/// where the names aren't as many strings.
///
/// `m` must be the matches of this tree and library. Takes time in proportion to the values of the
/// node and the rows of maps that are read, and looks for `interrupt-parent` once.
pub fn interrupts(
    alloc: Global,
    t: &Tree,
    lib: &Library,
    m: &Matches,
    id: NodeId,
) -> Result<Vec<Irq>, End>
    requires there { id < length t.now.nodes }
    requires matches { IsMatches t.now.nodes lib.now m.now }
    ensures irqs { IfOk result (λ v. irqs_of t.now.nodes lib.now id ≡ Ok v.items) }
    ensures controllers { IfOk result
        (λ v. All (λ (irq : EntryData). irq.controller < length t.now.nodes) v.items) }
    ensures refused { IfErr result (IsRefused (irqs_of t.now.nodes lib.now id)
        (path_at t.now.nodes id)) }
{
    match interrupts_at(alloc, t, lib, m, id) {
        Ok(irqs) => Ok(irqs),
        Err(stop) => Err(t.node(id).told(alloc, stop)),
    }
}

// The same without the place of a fault.
fn interrupts_at(
    alloc: Global,
    t: &Tree,
    lib: &Library,
    m: &Matches,
    id: NodeId,
) -> Result<Vec<Irq>, Stop>
    requires there { id < length t.now.nodes }
    requires matches { IsMatches t.now.nodes lib.now m.now }
    ensures irqs { IfOk result (λ v. irqs_of t.now.nodes lib.now id ≡ Ok v.items) }
    ensures controllers { IfOk result
        (λ v. All (λ (irq : EntryData). irq.controller < length t.now.nodes) v.items) }
    ensures stop { IfErr result (IsStop (irqs_of t.now.nodes lib.now id)) }
{
    if let Some(value) = t.prop(id, "interrupts-extended") {
        return extended_irqs(alloc, t, lib, m, id, value);
    }
    match t.prop(id, "interrupts") {
        Some(value) => plain_irqs(alloc, t, lib, m, id, value),
        None => Ok(Vec::new(alloc)),
    }
}

// The interrupts of a node with this value of `interrupts-extended`.
fn extended_irqs(
    alloc: Global,
    t: &Tree,
    lib: &Library,
    m: &Matches,
    id: NodeId,
    value: &PropVal,
) -> Result<Vec<Irq>, Stop>
    requires there { id < length t.now.nodes }
    requires matches { IsMatches t.now.nodes lib.now m.now }
    ensures irqs { IfOk result (λ v. irqs_in t.now.nodes lib.now (unit_of t.now.nodes id)
        (prop_at t.now.nodes id (codes "interrupt-names")) (extended_in t.now.nodes value.now)
        ≡ Ok v.items) }
    ensures controllers { IfOk result
        (λ v. All (λ (irq : EntryData). irq.controller < length t.now.nodes) v.items) }
    ensures stop { IfErr result (IsStop (irqs_in t.now.nodes lib.now (unit_of t.now.nodes id)
        (prop_at t.now.nodes id (codes "interrupt-names")) (extended_in t.now.nodes value.now))) }
{
    let name = space_name(alloc)?;
    let space = Space::new(alloc, &name)?;
    match extended_in(alloc, t, &space, value) {
        Ok(written) => irqs_in(alloc, t, lib, m, &space, id, written),
        Err(stop) => Err(stop),
    }
}

// The interrupts of a node with this value of `interrupts`.
fn plain_irqs(
    alloc: Global,
    t: &Tree,
    lib: &Library,
    m: &Matches,
    id: NodeId,
    value: &PropVal,
) -> Result<Vec<Irq>, Stop>
    requires there { id < length t.now.nodes }
    requires matches { IsMatches t.now.nodes lib.now m.now }
    ensures irqs { IfOk result (λ v. irqs_in t.now.nodes lib.now (unit_of t.now.nodes id)
        (prop_at t.now.nodes id (codes "interrupt-names")) (plain_in t.now.nodes id value.now)
        ≡ Ok v.items) }
    ensures controllers { IfOk result
        (λ v. All (λ (irq : EntryData). irq.controller < length t.now.nodes) v.items) }
    ensures stop { IfErr result (IsStop (irqs_in t.now.nodes lib.now (unit_of t.now.nodes id)
        (prop_at t.now.nodes id (codes "interrupt-names")) (plain_in t.now.nodes id value.now))) }
{
    let name = space_name(alloc)?;
    let space = Space::new(alloc, &name)?;
    match plain_in(alloc, t, &space, id, value) {
        Ok(written) => irqs_in(alloc, t, lib, m, &space, id, written),
        Err(stop) => Err(stop),
    }
}

// The name of the space of interrupts.
fn space_name(alloc: Global) -> Result<Text, AllocError>
    ensures { IfOk result (λ name. name ≡ interrupt) }
{
    let name = String::from_str(alloc, "interrupt")?;
    Ok(Text::new(name))
}

// The interrupts of a node that has written these specifiers.
fn irqs_in(
    alloc: Global,
    t: &Tree,
    lib: &Library,
    m: &Matches,
    space: &Space<'_>,
    id: NodeId,
    written: Vec<Specifier>,
) -> Result<Vec<Irq>, Stop>
    requires space { space.now ≡ interrupt }
    requires there { id < length t.now.nodes }
    requires controllers { All (λ (s : Hop). s.node < length t.now.nodes) written.items }
    requires matches { IsMatches t.now.nodes lib.now m.now }
    ensures irqs { IfOk result (λ v. irqs_in t.now.nodes lib.now (unit_of t.now.nodes id)
        (prop_at t.now.nodes id (codes "interrupt-names")) (Ok written.items) ≡ Ok v.items) }
    ensures controllers { IfOk result
        (λ v. All (λ (irq : EntryData). irq.controller < length t.now.nodes) v.items) }
    ensures stop { IfErr result (IsStop (irqs_in t.now.nodes lib.now (unit_of t.now.nodes id)
        (prop_at t.now.nodes id (codes "interrupt-names")) (Ok written.items))) }
{
    let names = t.prop(id, "interrupt-names");
    let unit = unit_of(alloc, t, id)?;
    let unit = match &unit {
        Some(unit) => Some(unit.as_slice()),
        None => None,
    };
    let irqs = match irqs_from(alloc, t, lib, m, space, unit, names, written) {
        Ok(irqs) => irqs,
        Err(stop) => return Err(stop),
    };
    if names_fit(irqs.len(), names) {
        Ok(irqs)
    } else {
        Err(Stop::Broken(Rule::V25))
    }
}

// The interrupts of specifiers, of a node with this unit address and these names.
fn irqs_from(
    alloc: Global,
    t: &Tree,
    lib: &Library,
    m: &Matches,
    space: &Space<'_>,
    unit: Option<&[u32]>,
    names: Option<&PropVal>,
    written: Vec<Specifier>,
) -> Result<Vec<Irq>, Stop>
    requires space { space.now ≡ interrupt }
    requires controllers { All (λ (s : Hop). s.node < length t.now.nodes) written.items }
    requires matches { IsMatches t.now.nodes lib.now m.now }
    ensures irqs { IfOk result (λ v. irqs_from t.now.nodes lib.now
        (option_map (λ u. u.now) unit.entry) (name_parts (option_map (λ n. n.now) names.entry)) 0
        written.items ≡ Ok v.items) }
    ensures controllers { IfOk result
        (λ v. All (λ (irq : EntryData). irq.controller < length t.now.nodes) v.items) }
    ensures stop { IfErr result (IsStop (irqs_from t.now.nodes lib.now
        (option_map (λ u. u.now) unit.entry) (name_parts (option_map (λ n. n.now) names.entry)) 0
        written.items)) }
{
    let mut irqs = Vec::with_capacity(alloc, written.len())?;
    for start in written {
        let name = entry_name(alloc, names, irqs.len())?;
        match irq_of(alloc, t, lib, m, space, unit, name, start) {
            Ok(irq) => irqs.push(irq)?,
            Err(stop) => return Err(stop),
        }
    }
    Ok(irqs)
}

// The interrupt of this name of a specifier at a controller.
fn irq_of(
    alloc: Global,
    t: &Tree,
    lib: &Library,
    m: &Matches,
    space: &Space<'_>,
    unit: Option<&[u32]>,
    name: Option<Text>,
    start: Specifier,
) -> Result<Irq, Stop>
    requires space { space.now ≡ interrupt }
    requires there { start.node < length t.now.nodes }
    requires matches { IsMatches t.now.nodes lib.now m.now }
    ensures irq { IfOk result (λ irq. irq_of t.now.nodes lib.now
        (option_map (λ u. u.now) unit.entry) name start ≡ Ok irq) }
    ensures controller { IfOk result (λ irq. irq.controller < length t.now.nodes) }
    ensures stop { IfErr result (IsStop (irq_of t.now.nodes lib.now
        (option_map (λ u. u.now) unit.entry) name start)) }
{
    match arrived(alloc, t, space, unit, start) {
        Ok(end) => irq_at(alloc, t, lib, m, space, name, end),
        Err(stop) => Err(stop),
    }
}

// The same of a specifier where it ends.
fn irq_at(
    alloc: Global,
    t: &Tree,
    lib: &Library,
    m: &Matches,
    space: &Space<'_>,
    name: Option<Text>,
    end: Specifier,
) -> Result<Irq, Stop>
    requires space { space.now ≡ interrupt }
    requires there { end.node < length t.now.nodes }
    requires matches { IsMatches t.now.nodes lib.now m.now }
    ensures irq { IfOk result (λ irq. irq_at t.now.nodes lib.now name end ≡ Ok irq) }
    ensures controller { IfOk result (λ irq. irq.controller < length t.now.nodes) }
    ensures stop { IfErr result (IsStop (irq_at t.now.nodes lib.now name end)) }
{
    if t.prop(end.node, "interrupt-controller").is_none() {
        return Err(Stop::Broken(Rule::V31));
    }
    match named(alloc, t, lib, m, space, name, end) {
        Ok(entry) => counted(alloc, t, entry),
        Err(stop) => Err(stop),
    }
}
