//! Finds each node's binding and bus.

ghost use Rattle.std.specs.Prelude.{◌≡◌, ◌+◌, ◌<◌, ◌^◌, IfOk, IfSome, length, map};
ghost use Rattle.std.specs.Prelude.{None, Some, option_and_then, option_map, slice_get, true};
ghost use Rattle.std.specs.List.{range_with_len};
ghost use Rattle.bind_merge.specs.Matching.{is_bound};
ghost use Rattle.pha_nexus.specs.Matching.{Bus, IsMatches, binding_by, bus_in, buses_of, child_of};
ghost use Rattle.pha_nexus.specs.Matching.{compats_at, file_for, first_file, match_at, match_by};
ghost use Rattle.pha_nexus.specs.Matching.{names_on, no_match};

use bind_merge::Library;
use edt_base::{FileNo, NodeId, Text, Tree};
use pha_nexus::{Matches, view_at};
use std::alloc::{AllocError, Global};
use std::marker::Model;

/// The bus that a node is on: the bus node, and the buses that its binding names.
#[derive(Drop)]
pub(crate) struct BusOn<'a> {
    node: NodeId,
    names: &'a Vec<Text>,
}

impl<'a> Model for BusOn<'a> {
    ghost use Rattle.pha_nexus.specs.Matching.{Bus};

    ghost Value = { Bus };

    ghost view = { λ b. record { node = b.node; names = b.names.now.items } };
}

/// What is found for a node.
#[derive(Drop)]
pub(crate) struct Found<'a> {
    binding: Option<(FileNo, u32)>,
    bus: Option<BusOn<'a>>,
}

impl<'a> Model for Found<'a> {
    ghost use Rattle.pha_nexus.specs.Matching.{Match};

    ghost Value = { Match };

    ghost view = { λ f. record { binding = f.binding; bus = f.bus } };
}

/// The binding and the bus of each node of a tree (Zephyr 3.7, "Devicetree bindings syntax"). The
/// bus node of a node is its parent, where the parent's binding has `bus`, else the parent's bus
/// node. A node's binding is the first that the library has for one of its compatible strings, each
/// tried on the buses of its bus node in order and then on none; a node without compatible strings
/// has the child-binding of its parent's binding.
///
/// The library is to be loaded with the tree's compatible strings. The one error is want of memory.
pub fn matches(alloc: Global, t: &Tree, lib: &Library) -> Result<Matches, AllocError>
    ensures { IfOk result (IsMatches t.now.nodes lib.now) }
{
    t.is_well_formed();
    let count = t.nodes().len();
    let mut found = Vec::with_capacity(alloc, count)?;
    let mut of = Vec::with_capacity(alloc, count)?;
    let mut bus = Vec::with_capacity(alloc, count)?;
    for place in 0..count {
        let next = next_found(alloc, t, lib, found.as_slice(), NodeId(place as u32))?;
        of.push(next.binding)?;
        bus.push(bus_node(&next.bus))?;
        found.push(next)?;
    }
    Ok(Matches { of, bus })
}

// What is found for a node, after all before it.
fn next_found<'a>(
    alloc: Global,
    t: &Tree,
    lib: &'a Library,
    found: &[Found<'a>],
    id: NodeId,
) -> Result<Found<'a>, AllocError>
    requires there { id < length t.now.nodes }
    requires before { found.now ≡ map (match_at t.now.nodes lib.now) (range_with_len 0 id) }
    ensures { IfOk result (λ f. f ≡ match_at t.now.nodes lib.now id) }
{
    t.is_well_formed();
    let compats = compats_of(t, id);
    match t.parent(id) {
        Some(up) => {
            let above = found_for(found, up);
            let next = found_below(alloc, lib, up, above, compats)?;
            Ok(next)
        }
        None => {
            let next = found_at_root(alloc, lib, compats)?;
            Ok(next)
        }
    }
}

/// The compatible strings of a node.
pub(crate) fn compats_of(t: &Tree, id: NodeId) -> &[Text]
    requires { id < length t.now.nodes }
    ensures { result.now ≡ compats_at t.now.nodes id }
{
    t.node(id).compats.as_slice()
}

fn found_for<'b, 'a>(found: &'b [Found<'a>], id: NodeId) -> &'b Found<'a>
    requires { id < length found.now }
    ensures { slice_get found.now id ≡ Some result.now }
{
    &found[id.0 as usize]
}

// What is found for the root.
fn found_at_root<'a>(
    alloc: Global,
    lib: &'a Library,
    compats: &[Text],
) -> Result<Found<'a>, AllocError>
    ensures { IfOk result (λ f. f ≡ match_by lib.now None no_match compats.now) }
{
    let binding = binding_by(alloc, lib, &None, None, compats)?;
    Ok(Found { binding, bus: None })
}

// What is found for a node with these compatible strings in a node.
fn found_below<'a>(
    alloc: Global,
    lib: &'a Library,
    up: NodeId,
    above: &Found<'a>,
    compats: &[Text],
) -> Result<Found<'a>, AllocError>
    requires bound { IfSome above.now.binding (λ b. is_bound lib.now.bindings b.0 ≡ true) }
    requires room { IfSome above.now.binding (λ b. b.1 + 1 < 2 ^ 32) }
    ensures { IfOk result (λ f. f ≡ match_by lib.now
        (bus_in lib.now up above.now) above.now compats.now) }
{
    let bus = bus_in(alloc, lib, up, above)?;
    let binding = binding_by(alloc, lib, &bus, above.binding, compats)?;
    Ok(Found { binding, bus })
}

// The bus of the nodes in a node.
fn bus_in<'a>(
    alloc: Global,
    lib: &'a Library,
    up: NodeId,
    above: &Found<'a>,
) -> Result<Option<BusOn<'a>>, AllocError>
    requires { IfSome above.now.binding (λ b. is_bound lib.now.bindings b.0 ≡ true) }
    ensures { IfOk result (λ bus. bus ≡ bus_in lib.now up above.now) }
{
    match buses_of(alloc, lib, above.binding)? {
        Some(names) => Ok(Some(BusOn { node: up, names })),
        None => Ok(again(&above.bus)),
    }
}

// The buses that a binding names.
fn buses_of<'a>(
    alloc: Global,
    lib: &'a Library,
    binding: Option<(FileNo, u32)>,
) -> Result<Option<&'a Vec<Text>>, AllocError>
    requires { IfSome binding (λ b. is_bound lib.now.bindings b.0 ≡ true) }
    ensures { IfOk result (λ r. option_map (λ v. v.now.items) r
        ≡ option_and_then (buses_of lib.now) binding) }
{
    let Some((file, steps)) = binding else {
        return Ok(None);
    };
    match view_at(alloc, lib, file, steps)? {
        Some(view) => Ok(view.buses()),
        None => Ok(None),
    }
}

fn again<'a>(bus: &Option<BusOn<'a>>) -> Option<BusOn<'a>>
    ensures { result ≡ bus.now }
{
    match bus {
        Some(bus) => Some(BusOn {
            node: bus.node,
            names: bus.names,
        }),
        None => None,
    }
}

fn bus_node(bus: &Option<BusOn<'_>>) -> Option<NodeId>
    ensures { result ≡ option_map (λ (b : Bus). b.node) bus.now }
{
    match bus {
        Some(bus) => Some(bus.node),
        None => None,
    }
}

// The buses to try for a node on a bus.
fn names_on<'b>(bus: &'b Option<BusOn<'_>>) -> &'b [Text]
    ensures { result.now ≡ names_on bus.now }
{
    match bus {
        Some(bus) => bus.names.as_slice(),
        None => &[],
    }
}

// The binding of a node on a bus, by its compatible strings and its parent's binding.
fn binding_by(
    alloc: Global,
    lib: &Library,
    bus: &Option<BusOn<'_>>,
    above: Option<(FileNo, u32)>,
    compats: &[Text],
) -> Result<Option<(FileNo, u32)>, AllocError>
    requires bound { IfSome above (λ b. is_bound lib.now.bindings b.0 ≡ true) }
    requires room { IfSome above (λ b. b.1 + 1 < 2 ^ 32) }
    ensures { IfOk result (λ r. r ≡ binding_by lib.now bus.now above compats.now) }
{
    if compats.is_empty() {
        let child = child_of(alloc, lib, above)?;
        return Ok(child);
    }
    match first_file(lib, names_on(bus), compats) {
        Some(file) => Ok(Some((file, 0))),
        None => Ok(None),
    }
}

// The child-binding of a binding.
fn child_of(
    alloc: Global,
    lib: &Library,
    above: Option<(FileNo, u32)>,
) -> Result<Option<(FileNo, u32)>, AllocError>
    requires bound { IfSome above (λ b. is_bound lib.now.bindings b.0 ≡ true) }
    requires room { IfSome above (λ b. b.1 + 1 < 2 ^ 32) }
    ensures { IfOk result (λ r. r ≡ option_and_then (child_of lib.now) above) }
{
    let Some((file, steps)) = above else {
        return Ok(None);
    };
    match view_at(alloc, lib, file, steps + 1)? {
        Some(_) => Ok(Some((file, steps + 1))),
        None => Ok(None),
    }
}

// The file of the first binding for one of these compatible strings.
fn first_file(lib: &Library, buses: &[Text], compats: &[Text]) -> Option<FileNo>
    ensures { result ≡ first_file lib.now buses.now compats.now }
{
    for compat in compats {
        if let Some(file) = file_for(lib, buses, compat) {
            return Some(file);
        }
    }
    None
}

// The file of the binding for a compatible string: on the first bus that has one, else on none.
fn file_for(lib: &Library, buses: &[Text], compat: &Text) -> Option<FileNo>
    ensures { result ≡ file_for lib.now buses.now compat.now }
{
    for bus in buses {
        if let Some(file) = lib.find(compat, Some(bus)) {
            return Some(file);
        }
    }
    lib.find(compat, None)
}
