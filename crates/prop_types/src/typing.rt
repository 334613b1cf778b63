//! The typed properties of a node.

ghost use Rattle.std.specs.Prelude.{◌≡◌, ◌||◌, ◌++◌, ◌∷◌, ◌<◌, [], IfErr, IfOk, OnOk, List, Ok, Some};
ghost use Rattle.std.specs.Prelude.{codes, filter, length, map, nat_eq, not, option_map, ℕ};
ghost use Rattle.std.specs.Prelude.{if◌then◌else◌};
ghost use Rattle.std.specs.List.{ends_with, list_any, starts_with};
ghost use Rattle.edt_base.specs.Nodes.{path_at};
ghost use Rattle.edt_base.specs.Refusals.{IsRefused, IsStop};
ghost use Rattle.edt_base.specs.declared.node.Part.{Part};
ghost use Rattle.prop_types.specs.Declaring.{declared_in};
ghost use Rattle.prop_types.specs.Inner.Places.{HasNames, has_name};
ghost use Rattle.prop_types.specs.Inner.Seen.{seen};
ghost use Rattle.prop_types.specs.Typing.{is_free, is_neither, is_standard, is_written, plain};
ghost use Rattle.prop_types.specs.Typing.{plain_ones, typed_of};

use crate::declaring::declared_in;
use crate::properties::{Declared, typed_all};
use bind_merge::View;
use edt_base::{End, NodeId, NodeRec, Prop, PropType, Rule, Stop, Tree};
use std::alloc::{AllocError, Global};
use std::collections::BTreeMap;

/// The typed properties of a node by its merged binding, or of a node without one (Zephyr 3.7,
/// "Devicetree bindings syntax"), in byte order of their names. The node's place must be below the
/// number of nodes. A phandle-array comes with no entries.
///
/// A declared property that is written has the value that its parts have as its type; one that
/// isn't has its `default`, and a boolean is then 0; one without any is left out. A node without a
/// binding has of `compatible`, `status`, `label`, `reg`, `reg-names`, `interrupts`,
/// `interrupt-names` and `interrupt-controller` those that are written.
///
/// The fault is told at the node, and is the first of these. V12 where the node has a property that
/// isn't declared, but for one that ends `-controller`, begins `#` or is one that each node may
/// have. Then by declared property: V11 where its value is of the wrong kind, V20 where a cell is
/// no node's phandle; V10 where it isn't written, though it has to be and the node is okay; V13
/// where a value, or an element of it, is no entry of `enum`; V14 where it isn't `const`. The last
/// two are tested on a default too.
///
/// Takes time n log n in the properties and their bytes and in the entries of `enum`.
pub fn typed(alloc: Global, t: &Tree, id: NodeId, v: Option<&View<'_>>) -> Result<Vec<Prop>, End>
    requires { id < length t.now.nodes }
    ensures is { IfOk result (λ props. typed_of t.now.nodes id
        (option_map (λ v. declared_in v.now) v.entry) ≡ Ok props.items) }
    ensures refused { IfErr result (IsRefused (typed_of t.now.nodes id
        (option_map (λ v. declared_in v.now) v.entry)) (path_at t.now.nodes id)) }
{
    match typed_of(alloc, t, id, v) {
        Ok(props) => Ok(props),
        Err(stop) => Err(t.node(id).told(alloc, stop)),
    }
}

// The same without the place of a fault.
#[tactic(auto, unfolding(crate::specs::Typing::typed_of))]
fn typed_of(alloc: Global, t: &Tree, id: NodeId, v: Option<&View<'_>>) -> Result<Vec<Prop>, Stop>
    requires { id < length t.now.nodes }
    ensures is { IfOk result (λ props. typed_of t.now.nodes id
        (option_map (λ v. declared_in v.now) v.entry) ≡ Ok props.items) }
    ensures stop { IfErr result (IsStop (typed_of t.now.nodes id
        (option_map (λ v. declared_in v.now) v.entry))) }
{
    match v {
        Some(view) => typed_by(alloc, t, id, view),
        None => {
            let plain = plain_ones(alloc, t, id)?;
            typed_all(alloc, t, id, plain.as_slice())
        }
    }
}

// The typed properties of a node by its merged binding.
#[tactic(auto, unfolding(crate::specs::Typing::typed_of))]
fn typed_by(alloc: Global, t: &Tree, id: NodeId, view: &View<'_>) -> Result<Vec<Prop>, Stop>
    requires { id < length t.now.nodes }
    ensures is { IfOk result (λ props. typed_of t.now.nodes id (Some (declared_in view.now))
        ≡ Ok props.items) }
    ensures stop { IfErr result
        (IsStop (typed_of t.now.nodes id (Some (declared_in view.now)))) }
{
    let declared = declared_in(alloc, view)?;
    if has_undeclared(alloc, t.node(id), declared.as_slice())? {
        return Err(Stop::Broken(Rule::V12));
    }
    typed_all(alloc, t, id, declared.as_slice())
}

// Whether a node has a property that is neither declared nor free.
fn has_undeclared(
    alloc: Global,
    node: &NodeRec,
    declared: &[Declared<'_>],
) -> Result<bool, AllocError>
    ensures { IfOk result
        (λ has. has ≡ list_any (is_neither (map seen declared.now)) node.now.props) }
{
    let types = types_of(alloc, declared)?;
    Ok(has_neither(node, &types))
}

// The types of declared properties by their names.
fn types_of<'a>(
    alloc: Global,
    declared: &[Declared<'a>],
) -> Result<BTreeMap<&'a str, PropType>, AllocError>
    ensures { IfOk result (λ m. HasNames (map seen declared.now) m) }
{
    let mut types = BTreeMap::new(alloc);
    for property in declared {
        types.insert(property.name, property.ty)?;
    }
    Ok(types)
}

// Whether a node has a property that has no type and isn't free.
fn has_neither(node: &NodeRec, types: &BTreeMap<&str, PropType>) -> bool
    ensures { result ≡ list_any (λ (p : List ℕ × List Part).
        not (has_name types.now p.0 || is_free p.0)) node.now.props }
{
    for (name, _) in node.props.iter() {
        if !has_name(types, name.as_str()) && !is_free(name.as_str()) {
            return true;
        }
    }
    false
}

fn has_name(types: &BTreeMap<&str, PropType>, name: &str) -> bool
    ensures { result ≡ has_name types.now name.now }
{
    types.contains_key(name)
}

// Whether a node may have a property of this name though its binding doesn't declare it.
fn is_free(name: &str) -> bool
    ensures { result ≡ is_free name.now }
{
    is_controller(name) || is_count(name) || is_standard(name)
}

// A name of a controller's mark, as `interrupt-controller`.
fn is_controller(name: &str) -> bool
    ensures { result ≡ ends_with nat_eq name.now (codes "-controller") }
{
    name.ends_with("-controller")
}

// A name of a count, as `#gpio-cells`.
fn is_count(name: &str) -> bool
    ensures { result ≡ starts_with nat_eq name.now (codes "#") }
{
    name.starts_with("#")
}

// The name of a property that each node may have.
#[tactic(auto, unfolding(crate::specs::Typing::is_standard))]
fn is_standard(name: &str) -> bool
    ensures { result ≡ is_standard name.now }
{
    name == "compatible"
        || name == "status"
        || name == "ranges"
        || name == "phandle"
        || name == "interrupt-parent"
        || name == "interrupts-extended"
        || name == "device_type"
}

// The written ones of the properties that a node without a binding has, in byte order.
fn plain_ones(alloc: Global, t: &Tree, id: NodeId) -> Result<Vec<Declared<'static>>, AllocError>
    requires { id < length t.now.nodes }
    ensures { IfOk result (λ v. map seen v.items ≡ filter (is_written t.now.nodes id) plain_ones) }
{
    let ones = [
        plain("compatible", PropType::StrArray),
        plain("interrupt-controller", PropType::Boolean),
        plain("interrupt-names", PropType::StrArray),
        plain("interrupts", PropType::Array),
        plain("label", PropType::Str),
        plain("reg", PropType::Array),
        plain("reg-names", PropType::StrArray),
        plain("status", PropType::Str),
    ];
    written_ones(alloc, t, id, &ones)
}

// A property of which only the type is declared.
fn plain(name: &str, ty: PropType) -> Declared<'_>
    ensures { seen result ≡ plain name.now ty }
{
    Declared {
        name,
        ty,
        required: false,
        default: None,
        constant: None,
        choices: None,
    }
}

// Those of some declared properties that are written.
fn written_ones<'a>(
    alloc: Global,
    t: &Tree,
    id: NodeId,
    ones: &[Declared<'a>],
) -> Result<Vec<Declared<'a>>, AllocError>
    requires { id < length t.now.nodes }
    ensures { IfOk result
        (λ v. map seen v.items ≡ filter (is_written t.now.nodes id) (map seen ones.now)) }
{
    let mut written = Vec::with_capacity(alloc, ones.len())?;
    for one in ones {
        push_if(&mut written, *one, t.prop(id, one.name).is_some())?;
    }
    Ok(written)
}

fn push_if<'a>(list: &mut Vec<Declared<'a>>, one: Declared<'a>, is: bool) -> Result<(), AllocError>
    ensures { OnOk result (list.new.items ≡ list.old.items ++ (if is then one.entry ∷ [] else [])) }
{
    if is {
        list.push(one)?;
        Ok(())
    } else {
        Ok(())
    }
}
