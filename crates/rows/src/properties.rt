//! Rows of `prop_types`: `board` is a source, and `node` the path of a node of it. `binding` has the
//! lines of the node's binding file behind its `description` and `compatible`, where it has one;
//! `included` those of a file `base.yaml`. With `child` the node has the file's child-binding.
//!
//! The answer has the node's typed properties, each `NAME=VALUE` with a blank after it, or the rule
//! that it breaks: numbers in decimal, several in `{ }`, bytes in `[ ]`, texts in quotes, nodes as
//! their paths behind `&`; behind a value `#` and the place in `enum` with the form of each tested
//! one.

ghost use Rattle.std.specs.Prelude.{◌<◌, length};

use crate::boards::{node_at, tree_of};
use crate::table::Row;
use bind_merge::Library;
use edt_base::{Bytes, End, NodeId, Place, Prop, Text, Tree, Val};
use prop_types::typed;
use std::alloc::{AllocError, Global};

pub fn answer(alloc: Global, row: &Row) -> Result<Option<String>, AllocError> {
    let Some(source) = row.bytes("board") else {
        return Ok(None);
    };
    let path = row.text("node").unwrap_or("/");
    let mut out = String::new(alloc);
    match push_typed(alloc, row, source, path, &mut out) {
        Ok(()) => {}
        Err(End::Fault(fault)) => match &fault.place {
            Place::Node(place) if place.as_str() == path => write!(out, "{}", fault.rule)?,
            _ => write!(out, "{fault}")?,
        },
        Err(End::Memory(e)) => return Err(e),
    }
    Ok(Some(out))
}

fn push_typed(
    alloc: Global,
    row: &Row,
    source: &[u8],
    path: &str,
    out: &mut String,
) -> Result<(), End> {
    let tree = tree_of(alloc, source)?;
    let id = node_at(&tree, path);
    let props = match row.bytes("binding") {
        Some(binding) => typed_by(alloc, row, &tree, id, binding)?,
        None => typed(alloc, &tree, id, None)?,
    };
    for prop in props.iter() {
        show_prop(out, &tree, prop)?;
    }
    Ok(())
}

/// The properties of a node by its binding file.
fn typed_by(
    alloc: Global,
    row: &Row,
    tree: &Tree,
    id: NodeId,
    binding: &[u8],
) -> Result<Vec<Prop>, End>
    requires { id < length tree.now.nodes }
{
    let mut library = library_of(alloc, binding, row.bytes("included").unwrap_or(b""))?;
    let compats = vec![in alloc; Text::new(String::from_str(alloc, "v,x")?)]?;
    library.load(alloc, &compats)?;
    let compat = Text::new(String::from_str(alloc, "v,x")?);
    let Some(file) = library.find(&compat, None) else {
        return Ok(Vec::new(alloc));
    };
    let view = library.view(alloc, file)?;
    if row.bytes("child").is_none() {
        return typed(alloc, tree, id, Some(&view));
    }
    match view.child(alloc)? {
        Some(child) => typed(alloc, tree, id, Some(&child)),
        None => typed(alloc, tree, id, None),
    }
}

/// The two files of a row.
fn library_of(alloc: Global, binding: &[u8], included: &[u8]) -> Result<Library, AllocError> {
    let mut file = Vec::new(alloc);
    file.extend_from_slice(b"description: x\ncompatible: \"v,x\"\n")?;
    file.extend_from_slice(binding)?;
    let mut base = Vec::new(alloc);
    base.extend_from_slice(included)?;
    let mut files = Vec::new(alloc);
    let name = Text::new(String::from_str(alloc, "d/x.yaml")?);
    files.push((name, Bytes::new(file)))?;
    let name = Text::new(String::from_str(alloc, "d/base.yaml")?);
    files.push((name, Bytes::new(base)))?;
    Ok(Library::new(files))
}

fn show_prop(out: &mut String, tree: &Tree, prop: &Prop) -> Result<(), AllocError> {
    write!(out, "{}=", prop.name.as_str())?;
    show_value(out, tree, &prop.val)?;
    for (at, form) in prop.choices.iter() {
        write!(out, "#{at}:{}", form.as_str())?;
    }
    out.push_str(" ")
}

fn show_value(out: &mut String, tree: &Tree, val: &Val) -> Result<(), AllocError> {
    match val {
        Val::Bool(truth) => write!(out, "{truth}"),
        Val::Int(number) => write!(out, "{number}"),
        Val::Ints(numbers) => show_numbers(out, numbers.as_slice()),
        Val::U8s(bytes) => show_bytes(out, bytes.as_slice()),
        Val::Str(text) => write!(out, "'{}'", text.as_str()),
        Val::Strs(texts) => show_texts(out, texts.as_slice()),
        Val::Node(id) => show_node(out, tree, *id),
        Val::Nodes(ids) => show_nodes(out, tree, ids.as_slice()),
        Val::Entries(entries) => write!(out, "entries:{}", entries.len()),
        Val::Compound => out.push_str("compound"),
    }
}

fn show_numbers(out: &mut String, numbers: &[u32]) -> Result<(), AllocError> {
    out.push_str("{")?;
    for number in numbers {
        write!(out, "{number},")?;
    }
    out.push_str("}")
}

fn show_bytes(out: &mut String, bytes: &[u8]) -> Result<(), AllocError> {
    out.push_str("[")?;
    for byte in bytes {
        write!(out, "{byte},")?;
    }
    out.push_str("]")
}

fn show_texts(out: &mut String, texts: &[Text]) -> Result<(), AllocError> {
    for text in texts {
        write!(out, "'{}',", text.as_str())?;
    }
    Ok(())
}

fn show_node(out: &mut String, tree: &Tree, id: NodeId) -> Result<(), AllocError> {
    match tree.nodes().get(id.0 as usize) {
        Some(node) => write!(out, "&{}", node.path.as_str()),
        None => out.push_str("&"),
    }
}

fn show_nodes(out: &mut String, tree: &Tree, ids: &[NodeId]) -> Result<(), AllocError> {
    for id in ids {
        show_node(out, tree, *id)?;
    }
    Ok(())
}
