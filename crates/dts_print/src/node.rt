//! A node's lines.

ghost use Rattle.std.specs.Prelude.{◌++◌, ◌-◌, ◌<◌, ◌^◌, codes, is_ok};
ghost use Rattle.std.specs.List.{flat_map};
ghost use Rattle.edt_base.specs.Put.{Put};
ghost use Rattle.dts_print.specs.Printed.{closing_text, joined, label_text, opening_text, part_text, prop_text, value_text};
ghost use Rattle.dts_print.specs.Inner.Steps.{closings, head_text};

use crate::part::put_part;
use crate::text::put_tabs;
use edt_base::{Block, NodeRec, Part, PropVal, Sink, Text, WriteFailed, put};
use indexmap::IndexMap;

/// Puts the lines that close the innermost of so many open nodes, down to so many that stay open.
pub(crate) fn put_closings<S: Sink>(
    out: &mut S,
    block: &mut Block,
    opened: usize,
    left: usize,
) -> Result<(), WriteFailed>
    ensures { Put (S.seen out.old) (S.seen out.new) block.old block.new (closings opened left)
        (is_ok result) }
{
    let mut depth = opened;
    while depth > left {
        depth -= 1;
        put_closing(out, block, depth)?;
    }
    Ok(())
}

// Puts the line that closes a node at a depth.
fn put_closing<S: Sink>(out: &mut S, block: &mut Block, depth: usize) -> Result<(), WriteFailed>
    ensures { Put (S.seen out.old) (S.seen out.new) block.old block.new (closing_text depth)
        (is_ok result) }
{
    put_tabs(out, block, depth)?;
    put(out, block, b"};\n")
}

/// Puts the first line of a node at a depth, and its properties.
pub(crate) fn put_head<S: Sink>(
    out: &mut S,
    block: &mut Block,
    depth: usize,
    node: &NodeRec,
) -> Result<(), WriteFailed>
    requires { depth < 2 ^ 64 - 1 }
    ensures { Put (S.seen out.old) (S.seen out.new) block.old block.new (head_text depth node.now)
        (is_ok result) }
{
    put_opening(out, block, depth, node)?;
    put_props(out, block, depth, &node.props)
}

// Puts the properties of a node at a depth.
fn put_props<S: Sink>(
    out: &mut S,
    block: &mut Block,
    depth: usize,
    props: &IndexMap<Text, PropVal>,
) -> Result<(), WriteFailed>
    requires { depth < 2 ^ 64 - 1 }
    ensures { Put (S.seen out.old) (S.seen out.new) block.old block.new
        (flat_map (prop_text depth) props.now.entries) (is_ok result) }
{
    for (name, value) in props.iter() {
        put_prop(out, block, depth, name, value)?;
    }
    Ok(())
}

// Puts the first line of a node at a depth.
fn put_opening<S: Sink>(
    out: &mut S,
    block: &mut Block,
    depth: usize,
    node: &NodeRec,
) -> Result<(), WriteFailed>
    ensures { Put (S.seen out.old) (S.seen out.new) block.old block.new
        (opening_text depth node.now) (is_ok result) }
{
    put_tabs(out, block, depth)?;
    put_labels(out, block, node.labels.as_slice())?;
    put(out, block, node.name.as_str().as_bytes())?;
    put(out, block, b" {\n")
}

// Puts labels, as they stand before a name.
fn put_labels<S: Sink>(out: &mut S, block: &mut Block, labels: &[Text]) -> Result<(), WriteFailed>
    ensures { Put (S.seen out.old) (S.seen out.new) block.old block.new
        (flat_map label_text labels.now) (is_ok result) }
{
    for label in labels {
        put_label(out, block, label)?;
    }
    Ok(())
}

// Puts a label, as it stands before a name.
fn put_label<S: Sink>(out: &mut S, block: &mut Block, label: &Text) -> Result<(), WriteFailed>
    ensures { Put (S.seen out.old) (S.seen out.new) block.old block.new (label_text label.now)
        (is_ok result) }
{
    put(out, block, label.as_str().as_bytes())?;
    put(out, block, b": ")
}

// Puts the line of a property in a node at a depth.
fn put_prop<S: Sink>(
    out: &mut S,
    block: &mut Block,
    depth: usize,
    name: &Text,
    value: &PropVal,
) -> Result<(), WriteFailed>
    requires { depth < 2 ^ 64 - 1 }
    ensures { Put (S.seen out.old) (S.seen out.new) block.old block.new
        (prop_text depth (name.now, value.now)) (is_ok result) }
{
    put_tabs(out, block, depth + 1)?;
    put(out, block, name.as_str().as_bytes())?;
    put_value(out, block, value.parts.as_slice())?;
    put(out, block, b";\n")
}

// Puts a value with what stands before it.
fn put_value<S: Sink>(out: &mut S, block: &mut Block, parts: &[Part]) -> Result<(), WriteFailed>
    ensures { Put (S.seen out.old) (S.seen out.new) block.old block.new (value_text parts.now)
        (is_ok result) }
{
    let Some((first, rest)) = parts.split_first() else {
        return Ok(());
    };
    put(out, block, b" = ")?;
    put_part(out, block, first)?;
    put_further_parts(out, block, rest)
}

// Puts parts with a comma before each.
fn put_further_parts<S: Sink>(
    out: &mut S,
    block: &mut Block,
    parts: &[Part],
) -> Result<(), WriteFailed>
    ensures { Put (S.seen out.old) (S.seen out.new) block.old block.new
        (flat_map (λ p. codes ", " ++ part_text p) parts.now) (is_ok result) }
{
    for part in parts {
        put_further_part(out, block, part)?;
    }
    Ok(())
}

// Puts a part with a comma before it.
fn put_further_part<S: Sink>(out: &mut S, block: &mut Block, part: &Part) -> Result<(), WriteFailed>
    ensures { Put (S.seen out.old) (S.seen out.new) block.old block.new
        (codes ", " ++ part_text part.now) (is_ok result) }
{
    put(out, block, b", ")?;
    put_part(out, block, part)
}
