//! The length of the source, without writing it.

ghost use Rattle.std.specs.Prelude.{◌≡◌, ◌+◌, ◌-◌, ◌^◌, ◌<◌, ◌++◌, codes, false, length, min};
ghost use Rattle.std.specs.Fmt.{digits};
ghost use Rattle.std.specs.List.{flat_map};
ghost use Rattle.dts_print.specs.Printed.{escaped, label_text, list_text, number_text, opening_text, pairs_text, part_text, printed, prop_text, quoted, value_text};
ghost use Rattle.dts_print.specs.Inner.Numbers.{numbers_of};
ghost use Rattle.dts_print.specs.Inner.Steps.{closings, head_text, text_from};

use crate::depth::depth_of;
use crate::part::{Width, first_number};
use crate::text::before_last;
use edt_base::{Kind, NodeRec, Part, PropVal, Text, Tree};
use indexmap::IndexMap;

/// The length of the source that prints a tree in bytes, at most the greatest 64-bit number: that
/// of what `print` writes. Linear in the tree, and takes no memory.
pub fn print_len(tree: &Tree) -> u64
    ensures { result ≡ min (length (printed tree.now)) (2 ^ 64 - 1) }
{
    tree.is_well_formed();
    nodes_len(tree.nodes().as_slice()).saturating_add(10)
}

// The length of the text of nodes in preorder.
fn nodes_len(nodes: &[NodeRec]) -> u64
    ensures { result ≡ min (length (text_from nodes.now 0 0 nodes.now)) (2 ^ 64 - 1) }
{
    let mut len: u64 = 0;
    let mut opened = 0;
    for (place, node) in nodes.iter().enumerate() {
        let depth = depth_of(nodes, node.parent, opened, place);
        len = len
            .saturating_add(closings_len(opened, depth))
            .saturating_add(head_len(depth, node));
        opened = depth + 1;
    }
    len.saturating_add(closings_len(opened, 0))
}

// The length of the lines that close nodes.
fn closings_len(opened: usize, left: usize) -> u64
    ensures { result ≡ min (length (closings opened left)) (2 ^ 64 - 1) }
{
    let mut len: u64 = 0;
    let mut depth = opened;
    while depth > left {
        depth -= 1;
        len = len.saturating_add((depth as u64).saturating_add(3));
    }
    len
}

#[tactic(auto, unfolding(crate::specs::Inner::Steps::head_text))]
// The length of a node's first line and its properties.
fn head_len(depth: usize, node: &NodeRec) -> u64
    ensures { result ≡ min (length (head_text depth node.now)) (2 ^ 64 - 1) }
{
    opening_len(depth, node).saturating_add(props_len(depth, &node.props))
}

#[tactic(auto, unfolding(crate::specs::Printed::opening_text))]
// The length of a node's first line.
fn opening_len(depth: usize, node: &NodeRec) -> u64
    ensures { result ≡ min (length (opening_text depth node.now)) (2 ^ 64 - 1) }
{
    labels_len(node.labels.as_slice())
        .saturating_add(node.name.as_str().len() as u64)
        .saturating_add(depth as u64)
        .saturating_add(3)
}

// The length of labels, as they stand before a name.
fn labels_len(labels: &[Text]) -> u64
    ensures { result ≡ min (length (flat_map label_text labels.now)) (2 ^ 64 - 1) }
{
    let mut len: u64 = 0;
    for label in labels {
        len = len
            .saturating_add(label.as_str().len() as u64)
            .saturating_add(2);
    }
    len
}

// The length of the properties of a node at a depth.
fn props_len(depth: usize, props: &IndexMap<Text, PropVal>) -> u64
    ensures { result
        ≡ min (length (flat_map (prop_text depth) props.now.entries)) (2 ^ 64 - 1) }
{
    let mut len: u64 = 0;
    for (name, value) in props.iter() {
        len = len.saturating_add(prop_len(depth, name, value));
    }
    len
}

#[tactic(auto, unfolding(crate::specs::Printed::prop_text))]
// The length of the line of a property in a node at a depth.
fn prop_len(depth: usize, name: &Text, value: &PropVal) -> u64
    ensures { result ≡ min (length (prop_text depth (name.now, value.now))) (2 ^ 64 - 1) }
{
    value_len(value.parts.as_slice())
        .saturating_add(name.as_str().len() as u64)
        .saturating_add(depth as u64)
        .saturating_add(3)
}

#[tactic(auto, unfolding(crate::specs::Printed::value_text))]
// The length of a value with what stands before it.
fn value_len(parts: &[Part]) -> u64
    ensures { result ≡ min (length (value_text parts.now)) (2 ^ 64 - 1) }
{
    let Some((first, rest)) = parts.split_first() else {
        return 0;
    };
    part_len(first)
        .saturating_add(further_parts_len(rest))
        .saturating_add(3)
}

// The length of parts with a comma before each.
fn further_parts_len(parts: &[Part]) -> u64
    ensures { result
        ≡ min (length (flat_map (λ p. codes ", " ++ part_text p) parts.now)) (2 ^ 64 - 1) }
{
    let mut len: u64 = 0;
    for part in parts {
        len = len.saturating_add(part_len(part)).saturating_add(2);
    }
    len
}

// The length of a part.
fn part_len(part: &Part) -> u64
    ensures { result ≡ min (length (part_text part.now)) (2 ^ 64 - 1) }
{
    let bytes = part.bytes.as_slice();
    match part.kind {
        Kind::Str => quoted_len(before_last(bytes)),
        Kind::Cells => list_len(Width::Cell, bytes),
        Kind::Hex => pairs_len(bytes),
        Kind::Wide => list_len(Width::Half, bytes).saturating_add(10),
        Kind::Path => (before_last(bytes).len() as u64).saturating_add(3),
    }
}

#[tactic(auto, unfolding(crate::specs::Printed::quoted))]
// The length of a text in quotes.
fn quoted_len(text: &[u8]) -> u64
    ensures { result ≡ min (length (quoted text.now)) (2 ^ 64 - 1) }
{
    escapes_len(text).saturating_add(2)
}

// The length of a text as it stands between quotes.
fn escapes_len(text: &[u8]) -> u64
    ensures { result ≡ min (length (flat_map escaped text.now)) (2 ^ 64 - 1) }
{
    let mut len: u64 = 0;
    for byte in text {
        len = len.saturating_add(escaped_len(*byte));
    }
    len
}

// The length of a byte in a text in quotes.
fn escaped_len(byte: u8) -> u64
    ensures { result ≡ length (escaped byte) }
{
    if byte == b'"' || byte == b'\\' {
        2
    } else if 32 <= byte && byte <= 126 {
        1
    } else {
        4
    }
}

// The length of bytes in square brackets.
fn pairs_len(bytes: &[u8]) -> u64
    ensures { result ≡ min (length (pairs_text bytes.now)) (2 ^ 64 - 1) }
{
    let Some((_first, rest)) = bytes.split_first() else {
        return 2;
    };
    (rest.len() as u64).saturating_mul(3).saturating_add(4)
}

// The length of numbers of so many bytes each in angle brackets.
fn list_len(width: Width, bytes: &[u8]) -> u64
    ensures { result ≡ min (length (list_text (numbers_of width bytes.now))) (2 ^ 64 - 1) }
{
    let Some((first, rest)) = first_number(width, bytes) else {
        return 2;
    };
    further_numbers_len(width, rest).saturating_add(number_len(first) + 2)
}

// The length of numbers with a space before each.
fn further_numbers_len(width: Width, bytes: &[u8]) -> u64
    ensures { result ≡ min (length (flat_map (λ n. codes " " ++ number_text n)
        (numbers_of width bytes.now))) (2 ^ 64 - 1) }
{
    let mut len: u64 = 0;
    let mut left = bytes;
    while let Some((number, rest)) = first_number(width, left) {
        len = len.saturating_add(number_len(number) + 1);
        left = rest;
    }
    len
}

#[tactic(auto, unfolding(crate::specs::Printed::number_text))]
// The length of a number.
fn number_len(n: u32) -> u64
    ensures len { result ≡ length (number_text n) }
    ensures fits { result < 2 ^ 33 }
{
    digits_len(n) + 2
}

// The number of hexadecimal digits of a number.
fn digits_len(n: u32) -> u64
    ensures len { result ≡ length (digits 16 false n) }
    ensures fits { result < 2 ^ 32 + 1 }
{
    let mut len: u64 = 1;
    let mut left = n;
    while left >= 16 {
        left /= 16;
        len += 1;
    }
    len
}
