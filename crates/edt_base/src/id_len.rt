//! The length of each node's id, so that names and headers need no memory for it.

ghost use Rattle.std.specs.Prelude.{◌≡◌, ◌<◌, ◌^◌, IfOk, length, map, if◌then◌else◌};
ghost use Rattle.edt_base.specs.Forms.{form_char};
ghost use Rattle.edt_base.specs.Ids.{begins_name, id_rest, id_size};

use crate::NodeRec;
use std::alloc::{AllocError, Global};

/// The length of the id of each node. The one error is want of memory.
pub(crate) fn id_lens(alloc: Global, nodes: &[NodeRec]) -> Result<Vec<u64>, AllocError>
    ensures { IfOk result (λ v. v.items ≡ map (λ n. id_size n.path) nodes.now) }
{
    let mut lens = Vec::with_capacity(alloc, nodes.len())?;
    for node in nodes {
        lens.push(id_len(node.path.as_str().as_bytes()))?;
    }
    Ok(lens)
}

// The length of the id of a path's node.
#[tactic(auto, unfolding(crate::specs::Ids::id_text))]
fn id_len(path: &[u8]) -> u64
    ensures { result ≡ id_size path.now }
{
    let mut len: u64 = 4;
    let mut within = false;
    let mut left = path;
    while let Some((byte, rest)) = left.split_first() {
        if *byte == b'/' {
            within = true;
            if begins_name(rest) {
                len = len.saturating_add(3);
            }
        } else if within && is_first(*byte) {
            len = len.saturating_add(1);
        }
        left = rest;
    }
    len
}

// A name stands here, and neither the end nor another `/`.
fn begins_name(rest: &[u8]) -> bool
    ensures { result ≡ begins_name rest.now }
{
    match rest.first() {
        Some(byte) => *byte != b'/',
        None => false,
    }
}

// The byte is the first of its character.
fn is_first(byte: u8) -> bool
    ensures { length (form_char byte) ≡ (if result then 1 else 0) }
{
    byte < 128 || byte >= 192
}
