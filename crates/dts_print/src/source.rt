//! The source that prints a tree.

ghost use Rattle.std.specs.Prelude.{◌++◌, ◌-◌, ◌^◌, ◌<◌, is_ok};
ghost use Rattle.edt_base.specs.Outside.{Wrote};
ghost use Rattle.edt_base.specs.Put.{Put};
ghost use Rattle.dts_print.specs.Printed.{printed};
ghost use Rattle.dts_print.specs.Inner.Steps.{closings, head_text, text_from};

use crate::depth::depth_of;
use crate::node::{put_closings, put_head};
use edt_base::{Block, NodeRec, Sink, Tree, WriteFailed, flush, put};

/// Writes the source that prints a tree, as `printed` in `specs/Printed.antt` has it: each node's
/// labels, properties and children in order. With `WriteFailed`, which comes only where the sink's
/// count of faults rose, a prefix of it was written. Takes no memory.
pub fn print<S: Sink>(tree: &Tree, out: &mut S) -> Result<(), WriteFailed>
    ensures { Wrote (S.seen out.old) (S.seen out.new) (printed tree.now) (is_ok result) }
{
    tree.is_well_formed();
    let mut block = Block::new();
    put(out, &mut block, b"/dts-v1/;\n")?;
    put_nodes(out, &mut block, tree.nodes().as_slice())?;
    flush(out, &mut block)
}

// Puts nodes in preorder, each with the lines that close those before it.
fn put_nodes<S: Sink>(out: &mut S, block: &mut Block, nodes: &[NodeRec]) -> Result<(), WriteFailed>
    ensures { Put (S.seen out.old) (S.seen out.new) block.old block.new
        (text_from nodes.now 0 0 nodes.now) (is_ok result) }
{
    let mut opened = 0;
    for (place, node) in nodes.iter().enumerate() {
        let depth = depth_of(nodes, node.parent, opened, place);
        put_next(out, block, opened, depth, node)?;
        opened = depth + 1;
    }
    put_closings(out, block, opened, 0)
}

// Puts the lines that close nodes, and those of the node after them.
fn put_next<S: Sink>(
    out: &mut S,
    block: &mut Block,
    opened: usize,
    depth: usize,
    node: &NodeRec,
) -> Result<(), WriteFailed>
    requires { depth < 2 ^ 64 - 1 }
    ensures { Put (S.seen out.old) (S.seen out.new) block.old block.new
        (closings opened depth ++ head_text depth node.now) (is_ok result) }
{
    put_closings(out, block, opened, depth)?;
    put_head(out, block, depth, node)
}
