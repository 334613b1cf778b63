//! The header of a tree of nodes, written as it is made: writing takes no memory.

ghost use Rattle.std.specs.Prelude.{is_ok};
ghost use Rattle.edt_base.specs.Outside.{Wrote};
ghost use Rattle.edt_run.specs.Header.{header, lines_below, node_lines, name_lines, parent_lines, end_lines, root_lines};
ghost use Rattle.edt_run.specs.Nodes.{forest_of};
ghost use Rattle.edt_base.specs.Put.{Put};
ghost use Rattle.edt_run.specs.Trail.{path_of, id_of};

use crate::node::Node;
use crate::piece::{Piece, put_all};
use crate::trail::Trail;
use edt_base::{Block, Sink, WriteFailed, flush};

/// Writes the header of the root with these nodes below it. With `WriteFailed` a prefix of it was
/// written. Takes no memory; braces nest no deeper than the reader lets them, so neither do the
/// calls.
pub(crate) fn emit<S: Sink>(nodes: &[Node], out: &mut S) -> Result<(), WriteFailed>
    ensures { Wrote (S.seen out.old) (S.seen out.new) (header (forest_of nodes.now)) (is_ok result) }
{
    let mut block = Block::new();
    put_root_lines(out, &mut block, nodes.len())?;
    put_below(out, &mut block, &Trail::Root, nodes)?;
    flush(out, &mut block)?;
    Ok(())
}

/// Puts the lines of the root.
#[tactic(auto, unfolding(crate::specs::Header::root_lines))]
fn put_root_lines<S: Sink>(
    out: &mut S,
    block: &mut Block,
    children: usize,
) -> Result<(), WriteFailed>
    ensures { Put (S.seen out.old) (S.seen out.new) block.old block.new (root_lines children) (is_ok result) }
{
    put_all(
        out,
        block,
        &[
            Piece::Text(
                "/* / */\n#define DT_N_PATH \"/\"\n#define DT_N_FULL_NAME \"/\"\n#define DT_N_CHILD_NUM ",
            ),
            Piece::Number(children),
            Piece::Text("\n#define DT_N_EXISTS 1\n"),
        ],
    )
}

/// Puts the lines of the children of the node that the trail leads to, and of all below them.
fn put_below<'a, S: Sink>(
    out: &mut S,
    block: &mut Block,
    parent: &'a Trail<'a>,
    nodes: &'a [Node],
) -> Result<(), WriteFailed>
    ensures { Put (S.seen out.old) (S.seen out.new) block.old block.new
        (lines_below (path_of parent.now) (id_of parent.now) 0 (forest_of nodes.now)) (is_ok result) }
{
    for (place, node) in nodes.iter().enumerate() {
        let name = node.name.as_str();
        let here = Trail::Below(&*parent, name);
        put_node_lines(out, block, &here, &*parent, place, name, node.below.len())?;
        put_below(out, block, &here, node.below.as_slice())?;
    }
    Ok(())
}

/// Puts the lines of a node that isn't the root.
fn put_node_lines<'a, S: Sink>(
    out: &mut S,
    block: &mut Block,
    here: &'a Trail<'a>,
    parent: &'a Trail<'a>,
    place: usize,
    name: &'a str,
    children: usize,
) -> Result<(), WriteFailed>
    ensures { Put (S.seen out.old) (S.seen out.new) block.old block.new
        (node_lines (path_of here.now) (id_of here.now) (id_of parent.now) place name.now children) (is_ok result) }
{
    put_name_lines(out, block, here, name)?;
    put_parent_lines(out, block, here, parent, place)?;
    put_end_lines(out, block, here, children)?;
    Ok(())
}

fn put_name_lines<'a, S: Sink>(
    out: &mut S,
    block: &mut Block,
    here: &'a Trail<'a>,
    name: &'a str,
) -> Result<(), WriteFailed>
    ensures { Put (S.seen out.old) (S.seen out.new) block.old block.new
        (name_lines (id_of here.now) (path_of here.now) name.now) (is_ok result) }
{
    put_all(
        out,
        block,
        &[
            Piece::Text("/* "),
            Piece::Path(here),
            Piece::Text(" */\n#define "),
            Piece::Id(here),
            Piece::Text("_PATH \""),
            Piece::Path(here),
            Piece::Text("\"\n#define "),
            Piece::Id(here),
            Piece::Text("_FULL_NAME \""),
            Piece::Text(name),
            Piece::Text("\"\n"),
        ],
    )
}

fn put_parent_lines<'a, S: Sink>(
    out: &mut S,
    block: &mut Block,
    here: &'a Trail<'a>,
    parent: &'a Trail<'a>,
    place: usize,
) -> Result<(), WriteFailed>
    ensures { Put (S.seen out.old) (S.seen out.new) block.old block.new
        (parent_lines (id_of here.now) (id_of parent.now) place) (is_ok result) }
{
    put_all(
        out,
        block,
        &[
            Piece::Text("#define "),
            Piece::Id(here),
            Piece::Text("_PARENT "),
            Piece::Id(parent),
            Piece::Text("\n#define "),
            Piece::Id(here),
            Piece::Text("_CHILD_IDX "),
            Piece::Number(place),
            Piece::Text("\n"),
        ],
    )
}

fn put_end_lines<S: Sink>(
    out: &mut S,
    block: &mut Block,
    here: &Trail,
    children: usize,
) -> Result<(), WriteFailed>
    ensures { Put (S.seen out.old) (S.seen out.new) block.old block.new
        (end_lines (id_of here.now) children) (is_ok result) }
{
    put_all(
        out,
        block,
        &[
            Piece::Text("#define "),
            Piece::Id(here),
            Piece::Text("_CHILD_NUM "),
            Piece::Number(children),
            Piece::Text("\n#define "),
            Piece::Id(here),
            Piece::Text("_EXISTS 1\n"),
        ],
    )
}
