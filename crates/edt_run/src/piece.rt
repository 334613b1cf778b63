//! The parts of a header's lines.

ghost use Rattle.std.specs.Prelude.{is_ok};
ghost use Rattle.std.specs.List.{flat_map};
ghost use Rattle.edt_base.specs.Put.{Put};
ghost use Rattle.edt_run.specs.Piece.{text_of};

use crate::trail::{Trail, put_id, put_path};
use edt_base::{Block, Sink, WriteFailed, put};
use itoa::Buffer;

/// A part of a line.
#[derive(Clone, Copy)]
pub(crate) enum Piece<'a> {
    Text(&'a str),
    /// The path of the node that the trail leads to, which is nothing for the root.
    Path(&'a Trail<'a>),
    /// The id of that node.
    Id(&'a Trail<'a>),
    /// A number in decimal.
    Number(usize),
}

fn put_piece<S: Sink>(out: &mut S, block: &mut Block, piece: &Piece) -> Result<(), WriteFailed>
    ensures { Put (S.seen out.old) (S.seen out.new) block.old block.new (text_of piece.now) (is_ok result) }
{
    match piece {
        Piece::Text(text) => put(out, block, text.as_bytes()),
        Piece::Path(trail) => put_path(out, block, trail),
        Piece::Id(trail) => put_id(out, block, trail),
        Piece::Number(n) => put(out, block, Buffer::new().format(*n).as_bytes()),
    }
}

/// Puts pieces one behind the other.
pub(crate) fn put_all<S: Sink>(
    out: &mut S,
    block: &mut Block,
    pieces: &[Piece],
) -> Result<(), WriteFailed>
    ensures { Put (S.seen out.old) (S.seen out.new) block.old block.new (flat_map text_of pieces.now) (is_ok result) }
{
    for piece in pieces {
        put_piece(out, block, piece)?;
    }
    Ok(())
}
