//! The way from the root to a node.

ghost use Rattle.std.specs.Prelude.{is_ok};
ghost use Rattle.edt_base.specs.Put.{Put};
ghost use Rattle.edt_run.specs.Trail.{path_of, id_of};

use edt_base::{Block, Sink, WriteFailed, put};

/// The way from the root to a node: the names on it, which stay where they are. So the path and the
/// id of the node at hand take no memory.
#[derive(Clone, Copy)]
pub(crate) enum Trail<'a> {
    Root,
    /// The child of this name of the node that the trail leads to.
    Below(&'a Trail<'a>, &'a str),
}

/// Puts the path, which is nothing for the root.
pub(crate) fn put_path<S: Sink>(
    out: &mut S,
    block: &mut Block,
    trail: &Trail,
) -> Result<(), WriteFailed>
    ensures { Put (S.seen out.old) (S.seen out.new) block.old block.new (path_of trail.now) (is_ok result) }
{
    match trail {
        Trail::Root => {}
        Trail::Below(up, name) => {
            put_path(out, block, up)?;
            put(out, block, b"/")?;
            put(out, block, name.as_bytes())?;
        }
    }
    Ok(())
}

/// Puts the id.
pub(crate) fn put_id<S: Sink>(
    out: &mut S,
    block: &mut Block,
    trail: &Trail,
) -> Result<(), WriteFailed>
    ensures { Put (S.seen out.old) (S.seen out.new) block.old block.new (id_of trail.now) (is_ok result) }
{
    match trail {
        Trail::Root => put(out, block, b"DT_N")?,
        Trail::Below(up, name) => {
            put_id(out, block, up)?;
            put(out, block, b"_S_")?;
            put(out, block, name.as_bytes())?;
        }
    }
    Ok(())
}
