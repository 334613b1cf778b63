//! The tree of sources.

ghost use Rattle.std.specs.Prelude.{◌≡◌, length};
ghost use Rattle.dts_tree.specs.Outcome.{outcome};
ghost use Rattle.dts_tree.specs.References.{Answers};

use crate::drafted::drafted_of;
use crate::finish::finish;
use dts_parse::Script;
use edt_base::{End, Text, Tree};
use std::alloc::Global;

/// The tree that the statements of sources leave, the base's first and then those of the overlays
/// (Devicetree Specification v0.4, chapters 2 and 6). `files` are the names of the sources.
///
/// The first broken rule is refused: a reference of a statement that names no node (S3); then, of
/// all nodes that are there, too many nodes or bytes of paths (L7), a property of too many bytes
/// (L8), a label on two nodes (S4); then, of the nodes that are left, a reference that names none
/// (V1), a `phandle` that is none or is another node's (V2), an alias of no node (V3), and a
/// `compatible` or `status` that is no text (V11).
///
/// Takes time n log n in the statements.
pub fn build(alloc: Global, files: &Vec<Text>, scripts: &Vec<Script>) -> Result<Tree, End>
    requires { length files.now.items ≡ length scripts.now.items }
    ensures { Answers (outcome files.now.items scripts.now.items) result }
{
    match drafted_of(alloc, files, scripts) {
        Ok(drafts) => finish(alloc, drafts),
        Err(end) => Err(end),
    }
}
