//! The nodes that sources leave, as drafts.

ghost use Rattle.std.specs.Prelude.{◌≡◌, All, IfOk, length};
ghost use Rattle.dts_parse.specs.Nested.{IsNested};
ghost use Rattle.dts_tree.specs.Inner.DraftRules.{AreDrafts};
ghost use Rattle.dts_tree.specs.Outcome.{drafted};
ghost use Rattle.dts_tree.specs.References.{AnswersAs};

use crate::draft::Draft;
use crate::left::left;
use crate::sources::read;
use dts_parse::Script;
use edt_base::{End, Text};
use std::alloc::Global;

/// The nodes that the statements of sources leave, or the first broken rule of those that speak of
/// statements and of all nodes.
pub(crate) fn drafted_of(
    alloc: Global,
    files: &Vec<Text>,
    scripts: &Vec<Script>,
) -> Result<Vec<Draft>, End>
    requires { length files.now.items ≡ length scripts.now.items }
    ensures drafted { AnswersAs result (λ v. v.items) (drafted files.now.items scripts.now.items) }
    ensures rules { IfOk result (λ v. AreDrafts v.items) }
{
    are_nested(scripts);
    match read(alloc, files, scripts) {
        Ok(reader) => left(alloc, &reader),
        Err(end) => Err(end),
    }
}

// The statements of each source nest well: by a call, a caller's proof learns it.
fn are_nested(scripts: &Vec<Script>)
    ensures { All IsNested scripts.now.items }
{
    for script in scripts.as_slice() {
        script.is_nested();
    }
}
