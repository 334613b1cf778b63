//! Broken rules at nodes.

ghost use Rattle.dts_tree.specs.Outcome.{at_path};
ghost use Rattle.dts_tree.specs.References.{IsFault};

use edt_base::{End, Fault, Place, Rule, Text};
use std::alloc::Global;

/// A rule broken at the node of a path.
pub(crate) fn fault(alloc: Global, rule: Rule, path: &str) -> End
    ensures { IsFault (at_path rule path.now) result }
{
    match String::from_str(alloc, path) {
        Ok(path) => End::Fault(Fault {
            rule,
            place: Place::Node(Text::new(path)),
        }),
        Err(e) => End::Memory(e),
    }
}
