//! Whether siblings have names of their own.

ghost use Rattle.std.specs.Prelude.{◌≡◌, IfOk, map};
ghost use Rattle.edt_run.specs.Nodes.{name_of, named};
ghost use Rattle.edt_run.specs.Reading.{sibling_names};
ghost use Rattle.edt_run.specs.Small.{all_differ};

use crate::node::Node;
use std::alloc::{AllocError, Global};

/// Whether no two of the nodes have one name. Takes time as sorting the names does.
pub(crate) fn are_apart(alloc: Global, nodes: &[Node]) -> Result<bool, AllocError>
    ensures { IfOk result (λ apart. apart ≡ all_differ (sibling_names (map named nodes.now))) }
{
    let mut names = names_of(alloc, nodes)?;
    names.sort_unstable();
    Ok(names.is_sorted_by(|before, after| before < after))
}

fn names_of(alloc: Global, nodes: &[Node]) -> Result<Vec<&str>, AllocError>
    ensures { IfOk result (λ names. map (λ b. b.now) names.items ≡ map name_of nodes.now) }
{
    let mut names = Vec::with_capacity(alloc, nodes.len())?;
    for node in nodes {
        names.push(node.name.as_str())?;
    }
    Ok(names)
}
