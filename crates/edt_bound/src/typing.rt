//! The typed properties of all nodes.

ghost use Rattle.std.specs.Prelude.{◌≡◌, ◌<◌, IfErr, IfOk, Ok, length};
ghost use Rattle.edt_base.specs.Nodes.{path_at};
ghost use Rattle.edt_base.specs.Refusals.{IsRefused};
ghost use Rattle.edt_bound.specs.Phases.{AreAnswers, IsPhaseEnd};
ghost use Rattle.edt_bound.specs.Typing.{typed_at};
ghost use Rattle.pha_nexus.specs.Matching.{IsMatches};

use bind_merge::Library;
use edt_base::{End, NodeId, Prop, Tree};
use pha_nexus::Matches;
use prop_types::typed;
use std::alloc::Global;
use std::marker::Model;

/// The typed properties of a node.
#[derive(Drop)]
pub(crate) struct Props {
    pub(crate) list: Vec<Prop>,
}

impl Model for Props {
    ghost use Rattle.std.specs.Prelude.{List};
    ghost use Rattle.edt_base.specs.PropData.{PropData};

    ghost Value = { List PropData };

    ghost view = { λ p. p.list.items };
}

/// The typed properties of each node, in which a phandle-array has no entries (Zephyr 3.7,
/// "Devicetree bindings syntax"); or the first fault in them, in preorder. These must be the matches
/// of this tree and library.
pub(crate) fn all_typed(
    alloc: Global,
    t: &Tree,
    lib: &Library,
    m: &Matches,
) -> Result<Vec<Props>, End>
    requires { IsMatches t.now.nodes lib.now m.now }
    ensures all { IfOk result (λ v. AreAnswers (typed_at t.now.nodes lib.now)
        (length t.now.nodes) v.items) }
    ensures refused { IfErr result (IsPhaseEnd t.now.nodes (typed_at t.now.nodes lib.now)) }
{
    t.is_well_formed();
    let count = t.nodes().len();
    let mut all = Vec::with_capacity(alloc, count)?;
    for place in 0..count {
        match typed_at(alloc, t, lib, m, NodeId(place as u32)) {
            Ok(next) => all.push(next)?,
            Err(end) => return Err(end),
        }
    }
    Ok(all)
}

fn typed_at(alloc: Global, t: &Tree, lib: &Library, m: &Matches, id: NodeId) -> Result<Props, End>
    requires there { id < length t.now.nodes }
    requires matches { IsMatches t.now.nodes lib.now m.now }
    ensures is { IfOk result (λ p. typed_at t.now.nodes lib.now id ≡ Ok p) }
    ensures refused { IfErr result (IsRefused (typed_at t.now.nodes lib.now id)
        (path_at t.now.nodes id)) }
{
    let view = m.view(alloc, t, lib, id)?;
    match typed(alloc, t, id, view.as_ref()) {
        Ok(list) => Ok(Props { list }),
        Err(end) => Err(end),
    }
}
