//! Which bindings nodes have, and on which buses they are.

ghost use Rattle.std.specs.Prelude.{◌≡◌, ◌<◌, IfOk, IfSome, length, option_and_then, slice_get};
ghost use Rattle.std.specs.Prelude.{true};
ghost use Rattle.bind_merge.specs.Matching.{is_bound};
ghost use Rattle.pha_nexus.specs.Matching.{IsMatches, binding_at, levels_at, there};

use bind_merge::{Library, View};
use edt_base::{FileNo, NodeId, Tree};
use std::alloc::{AllocError, Global};
use std::marker::Model;

/// The bindings and the bus nodes of all nodes of a tree, in preorder (Zephyr 3.7, "Devicetree
/// bindings syntax").
#[derive(Drop)]
pub struct Matches {
    /// Of each node its binding, where it has one: the file of a matching binding, and how many
    /// child-bindings down in it.
    pub of: Vec<Option<(FileNo, u32)>>,
    /// Of each node the node of the bus that it is on, where it is on one.
    pub bus: Vec<Option<NodeId>>,
}

impl Model for Matches {
    ghost use Rattle.pha_nexus.specs.Matching.{MatchesData};

    ghost Value = { MatchesData };

    ghost view = { λ m. record { of = m.of.items; bus = m.bus.items } };
}

impl Matches {
    /// The merged binding of a node; None exactly where the node has none. These must be the
    /// matches of this tree and library. The one error is want of memory.
    pub fn view<'a>(
        &self,
        alloc: Global,
        t: &Tree,
        lib: &'a Library,
        id: NodeId,
    ) -> Result<Option<View<'a>>, AllocError>
        requires there { id < length t.now.nodes }
        requires matches { IsMatches t.now.nodes lib.now self.now }
        ensures { IfOk result (λ v. v ≡ binding_at t.now.nodes lib.now id) }
    {
        let _ = t;
        view_of(alloc, lib, self.binding(id))
    }

    // The binding of a node.
    fn binding(&self, id: NodeId) -> Option<(FileNo, u32)>
        ensures { result ≡ there (slice_get self.now.of id) }
    {
        *self.of.get(id.0 as usize)?
    }
}

fn view_of<'a>(
    alloc: Global,
    lib: &'a Library,
    binding: Option<(FileNo, u32)>,
) -> Result<Option<View<'a>>, AllocError>
    requires { IfSome binding (λ b. is_bound lib.now.bindings b.0 ≡ true) }
    ensures { IfOk result (λ v. v ≡ option_and_then (levels_at lib.now) binding) }
{
    match binding {
        Some((file, steps)) => view_at(alloc, lib, file, steps),
        None => Ok(None),
    }
}

/// The merged binding that stands so many child-bindings down in a file's, which `find` gave since
/// the last load; None exactly where there is none. The one error is want of memory.
pub fn view_at<'a>(
    alloc: Global,
    lib: &'a Library,
    file: FileNo,
    steps: u32,
) -> Result<Option<View<'a>>, AllocError>
    requires { is_bound lib.now.bindings file ≡ true }
    ensures { IfOk result (λ v. v ≡ levels_at lib.now (file, steps)) }
{
    let mut view = lib.view(alloc, file)?;
    for _ in 0..steps {
        match view.child(alloc)? {
            Some(child) => view = child,
            None => return Ok(None),
        }
    }
    Ok(Some(view))
}
