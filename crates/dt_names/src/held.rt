//! What a definition says besides its name, to be compared with what a later one says.

ghost use Rattle.std.specs.Prelude.{◌≡◌, IfOk, List, ℕ, map, true};
ghost use Rattle.edt_base.specs.Nodes.{path_at};
ghost use Rattle.edt_base.specs.Forms.{form_of};
ghost use Rattle.dt_names.specs.Clash.{AreSame, same_params, same_said};
ghost use Rattle.dt_names.specs.Facts.{elem_visit, id_at};
ghost use Rattle.dt_names.specs.Pieces.{spells};
ghost use Rattle.dt_names.specs.Inner.Rows.{body_pieces, things_at};

use crate::fact::body_of;
use crate::forms::form_char;
use crate::piece::Params;
use crate::pieces::Pieces;
use crate::row::{Body, Things};
use crate::spelled::spelled;
use edt_base::{Bound, NodeId};
use std::alloc::{AllocError, Global};
use std::marker::Model;

/// The parameters and the body of a definition. Contracts see them in pieces.
#[derive(Drop)]
pub(crate) struct Held<'a> {
    pub(crate) bound: &'a Bound,
    pub(crate) owner: u32,
    pub(crate) params: Params,
    pub(crate) body: Body<'a>,
}

impl<'a> Model for Held<'a> {
    ghost use Rattle.dt_names.specs.Clash.{SaidData};
    ghost use Rattle.dt_names.specs.Inner.Rows.{body_pieces};

    ghost Value = { SaidData };

    ghost view = { λ h. record {
      params = h.params;
      body = body_pieces h.bound.now.tree.nodes h.owner
          h.params h.body;
    } };
}

impl<'a> Held<'a> {
    fn body(&self) -> Pieces<'a>
        ensures { result ≡ self.now.body }
    {
        body_of(self.bound, self.owner, self.params, self.body)
    }
}

/// Whether two definitions have the same parameters and the same body, as it is spelled. Bodies
/// that may be long, as walks and ids, are told the same without being spelled. The one error is
/// want of memory.
pub(crate) fn same_said(alloc: Global, a: &Held<'_>, b: &Held<'_>) -> Result<bool, AllocError>
    ensures { IfOk result (λ r. r ≡ same_said a.now b.now) }
{
    if a.params != b.params {
        return Ok(false);
    }
    if is_same_body(a, b) {
        return Ok(true);
    }
    let first = spelled(alloc, a.body())?;
    let second = spelled(alloc, b.body())?;
    Ok(first.as_slice() == second.as_slice())
}

// Bodies that are seen to be the same without being spelled.
fn is_same_body(a: &Held<'_>, b: &Held<'_>) -> bool
    requires { a.now.params ≡ b.now.params }
    ensures { result ≡ true → spells a.now.body ≡ spells b.now.body }
{
    match a.body {
        Body::Id(first) => match b.body {
            Body::Id(second) => path(a.bound, first) == path(b.bound, second),
            _ => false,
        },
        Body::Visits(first) => match b.body {
            Body::Visits(second) => same_things(a.bound, a.owner, first, b.bound, b.owner, second),
            _ => false,
        },
        _ => false,
    }
}

// Things that are seen to be the same without being spelled.
fn same_things(
    a: &Bound,
    owner: u32,
    first: Things<'_>,
    b: &Bound,
    other: u32,
    second: Things<'_>,
) -> bool
    ensures { result ≡ true
        → AreSame (things_at a.now.tree.nodes owner first.entry)
        (things_at b.now.tree.nodes other second.entry) }
{
    match first {
        Things::Ids(left) => match second {
            Things::Ids(right) => same_ids(a, left, b, right),
            _ => false,
        },
        Things::Elems(name, count) => match second {
            Things::Elems(twin, number) => {
                count == number
                    && same_elems(
                        path(a, owner as usize),
                        name.text,
                        path(b, other as usize),
                        twin.text,
                    )
            }
            _ => false,
        },
        _ => false,
    }
}

// Elements of two properties are visited alike, as far as the place.
fn same_elems(path: &[u8], name: &[u8], other: &[u8], twin: &[u8]) -> bool
    ensures { result ≡ true → (places : List ℕ)
        → AreSame (map (elem_visit path.now name.now) places)
        (map (elem_visit other.now twin.now) places) }
{
    path == other && same_form(name, twin)
}

// The path of the node at a place, empty past the nodes.
fn path(bound: &Bound, node: usize) -> &[u8]
    ensures { result.now ≡ path_at bound.now.tree.nodes node }
{
    match bound.tree.nodes().get(node) {
        Some(found) => found.path.as_str().as_bytes(),
        None => &[],
    }
}

// The nodes have the same paths, one after the other.
fn same_ids(a: &Bound, left: &[NodeId], b: &Bound, right: &[NodeId]) -> bool
    ensures { result ≡ true
        → AreSame (map (id_at a.now.tree.nodes) left.now) (map (id_at b.now.tree.nodes) right.now) }
{
    let mut first = left;
    let mut second = right;
    while let Some((x, xs)) = first.split_first() {
        let Some((y, ys)) = second.split_first() else {
            return false;
        };
        if path(a, x.0 as usize) != path(b, y.0 as usize) {
            return false;
        }
        first = xs;
        second = ys;
    }
    second.is_empty()
}

// Two texts have one form.
#[tactic(auto, unfolding(edt_base::specs::Forms::form_of))]
fn same_form(a: &[u8], b: &[u8]) -> bool
    ensures { result ≡ true → form_of a.now ≡ form_of b.now }
{
    let mut left = a;
    let mut right = b;
    while let Some((x, xs)) = left.split_first() {
        let Some((y, ys)) = right.split_first() else {
            return false;
        };
        if form_char(*x) != form_char(*y) {
            return false;
        }
        left = xs;
        right = ys;
    }
    right.is_empty()
}
