//! The nodes that are left, or the first rule that all nodes break.

ghost use Rattle.std.specs.Prelude.{◌≡◌, [], IfOk, true};
ghost use Rattle.dts_tree.specs.Inner.Grown.{ParentsRise, text_of, grown_of, kids_of, order_of, shared_from};
ghost use Rattle.dts_tree.specs.Inner.Left.{keep_of, or_slash, prop_lists, whole_slots, left_of, shared_or, drafts_left};
ghost use Rattle.dts_tree.specs.References.{AnswersAs, IsFault};
ghost use Rattle.dts_tree.specs.Outcome.{at_path};

use crate::draft::Draft;
use crate::faults::fault;
use crate::finder::Finder;
use crate::grown::Grown;
use crate::names::path_lens;
use crate::order::{alive_list, kids_of, order_of};
use crate::parts::{drafts, path_of};
use crate::reader::Reader;
use crate::rules::{Known, are_too_many, first_label_shared, first_large, stays_list, want_nodes};
use crate::spot::Spot;
use edt_base::{End, Rule};
use std::alloc::{AllocError, Global};

/// The nodes that are left as drafts, or the first rule that all nodes break.
pub(crate) fn left(alloc: Global, reader: &Reader<'_>) -> Result<Vec<Draft>, End>
    requires { ParentsRise reader.now.arena.spots }
    ensures { AnswersAs result (λ v. v.items) (left_of reader.now) }
{
    let keep = alive_list(alloc, reader.arena.gone.as_slice())?;
    let whole = order(alloc, reader, keep.as_slice())?;
    let lens = path_lens(alloc, reader.arena.spots.as_slice())?;
    if are_too_many(whole.as_slice(), lens.as_slice()) {
        return Err(fault(alloc, Rule::L7, "/"));
    }
    let known = known(alloc, reader, keep.as_slice())?;
    match first_large(alloc, &known, whole.as_slice(), lens.as_slice())? {
        Some(slot) => Err(fault_at(alloc, Rule::L8, known.finder.spots(), slot)?),
        None => labelled(alloc, &known, keep.as_slice(), whole.as_slice()),
    }
}

fn known<'r, 'a>(
    alloc: Global,
    reader: &'r Reader<'a>,
    keep: &[bool],
) -> Result<Known<'r, 'a>, AllocError>
    requires { keep.now ≡ keep_of reader.now }
    ensures finder { IfOk result (λ k. k.finder ≡ reader.now) }
    ensures grown { IfOk result (λ k. k.grown ≡ grown_of reader.now) }
    ensures props { IfOk result (λ k. k.props.items ≡ prop_lists reader.now) }
{
    Ok(Known {
        finder: Finder::new(alloc, reader)?,
        grown: Grown::new(alloc, reader)?,
        props: kids_of(alloc, reader.arena.spots.as_slice(), keep, false)?,
    })
}

// The nodes that are kept, in preorder.
fn order(alloc: Global, reader: &Reader<'_>, keep: &[bool]) -> Result<Vec<usize>, AllocError>
    requires { ParentsRise reader.now.arena.spots }
    ensures { IfOk result (λ v. v.items ≡ order_of (kids_of reader.now.arena.spots keep.now true)) }
{
    let children = kids_of(alloc, reader.arena.spots.as_slice(), keep, true)?;
    order_of(alloc, children.as_slice())
}

fn labelled(
    alloc: Global,
    known: &Known<'_, '_>,
    keep: &[bool],
    whole: &[usize],
) -> Result<Vec<Draft>, End>
    requires rising { ParentsRise known.now.finder.arena.spots }
    requires grown { known.now.grown ≡ grown_of known.now.finder }
    requires props { known.now.props.items ≡ prop_lists known.now.finder }
    requires keep { keep.now ≡ keep_of known.now.finder }
    requires whole { whole.now ≡ whole_slots known.now.finder }
    ensures { AnswersAs result (λ v. v.items)
        (shared_or known.now.finder
        (shared_from (grown_of known.now.finder) [] (whole_slots known.now.finder))) }
{
    match first_label_shared(alloc, &known.grown, whole)? {
        Some(slot) => Err(fault_at(alloc, Rule::S4, known.finder.spots(), slot)?),
        None => Ok(kept(alloc, known, keep, whole)?),
    }
}

fn kept(
    alloc: Global,
    known: &Known<'_, '_>,
    keep: &[bool],
    whole: &[usize],
) -> Result<Vec<Draft>, AllocError>
    requires rising { ParentsRise known.now.finder.arena.spots }
    requires grown { known.now.grown ≡ grown_of known.now.finder }
    requires props { known.now.props.items ≡ prop_lists known.now.finder }
    requires keep { keep.now ≡ keep_of known.now.finder }
    requires whole { whole.now ≡ whole_slots known.now.finder }
    ensures { IfOk result (λ v. v.items ≡ drafts_left known.now.finder) }
{
    let mut wanted = vec![in alloc; false; known.finder.spots().len()]?;
    want_nodes(alloc, known, &mut wanted, whole)?;
    let staying = stays_list(alloc, keep, known.grown.marks(), wanted.as_slice())?;
    let kept = order(alloc, known.finder.reader(), staying.as_slice())?;
    drafts(alloc, known, kept.as_slice())
}

// A rule broken at the node of a slot.
fn fault_at(alloc: Global, rule: Rule, spots: &[Spot], slot: usize) -> Result<End, AllocError>
    requires { ParentsRise spots.now }
    ensures { IfOk result (IsFault (at_path rule (or_slash (text_of spots.now slot)))) }
{
    Ok(fault(alloc, rule, path_of(alloc, spots, slot)?.as_str()))
}
