//! What is open where the reader stands.

ghost use Rattle.std.specs.Prelude.{◌≡◌, ◌∷◌, ◌<◌, [], IfOk, IfSome, MatchOption, length, map};
ghost use Rattle.std.specs.List.{zip};
ghost use Rattle.edt_base.specs.YamlData.{value_of, pair_of, a_map, a_list, pairs_from, items_from};
ghost use Rattle.yaml_profile.specs.Inner.Shown.{frame_of, frames_of};
ghost use Rattle.yaml_profile.specs.Fronts.{closed, is_full, is_flow, is_map_at, is_deeper};

use edt_base::{Text, Yaml};
use indexmap::IndexSet;
use std::alloc::{AllocError, Global};

/// What a text may be where it stands.
#[derive(Clone, Copy, Debug)]
pub enum Role {
    /// A value.
    Value,
    /// A value, or the first key of a map at this column.
    Either(u64),
    /// A further key of the innermost map.
    Key,
}

/// An open collection.
#[derive(Debug, Drop)]
pub enum Frame {
    /// A map at a column: its keys, and their values, but for that of the last key while it is
    /// read.
    Map {
        column: u64,
        keys: IndexSet<Text>,
        values: Vec<Yaml>,
    },
    /// A list at a column: the items before the one that is read.
    List {
        column: u64,
        items: Vec<Yaml>,
    },
    /// A flow list.
    Flow {
        items: Vec<Yaml>,
    },
}

/// Keys with their values.
fn pairs(
    alloc: Global,
    keys: IndexSet<Text>,
    values: Vec<Yaml>,
) -> Result<Vec<(Text, Yaml)>, AllocError>
    ensures { IfOk result (λ v. v.items ≡ zip keys.keys values.items) }
{
    keys.into_iter().zip(values).collect(alloc)
}

fn map_of(pairs: Vec<(Text, Yaml)>) -> Yaml
    ensures { value_of result ≡ a_map (pairs_from (map pair_of pairs.items)) }
{
    Yaml::Map(pairs)
}

pub(crate) fn list_of(items: Vec<Yaml>) -> Yaml
    ensures { value_of result ≡ a_list (items_from (map value_of items.items)) }
{
    Yaml::List(items)
}

/// The collection whose last value this is.
#[tactic(auto, using(crate::proofs::FrameLaws::pairs_zip, crate::proofs::FrameLaws::map_push))]
pub(crate) fn close(alloc: Global, frame: Frame, value: Yaml) -> Result<Yaml, AllocError>
    ensures { IfOk result (λ v. value_of v ≡ closed (frame_of frame) (value_of value)) }
{
    match frame {
        Frame::Map {
            keys,
            mut values,
            ..
        } => {
            values.push(value)?;
            Ok(map_of(pairs(alloc, keys, values)?))
        }
        Frame::List { mut items, .. } => {
            items.push(value)?;
            Ok(list_of(items))
        }
        Frame::Flow { mut items } => {
            items.push(value)?;
            Ok(list_of(items))
        }
    }
}

/// Puts a collection on the open ones.
pub(crate) fn push(frames: &mut Vec<Frame>, frame: Frame) -> Result<(), AllocError>
    ensures { IfOk result (λ _. frames_of frames.new.items ≡ frame_of frame
        ∷ frames_of frames.old.items) }
{
    match frames.push(frame) {
        Ok(()) => Ok(()),
        Err(_) => Err(AllocError),
    }
}

/// Takes the innermost open collection.
#[tactic(auto, using(crate::proofs::FrameLaws::frames_push))]
pub(crate) fn pop(frames: &mut Vec<Frame>) -> Option<Frame>
    ensures cases { MatchOption result ((frames_of frames.old.items ≡ [])
        × (frames_of frames.new.items ≡ [])) (λ f. frames_of frames.old.items ≡ frame_of f
        ∷ frames_of frames.new.items) }
    ensures fewer { IfSome result (λ _. length frames.new.items < length frames.old.items) }
{
    frames.pop()
}

/// Whether 32 collections are open.
#[tactic(auto, using(crate::proofs::FrameLaws::length_frames))]
pub(crate) fn is_full(frames: &[Frame]) -> bool
    ensures { result ≡ is_full (frames_of frames.now) }
{
    frames.len() >= 32
}

/// Whether the innermost collection is a flow list.
#[tactic(auto, using(crate::proofs::FrameLaws::frames_push))]
pub(crate) fn is_flow(frames: &[Frame]) -> bool
    ensures { result ≡ is_flow (frames_of frames.now) }
{
    match frames.split_last() {
        Some((Frame::Flow { .. }, _)) => true,
        _ => false,
    }
}

/// Whether the innermost collection is a map at this column.
#[tactic(auto, using(crate::proofs::FrameLaws::frames_push))]
pub(crate) fn is_map_at(column: u64, frames: &[Frame]) -> bool
    ensures { result ≡ is_map_at column (frames_of frames.now) }
{
    match frames.split_last() {
        Some((Frame::Map { column: own, .. }, _)) => *own == column,
        _ => false,
    }
}

/// Whether a column is deeper than the enclosing block.
#[tactic(auto, using(crate::proofs::FrameLaws::frames_push))]
pub(crate) fn is_deeper(column: u64, frames: &[Frame]) -> bool
    ensures { result ≡ is_deeper column (frames_of frames.now) }
{
    match frames.split_last() {
        Some((Frame::Map { column: own, .. }, _)) => *own < column,
        Some((Frame::List { column: own, .. }, _)) => *own < column,
        Some((Frame::Flow { .. }, around)) => is_deeper(column, around),
        None => true,
    }
}
