//! A node's properties in the order of their names. The map that holds them isn't asked: its hashes
//! can be foreseen, so that crafted names would make each look-up go over all of them.

ghost use Rattle.std.specs.Prelude.{◌≡◌, ◌<◌, IfOk, Some, length, option_map, slice_get};
ghost use Rattle.std.specs.List.{range_with_len};
ghost use Rattle.std.specs.List.Sorted.{IsPermutation, IsSortedByKey};
ghost use Rattle.std.specs.Ordering.{nat_cmp};
ghost use Rattle.std.specs.Cmp.Lexicographic.{slice_cmp};
ghost use Rattle.edt_base.specs.NodeData.{prop_of};
ghost use Rattle.edt_base.specs.Inner.PropOrder.{IsPropOrder, IsPlaceOf, name_at};

use crate::{PropVal, Text};
use indexmap::IndexMap;
use std::alloc::{AllocError, Global};
use std::cmp::Ordering;
use std::marker::Model;

/// The places of a node's properties, sorted by their names.
#[derive(Drop)]
pub struct PropOrder {
    places: Vec<usize>,
}

impl Model for PropOrder {
    ghost use Rattle.std.specs.Prelude.{List, ℕ};

    ghost Value = { List ℕ };

    ghost view = { λ o. o.places.items };
}

impl PropOrder {
    /// The order of these properties, in time n log n. The one error is want of memory.
    pub fn new(alloc: Global, props: &IndexMap<Text, PropVal>) -> Result<PropOrder, AllocError>
        ensures { IfOk result (λ o. IsPropOrder props.now.entries o) }
    {
        let mut places = list_places(alloc, props.len())?;
        sort_places(props, &mut places);
        Ok(PropOrder { places })
    }

    /// The value of the property of this name, found by halving.
    pub fn find<'a>(&self, props: &'a IndexMap<Text, PropVal>, name: &str) -> Option<&'a PropVal>
        requires { IsPropOrder props.now.entries self.now }
        ensures { option_map (λ v. v.now) result ≡ prop_of name.now props.now.entries }
    {
        let (_, value) = props.get_index(find_place(props, self.places.as_slice(), name)?)?;
        Some(value)
    }
}

// The name of the property at a place, empty past them.
fn name_at(props: &IndexMap<Text, PropVal>, at: usize) -> &str
    ensures { result.now ≡ name_at props.now.entries at }
{
    match props.get_index(at) {
        Some((name, _)) => name.as_str(),
        None => "",
    }
}

// So many places, in order.
fn list_places(alloc: Global, count: usize) -> Result<Vec<usize>, AllocError>
    ensures { IfOk result (λ v. v.items ≡ range_with_len 0 count) }
{
    let mut places = Vec::with_capacity(alloc, count)?;
    for at in 0..count {
        places.push(at)?;
    }
    Ok(places)
}

fn sort_places(props: &IndexMap<Text, PropVal>, places: &mut Vec<usize>)
    ensures moved { IsPermutation places.old.items places.new.items }
    ensures sorted { IsSortedByKey (name_at props.now.entries) (slice_cmp nat_cmp) places.new.items }
{
    places.sort_unstable_by(|a, b| name_at(props, *a).cmp(name_at(props, *b)));
}

// The place of the property of a name.
fn find_place(props: &IndexMap<Text, PropVal>, places: &[usize], name: &str) -> Option<usize>
    requires { IsPropOrder props.now.entries places.now }
    ensures { IsPlaceOf props.now.entries name.now result }
{
    match places.binary_search_by(|at| name_at(props, *at).cmp(name)) {
        Ok(at) => Some(place_at(places, at)),
        Err(_) => None,
    }
}

fn place_at(places: &[usize], at: usize) -> usize
    requires { at < length places.now }
    ensures { slice_get places.now at ≡ Some result }
{
    places[at]
}
