//! The parameters of a macro by their names.

ghost use Rattle.std.specs.Prelude.{◌≡◌, IfOk, List, ℕ, length, Some, None, ◌&&◌, if◌then◌else◌};
ghost use Rattle.std.specs.BTreeMap as tree;
ghost use Rattle.std.specs.Ordering.{nat_cmp};
ghost use Rattle.std.specs.Cmp.Lexicographic.{slice_cmp};
ghost use Rattle.c_macro.specs.Directive.{all_params, is_among, is_va_args};
ghost use Rattle.c_macro.specs.Bodies.{place_of, param_of};

use crate::tokens::{is_va_args, is_word};
use c_tokens::Tok;
use edt_base::Text;
use std::alloc::{AllocError, Global};
use std::collections::BTreeMap;
use std::marker::Model;

/// The parameters of a macro, with an ordered table of their places. Contracts see their names, that of
/// the variable part last.
#[derive(Drop)]
pub(crate) struct Places<'a> {
    names: &'a [Text],
    variadic: bool,
    places: BTreeMap<&'a str, usize>,
}

impl<'a> Model for Places<'a> {
    ghost use Rattle.std.specs.Prelude.{◌≡◌, List, ℕ};
    ghost use Rattle.std.specs.BTreeMap as tree;
    ghost use Rattle.std.specs.Ordering.{nat_cmp};
    ghost use Rattle.std.specs.Cmp.Lexicographic.{slice_cmp};
    ghost use Rattle.c_macro.specs.Directive.{all_params};
    ghost use Rattle.c_macro.specs.Bodies.{place_of};

    ghost Value = { List (List ℕ) };

    ghost view = { λ p. all_params p.names.now p.variadic };

    ghost invariant = { λ p. (q : List ℕ) → tree.get_by (λ k. slice_cmp nat_cmp q k.now) p.places ≡ place_of q p.names.now };
}

/// The place of each name; of a name that stands twice the first. The one error is want of memory.
fn places_of<'a>(alloc: Global, names: &'a [Text]) -> Result<BTreeMap<&'a str, usize>, AllocError>
    ensures { IfOk result (λ m. (q : List ℕ) → tree.get_by (λ k. slice_cmp nat_cmp q k.now) m ≡ place_of q names.now) }
{
    let mut places = BTreeMap::new(alloc);
    let mut left = names;
    while let Some((name, rest)) = left.split_last() {
        places.insert(name.as_str(), rest.len())?;
        left = rest;
    }
    Ok(places)
}

fn place_in(places: &BTreeMap<&str, usize>, name: &Text) -> Option<usize>
    ensures { result ≡ tree.get_by (λ k. slice_cmp nat_cmp name.now k.now) places.now }
{
    places.get(name.as_str()).copied()
}

impl<'a> Places<'a> {
    /// Takes time as the names are many. The one error is want of memory.
    pub(crate) fn of(
        alloc: Global,
        names: &'a [Text],
        variadic: bool,
    ) -> Result<Places<'a>, AllocError>
        ensures { IfOk result (λ p. p ≡ all_params names.now variadic) }
    {
        let places = places_of(alloc, names)?;
        Ok(Places {
            names,
            variadic,
            places,
        })
    }

    /// The number of the parameter that a token is.
    pub(crate) fn number(&self, tok: &Tok) -> Option<usize>
        ensures { result ≡ param_of self.now tok.now }
    {
        if !is_word(tok) {
            return None;
        }
        match place_in(&self.places, &tok.spell) {
            Some(at) => Some(at),
            None => rest_param(self.names, self.variadic, tok),
        }
    }
}

impl<'a> Places<'a> {
    /// Whether a token is a parameter.
    pub(crate) fn has(&self, tok: &Tok) -> bool
        ensures { result ≡ is_among self.now tok.now }
    {
        self.number(tok).is_some()
    }
}

/// The number of the variable part, if the token is its name.
fn rest_param(names: &[Text], variadic: bool, tok: &Tok) -> Option<usize>
    ensures { result ≡ (if variadic && is_va_args tok.now then Some (length names.now) else None) }
{
    if variadic && is_va_args(tok) {
        Some(names.len())
    } else {
        None
    }
}
