//! The definitions of a bound tree, each with whether it is left out.

ghost use Rattle.std.specs.Prelude.{◌≡◌, ◌+◌, ◌∷◌, [], List, MatchOption};
ghost use Rattle.dt_names.specs.Facts.{FactData};
ghost use Rattle.head_write.specs.Header.{behind, entries, entries_from, is_first};

use dt_names::{Fact, Facts};
use edt_base::Bound;
use std::marker::Model;

/// A definition, and whether it is left out since it equals an earlier one.
#[derive(Drop)]
pub(crate) struct Entry<'a> {
    pub(crate) fact: Fact<'a>,
    pub(crate) is_double: bool,
}

/// The definitions of a bound tree that are still to come. Contracts see the list of them.
#[derive(Drop)]
pub(crate) struct Entries<'a> {
    facts: Facts<'a>,
    place: u64,
    doubles: &'a [u64],
}

impl<'a> Model for Entries<'a> {
    ghost use Rattle.std.specs.Prelude.{List};
    ghost use Rattle.head_write.specs.declared.entry.Entry.{Entry};
    ghost use Rattle.head_write.specs.Header.{entries_from};

    ghost Value = { List Entry };

    ghost view = { λ s. entries_from s.place s.doubles.now s.facts };
}

impl<'a> Entries<'a> {
    /// All definitions of a bound tree.
    pub(crate) fn new(bound: &'a Bound) -> Entries<'a>
        ensures { result ≡ entries bound.now }
    {
        Entries {
            facts: Facts::new(bound),
            place: 0,
            doubles: bound.doubles.as_slice(),
        }
    }

    /// The next definition; None exactly after the last.
    pub(crate) fn next(&mut self) -> Option<Entry<'a>>
        ensures { MatchOption result ((self.old ≡ []) × (self.new ≡ []))
            (λ e. self.old ≡ e ∷ self.new) }
    {
        let fact = self.facts.next()?;
        let (is_double, left) = split(self.place, self.doubles);
        let (place, doubles) = step(self.place, left);
        self.place = place;
        self.doubles = doubles;
        Some(Entry { fact, is_double })
    }
}

// Whether a place is the first of these, and the others.
fn split<'a>(place: u64, doubles: &'a [u64]) -> (bool, &'a [u64])
    ensures first { result.0 ≡ is_first place doubles.now }
    ensures others { result.1.now ≡ behind place doubles.now }
{
    let Some((first, rest)) = doubles.split_first() else {
        return (false, doubles);
    };
    if *first == place {
        (true, rest)
    } else {
        (false, doubles)
    }
}

// The place after this one, with the doubles that can still be met: none after the greatest
// number.
fn step<'a>(place: u64, doubles: &'a [u64]) -> (u64, &'a [u64])
    ensures { (facts : List FactData) →
        entries_from (place + 1) doubles.now facts ≡ entries_from result.0 result.1.now facts }
{
    if place < u64::MAX {
        (place + 1, doubles)
    } else {
        (place, &[])
    }
}
