//! Sets of barred names, each kept once and known by its place in a table.

ghost use Rattle.std.specs.Prelude.{◌≡◌, [], ℕ, List, ◌<◌, IfOk, OnErr, Some, None};
ghost use Rattle.std.specs.Map.{lookup};
ghost use Rattle.std.specs.Str.{bytes_eq};
ghost use Rattle.c_macro.specs.Marked.{no_bars, with_bar, either_bars, common_bars};
ghost use Rattle.c_macro.specs.SetData.{set_count, number_in, bars_of, Grown, Named};

use crate::numbers::NumberSets;
use edt_base::Text;
use std::alloc::{AllocError, Global};
use std::collections::BTreeMap;
use std::marker::Model;

/// All sets of names. A name is numbered when it is first barred, from 1 on, and a set of names is
/// the set of their numbers. Contracts see both tables.
#[derive(Drop)]
pub(crate) struct Sets {
    numbers: BTreeMap<Text, usize>,
    sets: NumberSets,
    alloc: Global,
}

impl Model for Sets {
    ghost use Rattle.c_macro.specs.SetData.{SetTable, AreNumbered};

    ghost Value = { SetTable };

    ghost view = { λ s. record { numbers = s.numbers.entries; nodes = s.sets } };

    ghost invariant = { λ s. AreNumbered s.numbers.entries s.sets };
}

/// The number of a name.
fn number_of(numbers: &BTreeMap<Text, usize>, name: &Text) -> Option<usize>
    ensures { result ≡ lookup (bytes_eq name.now) numbers.now.entries }
{
    numbers.get(name).copied()
}

/// Gives the next number to a name that has none. The one error is want of memory.
fn give_number(numbers: &mut BTreeMap<Text, usize>, name: Text) -> Result<usize, AllocError>
    requires { lookup (bytes_eq name) numbers.old.entries ≡ None }
    ensures given { IfOk result (Named numbers.old.entries numbers.new.entries name) }
    ensures same { OnErr result (numbers.new.entries ≡ numbers.old.entries) }
{
    let number = numbers.len() + 1;
    numbers.insert(name, number)?;
    Ok(number)
}

impl Sets {
    /// The empty set, and no names.
    pub(crate) fn new(alloc: Global) -> Sets
        ensures { result ≡ record { numbers = []; nodes = [] } }
    {
        Sets {
            numbers: BTreeMap::new(alloc),
            sets: NumberSets::new(alloc),
            alloc,
        }
    }

    /// The place of the empty set.
    pub(crate) fn empty(&self) -> usize
        ensures there { result < set_count self.now }
        ensures none { bars_of self.now result ≡ no_bars }
    {
        0
    }

    /// Whether a name is in a set.
    pub(crate) fn has(&self, set: usize, name: &Text) -> bool
        requires { set < set_count self.now }
        ensures { result ≡ bars_of self.now set name.now }
    {
        if set == 0 {
            return false;
        }
        match number_of(&self.numbers, name) {
            None => false,
            Some(number) => self.sets.has(set, number),
        }
    }

    /// The number of a name, which is given to it if it has none. The one error is want of memory.
    fn number(&mut self, name: &Text) -> Result<usize, AllocError>
        ensures grown { Grown self.old self.new }
        ensures nodes { self.new.nodes ≡ self.old.nodes }
        ensures number { IfOk result (λ n. number_in self.new name.now ≡ Some n) }
    {
        if let Some(number) = number_of(&self.numbers, name) {
            return Ok(number);
        }
        let name = name.copy(self.alloc)?;
        let number = give_number(&mut self.numbers, name)?;
        Ok(number)
    }

    /// The set with a number more, which a name has. The one error is want of memory.
    fn with_number(&mut self, set: usize, number: usize) -> Result<usize, AllocError>
        requires set { set < set_count self.old }
        requires number { (name : List ℕ) × (number_in self.old name ≡ Some number) }
        ensures grown { Grown self.old self.new }
        ensures set { IfOk result (λ r. (r < set_count self.new) × ((name : List ℕ) → number_in self.old name ≡ Some number
            → bars_of self.new r ≡ with_bar (bars_of self.old set) name)) }
    {
        let made = self.sets.with(set, number)?;
        Ok(made)
    }

    /// The set with a name more. The one error is want of memory.
    pub(crate) fn with(&mut self, set: usize, name: &Text) -> Result<usize, AllocError>
        requires { set < set_count self.old }
        ensures grown { Grown self.old self.new }
        ensures set { IfOk result (λ r. (r < set_count self.new) × (bars_of self.new r ≡ with_bar (bars_of self.old set) name.now)) }
    {
        let number = self.number(name)?;
        let made = self.with_number(set, number)?;
        Ok(made)
    }

    /// The names of one set or the other. The one error is want of memory.
    pub(crate) fn either(&mut self, a: usize, b: usize) -> Result<usize, AllocError>
        requires a { a < set_count self.old }
        requires b { b < set_count self.old }
        ensures grown { Grown self.old self.new }
        ensures set { IfOk result (λ r. (r < set_count self.new) × (bars_of self.new r ≡ either_bars (bars_of self.old a) (bars_of self.old b))) }
    {
        let made = self.sets.either(a, b)?;
        Ok(made)
    }

    /// The names of both sets. The one error is want of memory.
    pub(crate) fn common(&mut self, a: usize, b: usize) -> Result<usize, AllocError>
        requires a { a < set_count self.old }
        requires b { b < set_count self.old }
        ensures grown { Grown self.old self.new }
        ensures set { IfOk result (λ r. (r < set_count self.new) × (bars_of self.new r ≡ common_bars (bars_of self.old a) (bars_of self.old b))) }
    {
        let made = self.sets.common(a, b)?;
        Ok(made)
    }
}
