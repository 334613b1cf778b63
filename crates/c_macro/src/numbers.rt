//! Sets of numbers, each kept once and known by its place in a table.

ghost use Rattle.std.specs.Prelude.{◌≡◌, ◌<◌, ◌≤◌, ℕ, IfOk, IfSome, [], true, false, ◌+◌};
ghost use Rattle.c_macro.specs.NumberData.{numbers_of, sets_count, halved, with_number, either_numbers, common_numbers, Extends, AllBelow};

use std::alloc::{AllocError, Global};
use std::collections::HashMap;
use std::marker::Model;

/// A set by its halves: the half of each even number in it, and the half of each odd one, rounded down.
#[derive(Clone, Copy, Debug)]
pub(crate) struct Node {
    evens: usize,
    odds: usize,
}

/// All sets that were made. At place 0 stands the empty set, at place 1 that of the number 0 alone, and
/// from place 2 on the others, each with earlier sets as its halves. So equal sets have one place,
/// and sets that differ in few numbers have most of their halves in common.
#[derive(Drop)]
pub(crate) struct NumberSets {
    nodes: Vec<Node>,
    /// The set that two halves make. What it says is tested before it is used. Its keys are places,
    /// which no input can choose.
    made: HashMap<(usize, usize), usize>,
}

impl Model for NumberSets {
    ghost use Rattle.std.specs.Prelude.{List};
    ghost use Rattle.c_macro.specs.declared.numbers.Node.{Node};

    ghost Value = { List Node };

    ghost use Rattle.c_macro.specs.NumberData.{AreEarlier};

    ghost view = { λ s. s.nodes.items };

    ghost invariant = { λ s. AreEarlier 2 s.nodes.items };
}

impl NumberSets {
    /// The empty set, and that of the number 0.
    pub(crate) fn new(alloc: Global) -> NumberSets
        ensures { result ≡ [] }
    {
        NumberSets {
            nodes: Vec::new(alloc),
            made: HashMap::new(alloc),
        }
    }

    /// How many sets there are.
    fn count(&self) -> usize
        ensures { result ≡ sets_count self.now }
    {
        self.nodes.as_slice().len() + 2
    }

    /// The halves of a set: of its even numbers, and of its odd ones.
    fn halves(&self, set: usize) -> (usize, usize)
        requires { set < sets_count self.now }
        ensures is { numbers_of self.now set ≡ halved (numbers_of self.now result.0) (numbers_of self.now result.1) }
        ensures evens { result.0 ≤ set }
        ensures odds { result.1 ≤ set }
        ensures earlier { 1 < set → (result.0 < set) × (result.1 < set) }
    {
        match set {
            0 => (0, 0),
            1 => (1, 0),
            set => {
                let node = self.nodes[set - 2];
                (node.evens, node.odds)
            }
        }
    }

    /// Whether a number is in a set.
    pub(crate) fn has(&self, set: usize, number: usize) -> bool
        requires { set < sets_count self.now }
        ensures { result ≡ numbers_of self.now set number }
    {
        let mut at = set;
        let mut left = number;
        while at > 1 {
            let (evens, odds) = self.halves(at);
            at = if left % 2 == 0 { evens } else { odds };
            left /= 2;
        }
        at == 1 && left == 0
    }

    /// The set of these halves, if it was made before.
    fn known(&self, evens: usize, odds: usize) -> Option<usize>
        ensures { IfSome result (λ r. (r < sets_count self.now) × (numbers_of self.now r ≡ halved (numbers_of self.now evens) (numbers_of self.now odds))) }
    {
        let key = (evens, odds);
        let found = *self.made.get(&key)?;
        if found >= self.count() {
            return None;
        }
        if self.halves(found) == key {
            Some(found)
        } else {
            None
        }
    }

    /// Makes the set of these halves.
    fn push(&mut self, evens: usize, odds: usize) -> Result<usize, AllocError>
        requires evens { evens < sets_count self.old }
        requires odds { odds < sets_count self.old }
        ensures extends { Extends self.old self.new }
        ensures set { IfOk result (λ r. (r < sets_count self.new) × (numbers_of self.new r ≡ halved (numbers_of self.old evens) (numbers_of self.old odds))) }
        ensures below { (most : ℕ) → AllBelow most self.old → ((n : ℕ) → halved (numbers_of self.old evens) (numbers_of self.old odds) n ≡ true → n < most) → AllBelow most self.new }
    {
        let made = self.count();
        self.made.insert((evens, odds), made)?;
        self.nodes.push(Node { evens, odds })?;
        Ok(made)
    }

    /// The set of these halves. The one error is want of memory.
    fn of_halves(&mut self, evens: usize, odds: usize) -> Result<usize, AllocError>
        requires evens { evens < sets_count self.old }
        requires odds { odds < sets_count self.old }
        ensures extends { Extends self.old self.new }
        ensures set { IfOk result (λ r. (r < sets_count self.new) × (numbers_of self.new r ≡ halved (numbers_of self.old evens) (numbers_of self.old odds))) }
        ensures below { (most : ℕ) → AllBelow most self.old → ((n : ℕ) → halved (numbers_of self.old evens) (numbers_of self.old odds) n ≡ true → n < most) → AllBelow most self.new }
    {
        if odds == 0 && evens < 2 {
            return Ok(evens);
        }
        if let Some(found) = self.known(evens, odds) {
            return Ok(found);
        }
        let made = self.push(evens, odds)?;
        Ok(made)
    }
}

/// Whether the number 0 goes to a set that has at most this number.
fn is_first(set: usize, number: usize) -> bool
    ensures first { result ≡ true → (number ≡ 0) × (set < 2) }
    ensures other { result ≡ false → 2 ≤ set + number + number }
{
    number == 0 && set < 2
}

impl NumberSets {
    /// The set with a number more. The one error is want of memory.
    pub(crate) fn with(&mut self, set: usize, number: usize) -> Result<usize, AllocError>
        requires { set < sets_count self.old }
        ensures extends { Extends self.old self.new }
        ensures set { IfOk result (λ r. (r < sets_count self.new) × (numbers_of self.new r ≡ with_number (numbers_of self.old set) number)) }
        ensures below { (most : ℕ) → AllBelow most self.old → number < most → AllBelow most self.new }
    {
        if is_first(set, number) {
            return Ok(1);
        }
        let (evens, odds) = self.halves(set);
        if number % 2 == 0 {
            let more = self.with(evens, number / 2)?;
            let made = self.of_halves(more, odds)?;
            Ok(made)
        } else {
            let more = self.with(odds, number / 2)?;
            let made = self.of_halves(evens, more)?;
            Ok(made)
        }
    }

    /// The numbers of one set or the other. The one error is want of memory.
    pub(crate) fn either(&mut self, a: usize, b: usize) -> Result<usize, AllocError>
        requires a { a < sets_count self.old }
        requires b { b < sets_count self.old }
        ensures extends { Extends self.old self.new }
        ensures set { IfOk result (λ r. (r < sets_count self.new) × (numbers_of self.new r ≡ either_numbers (numbers_of self.old a) (numbers_of self.old b))) }
        ensures below { (most : ℕ) → AllBelow most self.old → AllBelow most self.new }
    {
        if a == b {
            return Ok(a);
        }
        if b == 0 {
            return Ok(a);
        }
        if a == 0 {
            return Ok(b);
        }
        let (a_evens, a_odds) = self.halves(a);
        let (b_evens, b_odds) = self.halves(b);
        let evens = self.either(a_evens, b_evens)?;
        let odds = self.either(a_odds, b_odds)?;
        let made = self.of_halves(evens, odds)?;
        Ok(made)
    }

    /// The numbers of both sets. The one error is want of memory.
    pub(crate) fn common(&mut self, a: usize, b: usize) -> Result<usize, AllocError>
        requires a { a < sets_count self.old }
        requires b { b < sets_count self.old }
        ensures extends { Extends self.old self.new }
        ensures set { IfOk result (λ r. (r < sets_count self.new) × (numbers_of self.new r ≡ common_numbers (numbers_of self.old a) (numbers_of self.old b))) }
        ensures below { (most : ℕ) → AllBelow most self.old → AllBelow most self.new }
    {
        if a == b {
            return Ok(a);
        }
        if a == 0 {
            return Ok(0);
        }
        if b == 0 {
            return Ok(0);
        }
        let (a_evens, a_odds) = self.halves(a);
        let (b_evens, b_odds) = self.halves(b);
        let evens = self.common(a_evens, b_evens)?;
        let odds = self.common(a_odds, b_odds)?;
        let made = self.of_halves(evens, odds)?;
        Ok(made)
    }
}
