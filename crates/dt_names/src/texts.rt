//! Texts by their numbers.

ghost use Rattle.std.specs.Prelude.{◌≡◌, [], IfOk, Some, slice_get};
ghost use Rattle.dt_names.specs.Inner.Keys.{AreDistinct, Keeps};

use indexmap::IndexSet;
use std::alloc::{AllocError, Global};
use std::marker::Model;

/// Texts, each once; the number of one is its place. Contracts see the list of them.
#[derive(Drop)]
pub(crate) struct Texts {
    set: IndexSet<Vec<u8>>,
}

impl Model for Texts {
    ghost use Rattle.std.specs.Prelude.{List, ℕ, map};

    ghost Value = { List (List ℕ) };

    ghost view = { λ t. map (λ v. v.items) t.set.keys };
}

impl Texts {
    /// No texts.
    pub(crate) fn new(alloc: Global) -> Texts
        ensures { result ≡ [] }
    {
        Texts {
            set: IndexSet::new(alloc),
        }
    }

    /// The number of a text, which gets the next one where it has none. The one error is want of
    /// memory.
    pub(crate) fn number(&mut self, text: Vec<u8>) -> Result<usize, AllocError>
        ensures found { IfOk result (λ n. slice_get self.new n ≡ Some text.items) }
        ensures kept { Keeps self.old self.new }
        ensures distinct { AreDistinct self.new }
    {
        let (number, _) = self.set.insert_full(text)?;
        Ok(number)
    }
}
