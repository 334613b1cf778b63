//! The words of a command line.

ghost use Rattle.std.specs.Prelude.{◌≡◌};

use crate::Text;
use std::marker::Model;

/// The words after the program's name, in their order.
#[derive(Drop)]
pub struct Words {
    inner: Vec<Text>,
}

impl Model for Words {
    ghost use Rattle.std.specs.Prelude.{List, ℕ};

    ghost Value = { List (List ℕ) };

    ghost view = { λ w. w.inner.items };
}

impl Words {
    /// The words of a vector, which they take over: no memory is taken.
    pub fn new(list: Vec<Text>) -> Words
        ensures { result ≡ list.items }
    {
        Words { inner: list }
    }

    /// The words, in order.
    pub fn list(&self) -> &Vec<Text>
        ensures { result.now.items ≡ self.now }
    {
        &self.inner
    }
}
