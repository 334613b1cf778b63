//! A text of a file, a name or a value.

ghost use Rattle.std.specs.Prelude.{◌≡◌, nat_eq, Some, IfOk, string_bytes};
ghost use Rattle.std.specs.Hash as fed;
ghost use Rattle.std.specs.Cmp.Lexicographic.{pointwise, slice_cmp, texts_ties, texts_po, nat_list_eq_equiv, nat_list_cmp_total};
ghost use Rattle.std.specs.Cmp.{partial_equiv_from_equiv};
ghost use Rattle.std.specs.Cmp.Rules.{hashing};
ghost use Rattle.std.specs.Ordering.{nat_cmp};
ghost use Rattle.std.proofs.Common.{rules, refl};

use std::alloc::{AllocError, Global};
use std::cmp::Ordering;
use std::hash::{Hash, Hasher};
use std::marker::Model;

/// A text in UTF-8. Contracts see its bytes; two texts are equal where their bytes are, and stand
/// in the order of these bytes.
#[derive(Debug, Drop)]
pub struct Text {
    inner: String,
}

impl Model for Text {
    ghost use Rattle.std.specs.Prelude.{List, ℕ};
    ghost use Rattle.std.specs.String.{string_bytes};

    ghost Value = { List ℕ };

    ghost view = { λ t. string_bytes t.inner };
}

impl Text {
    /// The text of a string, which it takes over: no memory is taken.
    pub fn new(s: String) -> Text
        ensures { result ≡ string_bytes s }
    {
        Text { inner: s }
    }

    /// The text, to be looked at.
    pub fn as_str(&self) -> &str
        ensures { result.now ≡ self.now }
    {
        self.inner.as_str()
    }

    /// A text of the same bytes. The one error is want of memory.
    pub fn copy(&self, alloc: Global) -> Result<Text, AllocError>
        ensures { IfOk result (λ t. t ≡ self.now) }
    {
        Ok(Text::new(String::from_str(alloc, self.as_str())?))
    }
}

impl PartialEq for Text {
    ghost eq = { λ a b. pointwise nat_eq a b };

    ghost laws = { partial_equiv_from_equiv nat_list_eq_equiv };

    fn eq(&self, other: &Text) -> bool {
        self.as_str() == other.as_str()
    }
}

impl Eq for Text {
    ghost laws = { nat_list_eq_equiv };
}

impl PartialOrd for Text {
    ghost partial_cmp = { λ a b. Some (slice_cmp nat_cmp a b) };

    ghost laws = { texts_po };

    fn partial_cmp(&self, other: &Text) -> Option<Ordering> {
        Some(self.cmp(other))
    }
}

impl Ord for Text {
    ghost cmp = { λ a b. slice_cmp nat_cmp a b };

    ghost total = { nat_list_cmp_total };

    ghost matches_partial_cmp = { λ x y. refl };

    ghost matches_eq = { λ x y. texts_ties x y };

    fn cmp(&self, other: &Text) -> Ordering {
        self.as_str().cmp(other.as_str())
    }
}

impl Hash for Text {
    ghost hash_input = { λ t. fed.str t };

    ghost respects_eq = { Prim.search (hashing, rules) };

    fn hash<H: Hasher>(&self, state: &mut H) {
        self.as_str().hash(state);
    }
}
