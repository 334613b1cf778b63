//! Which files contain one of the tree's compatible strings.

ghost use Rattle.std.specs.Prelude.{◌≡◌, ◌++◌, [], ◌∷◌, IfOk, List, OnOk, ℕ};
ghost use Rattle.std.specs.BTreeSet as tree;
ghost use Rattle.std.specs.Cmp.Lexicographic.{slice_cmp};
ghost use Rattle.std.specs.List.{list_any};
ghost use Rattle.std.specs.Ordering.{nat_cmp};
ghost use Rattle.std.specs.Str.{bytes_eq};
ghost use Rattle.bind_merge.specs.Loading.{is_within};
ghost use Rattle.bind_merge.specs.Inner.Stringing.{Finds, Knows};

use edt_base::Text;
use memchr::memmem::Finder;
use std::alloc::{AllocError, Global};
use std::collections::BTreeSet;
use std::marker::Model;

/// The compatible strings of a tree, with what looks for each of them once. Contracts see the
/// strings.
#[derive(Drop)]
pub(crate) struct Strings<'a> {
    all: &'a [Text],
    known: BTreeSet<&'a str>,
    finders: Vec<Finder<'a>>,
}

impl<'a> Model for Strings<'a> {
    ghost use Rattle.std.specs.Prelude.{List, ℕ};
    ghost use Rattle.bind_merge.specs.Inner.Stringing.{Finds, Knows};

    ghost Value = { List (List ℕ) };

    ghost view = { λ s. s.all.now };

    ghost invariant = { λ s. Knows s.known s.all.now × Finds s.finders.items s.all.now };
}

impl<'a> Strings<'a> {
    /// The strings, each of which is looked for once. The one error is want of memory.
    pub(crate) fn of(alloc: Global, all: &'a [Text]) -> Result<Strings<'a>, AllocError>
        ensures { IfOk result (λ s. s ≡ all.now) }
    {
        let mut known = BTreeSet::new(alloc);
        let mut finders = Vec::new(alloc);
        for string in all {
            add(&mut known, &mut finders, string)?;
        }
        Ok(Strings {
            all,
            known,
            finders,
        })
    }

    /// Whether a text is one of the strings.
    pub(crate) fn has(&self, text: &Text) -> bool
        ensures { result ≡ list_any (λ s. bytes_eq s text.now) self.now }
    {
        is_known(&self.known, text)
    }

    /// Whether one of the strings stands somewhere in these bytes.
    pub(crate) fn stand_in(&self, bytes: &[u8]) -> bool
        ensures { result ≡ list_any (is_within bytes.now) self.now }
    {
        any_in(self.finders.as_slice(), bytes)
    }
}

fn is_known(known: &BTreeSet<&str>, text: &Text) -> bool
    ensures { result ≡ tree.contains_by (λ k. slice_cmp nat_cmp text.now k.now) known.now }
{
    known.contains(text.as_str())
}

// What a finder looks for stands somewhere in these bytes.
#[tactic(auto, using(crate::proofs::Within::found_any))]
fn stands_in(finder: &Finder<'_>, bytes: &[u8]) -> bool
    ensures { result ≡ is_within bytes.now finder.now }
{
    finder.find(bytes).is_some()
}

fn any_in(finders: &[Finder<'_>], bytes: &[u8]) -> bool
    ensures { result ≡ list_any (is_within bytes.now) finders.now }
{
    for finder in finders {
        if stands_in(finder, bytes) {
            return true;
        }
    }
    false
}

// The strings with one more, which is looked for where it is new. The one error is want of memory.
fn add<'a>(
    known: &mut BTreeSet<&'a str>,
    finders: &mut Vec<Finder<'a>>,
    string: &'a Text,
) -> Result<(), AllocError>
    ensures known { OnOk result ((all : List (List ℕ)) → Knows known.old all
        → Knows known.new (all ++ string.now ∷ [])) }
    ensures finders { OnOk result ((all : List (List ℕ)) → Knows known.old all
        → Finds finders.old.items all → Finds finders.new.items (all ++ string.now ∷ [])) }
{
    match known.insert(string.as_str()) {
        Ok(true) => finders.push(Finder::new(string.as_str().as_bytes()))?,
        Ok(false) => {}
        Err(_) => return Err(AllocError),
    }
    Ok(())
}
