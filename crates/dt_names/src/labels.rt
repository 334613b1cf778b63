//! The definitions of a bound tree, each with the numbers of its name's texts.

ghost use Rattle.std.specs.Prelude.{◌≡◌, ◌∷◌, [], IfOk, IfSome, OnErr, OnOk, MatchBool, MatchOption, Some, List, codes, slice_get, true};
ghost use Rattle.dt_names.specs.Facts.{facts};
ghost use Rattle.dt_names.specs.Inner.Keys.{AreDistinct, Keeps, Tells, texts_of};
ghost use Rattle.dt_names.specs.Inner.Kept.{HasBase, HasProp, IsLabelled, IsTurned, SharesProp};
ghost use Rattle.dt_names.specs.Inner.Parts.{base_in, sections_left};
ghost use Rattle.dt_names.specs.Pieces.{PieceData, form, lit, spells};

use crate::fact::Fact;
use crate::key::Key;
use crate::pieces::Pieces;
use crate::row::{At, Ending};
use crate::section::{Of, Rows};
use crate::sections::{Sections, all_sections, next_section};
use crate::spelled::spelled;
use crate::tail::Tail;
use crate::texts::Texts;
use edt_base::Bound;
use std::alloc::{AllocError, Global};
use std::marker::Model;

/// A definition, with the numbers of its name's texts.
#[derive(Drop)]
pub(crate) struct Labelled<'a> {
    pub(crate) fact: Fact<'a>,
    pub(crate) key: Key,
}

/// What the names of definitions that stand together share.
#[derive(Clone, Copy)]
pub(crate) struct Shared<'a> {
    /// What the definitions speak of.
    pub(crate) of: Of<'a>,
    /// The number of the id that the names begin with.
    pub(crate) base: usize,
    /// The number of the property's text, where the definitions are on one.
    pub(crate) prop: usize,
}

/// Where a walk over the definitions stands: the definitions that stand together here and are left,
/// what their names share, and the sections behind them.
#[derive(Drop)]
pub(crate) struct Here<'a> {
    pub(crate) shared: Shared<'a>,
    pub(crate) rows: Rows<'a>,
    pub(crate) rest: Sections<'a>,
}

/// The definitions of a bound tree that are still to come, with the texts of the names so far. A
/// node's id, a property's name and an entry's name, which may be long and stand in the names of
/// many definitions, are spelled and looked up once each. Contracts see the list of definitions and
/// that of texts.
#[derive(Drop)]
pub(crate) struct Labels<'a> {
    texts: Texts,
    here: Here<'a>,
    /// The number of the text that tells the entry of the definition before, where it is known.
    entry: Option<usize>,
}

impl<'a> Model for Labels<'a> {
    ghost use Rattle.std.specs.Prelude.{◌++◌};
    ghost use Rattle.dt_names.specs.Inner.Kept.{AreKept, HasEntry, LabelsData};
    ghost use Rattle.dt_names.specs.Inner.Parts.{sections_left};
    ghost use Rattle.dt_names.specs.Inner.Sections.{joined};

    ghost Value = { LabelsData };

    ghost view = { λ s. record { left = s.here.rows ++ joined (sections_left s.here.rest); texts = s.texts } };

    ghost invariant = { λ s. AreKept s.texts s.here × HasEntry s.texts s.entry s.here.rows };
}

impl<'a> Labels<'a> {
    #[tactic(auto, unfolding(crate::specs::Pieces::spells))]
    /// All definitions. The one error is want of memory.
    pub(crate) fn new(alloc: Global, b: &'a Bound) -> Result<Labels<'a>, AllocError>
        ensures { IfOk result (λ l. l.left ≡ facts b.now) }
    {
        let mut texts = Texts::new(alloc);
        let none = texts.number(Vec::new(alloc))?;
        Ok(Labels {
            texts,
            here: Here {
                shared: Shared {
                    of: Of::Nothing,
                    base: none,
                    prop: none,
                },
                rows: Rows::none(),
                rest: all_sections(b),
            },
            entry: None,
        })
    }

    /// The next definition; None exactly after the last. The one error is want of memory, after
    /// which a definition may be missing.
    pub(crate) fn next(&mut self, alloc: Global) -> Result<Option<Labelled<'a>>, AllocError>
        ensures { IfOk result
            (λ o. MatchOption o (self.old.left ≡ [])
            (λ l. IsLabelled self.old self.new l.fact l.key)) }
    {
        let mut fact = Fact::nothing(self.here.rest.bound);
        loop {
            if self.here.rows.next(&mut fact) {
                let known = self.entry;
                self.entry = None;
                let key = key_of(alloc, &mut self.texts, &fact, self.here.shared, known)?;
                self.entry = Some(key.entry);
                return Ok(Some(Labelled { fact, key }));
            }
            self.entry = None;
            if !turn(alloc, &mut self.texts, &mut self.here)? {
                return Ok(None);
            }
        }
    }
}

// Goes to the next section, where there is one. Apart from `next`, which needn't hold room for a
// section: a function pays for its locals at each call. The one error is want of memory, which
// leaves the walk where it stands.
#[inline(never)]
fn turn(alloc: Global, texts: &mut Texts, here: &mut Here<'_>) -> Result<bool, AllocError>
    requires { HasBase texts.old here.old }
    ensures turned { IfOk result
        (λ more. MatchBool more (IsTurned texts.new here.old here.new)
        ((sections_left here.old.rest ≡ []) × (here.new ≡ here.old))) }
    ensures stays { OnErr result (here.new ≡ here.old) }
    ensures kept { Keeps texts.old texts.new }
{
    let Some((section, rest)) = next_section(here.rest) else {
        return Ok(false);
    };
    let shared = share(alloc, texts, section.of, here.shared)?;
    *here = Here {
        shared,
        rows: section.rows,
        rest,
    };
    Ok(true)
}

#[tactic(auto, unfolding(crate::specs::Pieces::spells))]
// What the names of definitions share that speak of this, behind those whose names share that.
fn share<'a>(
    alloc: Global,
    texts: &mut Texts,
    of: Of<'a>,
    behind: Shared<'a>,
) -> Result<Shared<'a>, AllocError>
    ensures of { IfOk result (λ r. r.of ≡ of.entry) }
    ensures base { IfOk result
        (λ r. (before : List PieceData) → slice_get texts.old behind.entry.base
        ≡ Some (spells before)
        → slice_get texts.new r.base ≡ Some (spells (base_in before of.entry))) }
    ensures prop { IfOk result (λ r. HasProp texts.new r.prop of.entry) }
    ensures kept { Keeps texts.old texts.new }
{
    let (base, prop) = match of {
        Of::Node(id) => (
            texts.number(spelled(alloc, Pieces::of_id(id))?)?,
            behind.prop,
        ),
        Of::Prop(name) => (
            behind.base,
            texts.number(spelled(alloc, prop_pieces(name))?)?,
        ),
        Of::Tree => (texts.number(Vec::new(alloc))?, behind.prop),
        Of::Nothing => (behind.base, behind.prop),
    };
    Ok(Shared { of, base, prop })
}

fn prop_pieces<'a>(name: &'a [u8]) -> Pieces<'a>
    ensures { result ≡ lit (codes "_P_") ∷ form name.now ∷ [] }
{
    Pieces::of_tail(Tail {
        at: At::Itself,
        ending: Ending::Word("_P_", name),
    })
}

// The numbers of the texts of a definition's name, of which those that it shares are known.
fn key_of(
    alloc: Global,
    texts: &mut Texts,
    fact: &Fact<'_>,
    shared: Shared<'_>,
    entry: Option<usize>,
) -> Result<Key, AllocError>
    requires based { slice_get texts.old shared.base ≡ Some (spells fact.now.base) }
    requires own { SharesProp texts.old shared.prop shared.of fact.now }
    requires known { IfSome entry
        (λ n. fact.now.goes_on ≡ true → slice_get texts.old n ≡ Some (texts_of fact.now).entry) }
    ensures tells { IfOk result (λ k. Tells texts.new k (texts_of fact.now)) }
    ensures kept { Keeps texts.old texts.new }
    ensures distinct { OnOk result (AreDistinct texts.new) }
{
    let prop = prop_number(alloc, texts, fact, shared.of, shared.prop)?;
    let entry = entry_number(alloc, texts, fact, entry)?;
    let last = texts.number(spelled(alloc, fact.last())?)?;
    Ok(Key {
        base: shared.base,
        prop,
        entry,
        last,
    })
}

#[tactic(auto, using(crate::proofs::Parts::prop_part))]
// The number of the text of the property that a definition's name speaks of, which is known where
// the definition stands among those on a property.
fn prop_number(
    alloc: Global,
    texts: &mut Texts,
    fact: &Fact<'_>,
    of: Of<'_>,
    known: usize,
) -> Result<usize, AllocError>
    requires { SharesProp texts.old known of fact.now }
    ensures tells { IfOk result (λ n. slice_get texts.new n ≡ Some (texts_of fact.now).prop) }
    ensures kept { Keeps texts.old texts.new }
{
    if let Of::Prop(_) = of {
        return Ok(known);
    }
    texts.number(spelled(alloc, fact.prop())?)
}

// The number of the text that tells the entry that a definition is on, which is known where the
// definition goes on about it.
fn entry_number(
    alloc: Global,
    texts: &mut Texts,
    fact: &Fact<'_>,
    known: Option<usize>,
) -> Result<usize, AllocError>
    requires { IfSome known
        (λ n. fact.now.goes_on ≡ true → slice_get texts.old n ≡ Some (texts_of fact.now).entry) }
    ensures tells { IfOk result (λ n. slice_get texts.new n ≡ Some (texts_of fact.now).entry) }
    ensures kept { Keeps texts.old texts.new }
{
    if let Some(number) = known {
        if fact.goes_on() {
            return Ok(number);
        }
    }
    texts.number(spelled(alloc, fact.entry())?)
}
