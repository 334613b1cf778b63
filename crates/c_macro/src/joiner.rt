//! Makes the joins of a body with arguments (ISO C, 6.10.3.3).

ghost use Rattle.std.specs.Prelude.{◌≡◌, ◌++◌, ◌∷◌, [], ◌<◌, IfOk, IfSome, option_map, length, true, false, List, OnOk, Some};
ghost use Rattle.c_tokens.specs.Grammar.{kind_of};
ghost use Rattle.c_macro.specs.Bodies as bodies;
ghost use Rattle.c_macro.specs.Bodies.{joined, items, ones, spaced_as, join, joined_tok, item_toks, One};
ghost use Rattle.c_macro.specs.SetData.{set_count, Grown, SetTable};
ghost use Rattle.c_macro.specs.Pending.{mark, marks, KnownAll};
ghost use Rattle.c_macro.specs.Joining.{item_data, KnownItem, KnownLeft, KnownJoiner, Fed, FedFrom, comes_to, is_glue};

use crate::pend::Pend;
use crate::sets::Sets;
use c_tokens::{Tok, kind_of};
use edt_base::Text;
use std::alloc::{AllocError, Global};
use std::mem;

/// A side of a join, or a join.
#[derive(Debug, Drop)]
pub(crate) enum Item {
    One(Pend),
    /// An empty side, and whether white space stands before it.
    Blank(bool),
    Glue,
}

/// The tokens so far, the side that may be joined to the next, and whether a `##` stands behind it.
#[derive(Debug, Drop)]
pub(crate) struct Joiner {
    out: Vec<Pend>,
    left: Option<Item>,
    glued: bool,
}

/// The token that two make, `None` where they make none. The one error is want of memory.
fn join_pends(
    alloc: Global,
    sets: &mut Sets,
    a: &Pend,
    b: &Pend,
) -> Result<Option<Pend>, AllocError>
    requires a { a.now.set < set_count sets.old }
    requires b { b.now.set < set_count sets.old }
    ensures grown { Grown sets.old sets.new }
    ensures known { IfOk result (λ r. IfSome r (λ p. p.set < set_count sets.new)) }
    ensures is { IfOk result (λ r. option_map (mark sets.new) r
        ≡ option_map (joined_tok (mark sets.old a.now) (mark sets.old b.now)) (kind_of (a.now.tok.spell ++ b.now.tok.spell))) }
{
    let mut spell = String::from_str(alloc, a.tok.spell.as_str())?;
    spell.push_str(b.tok.spell.as_str())?;
    let Some(kind) = kind_of(spell.as_str().as_bytes()) else {
        return Ok(None);
    };
    let set = sets.common(a.set, b.set)?;
    Ok(Some(Pend {
        tok: Tok {
            spell: Text::new(spell),
            kind,
            spaced: a.tok.spaced,
        },
        set,
    }))
}

fn join_ones(alloc: Global, sets: &mut Sets, a: &Pend, b: &Pend) -> Result<Option<Item>, AllocError>
    requires a { a.now.set < set_count sets.old }
    requires b { b.now.set < set_count sets.old }
    ensures grown { Grown sets.old sets.new }
    ensures known { IfOk result (λ r. KnownLeft sets.new r) }
    ensures is { IfOk result (λ r. option_map (item_data sets.new) r ≡ join (One (mark sets.old a.now)) (One (mark sets.old b.now))) }
{
    match join_pends(alloc, sets, a, b)? {
        None => Ok(None),
        Some(p) => Ok(Some(Item::One(p))),
    }
}

/// The side that two sides make, `None` where they make no single token. The one error is want of
/// memory.
fn join(alloc: Global, sets: &mut Sets, left: Item, right: Item) -> Result<Option<Item>, AllocError>
    requires left { KnownItem sets.old left }
    requires right { KnownItem sets.old right }
    ensures grown { Grown sets.old sets.new }
    ensures known { IfOk result (λ r. KnownLeft sets.new r) }
    ensures is { IfOk result (λ r. option_map (item_data sets.new) r ≡ join (item_data sets.old left) (item_data sets.old right)) }
{
    match (left, right) {
        (Item::One(a), Item::One(b)) => {
            let joined = join_ones(alloc, sets, &a, &b)?;
            Ok(joined)
        }
        (Item::Blank(spaced), Item::One(b)) => Ok(Some(Item::One(respaced(spaced, b)))),
        (left, _) => Ok(Some(left)),
    }
}

/// A token with other white space before it.
pub(crate) fn respaced(spaced: bool, pend: Pend) -> Pend
    ensures { result ≡ record { tok = record { spell = pend.tok.spell; kind = pend.tok.kind; spaced = spaced }; set = pend.set } }
{
    Pend {
        tok: Tok {
            spell: pend.tok.spell,
            kind: pend.tok.kind,
            spaced,
        },
        set: pend.set,
    }
}

fn is_glue(item: &Item) -> bool
    ensures { result ≡ is_glue item.now }
{
    matches!(item, Item::Glue)
}

/// Puts the token of a side behind others, if it has one. The one error is want of memory.
fn push_side(out: &mut Vec<Pend>, side: Item) -> Result<(), AllocError>
    ensures known { OnOk result ((s : SetTable) → KnownAll s out.old.items → KnownItem s side → KnownAll s out.new.items) }
    ensures is { OnOk result ((s : SetTable) → marks s out.new.items ≡ marks s out.old.items ++ item_toks (item_data s side)) }
{
    if let Item::One(p) = side {
        out.push(p)?;
        return Ok(());
    }
    Ok(())
}

impl Joiner {
    /// With nothing fed yet.
    pub(crate) fn new(alloc: Global) -> Joiner
        ensures known { (s : SetTable) → KnownJoiner s result }
        ensures is { (s : SetTable) (is : List bodies.Item) → comes_to s result is ≡ joined is }
    {
        Joiner {
            out: Vec::new(alloc),
            left: None,
            glued: false,
        }
    }

    /// Takes the next side or join; `false` where a join makes no token. The one error is want of
    /// memory.
    pub(crate) fn feed(
        &mut self,
        alloc: Global,
        sets: &mut Sets,
        item: Item,
    ) -> Result<bool, AllocError>
        requires known { KnownJoiner sets.old self.old }
        requires item { KnownItem sets.old item }
        ensures grown { Grown sets.old sets.new }
        ensures fed { IfOk result (λ fine. Fed sets.old sets.new self.old self.new (item_data sets.old item ∷ []) fine) }
    {
        match mem::replace(&mut self.left, None) {
            None => {
                self.left = Some(item);
                self.glued = false;
                Ok(true)
            }
            Some(left) => {
                if self.glued {
                    let fine = self.feed_right(alloc, sets, left, item)?;
                    Ok(fine)
                } else {
                    self.feed_next(left, item)?;
                    Ok(true)
                }
            }
        }
    }

    /// Takes the right side of a join whose left side is `left`.
    fn feed_right(
        &mut self,
        alloc: Global,
        sets: &mut Sets,
        left: Item,
        item: Item,
    ) -> Result<bool, AllocError>
        requires out { KnownAll sets.old self.old.out.items }
        requires left { KnownItem sets.old left }
        requires item { KnownItem sets.old item }
        ensures grown { Grown sets.old sets.new }
        ensures fed { IfOk result (λ fine. FedFrom sets.old sets.new self.old.out.items left true self.new (item_data sets.old item) fine) }
    {
        let Some(joined) = join(alloc, sets, left, item)? else {
            return Ok(false);
        };
        self.left = Some(joined);
        self.glued = false;
        Ok(true)
    }

    /// Takes what stands behind `left`.
    fn feed_next(&mut self, left: Item, item: Item) -> Result<(), AllocError>
        ensures fed { OnOk result ((s : SetTable) → KnownAll s self.old.out.items → KnownItem s left → KnownItem s item
            → FedFrom s s self.old.out.items left false self.new (item_data s item) true) }
    {
        if is_glue(&item) {
            self.left = Some(left);
            self.glued = true;
            return Ok(());
        }
        push_side(&mut self.out, left)?;
        self.left = Some(item);
        self.glued = false;
        Ok(())
    }
}

impl Joiner {
    /// All tokens, once nothing follows. The one error is want of memory.
    pub(crate) fn finish(self) -> Result<Vec<Pend>, AllocError>
        ensures known { IfOk result (λ v. (s : SetTable) → KnownJoiner s self → KnownAll s v.items) }
        ensures is { IfOk result (λ v. (s : SetTable) → comes_to s self [] ≡ Some (marks s v.items)) }
    {
        let mut out = self.out;
        let left = self.left;
        match left {
            None => Ok(out),
            Some(left) => {
                push_side(&mut out, left)?;
                Ok(out)
            }
        }
    }
}
