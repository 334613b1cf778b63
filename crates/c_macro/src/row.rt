//! Tokens that were taken together, and what is pending on a level.

ghost use Rattle.std.specs.Prelude.{◌≡◌, ◌++◌, ◌∷◌, [], List, ℕ, ◌<◌, ◌≤◌, ◌+◌, ◌-◌, ◌^◌, true, false, IfOk, OnOk, IfSome, IfNone, MatchOption, Option, Some, None, length, reverse, take, drop, slice_index_or, if◌then◌else◌};
ghost use Rattle.c_macro.specs.Calls as calls;
ghost use Rattle.c_macro.specs.Rows.{HasSpans, HasClosers, IsSpan, IsUnclosed, Closing, depth_at};
ghost use Rattle.c_macro.specs.Marking.{mark_data};
ghost use Rattle.c_macro.specs.Walking.{IsStep, IsEnclosed, bracket_step};

use crate::marks::{Mark, mark_of};
use crate::pend::{Pend, copy_pend};
use std::alloc::{AllocError, Global};
use std::marker::Model;
use std::rc::Rc;

/// Tokens that were taken together, and for each opening bracket among them how many of the tokens
/// behind it belong to it, its closing one included; 0 where that isn't among them.
#[derive(Drop)]
pub(crate) struct Spanned {
    toks: Vec<Pend>,
    spans: Vec<usize>,
}

/// Tokens in a row: some of those that were taken together. Contracts see the list of them.
#[derive(Drop)]
pub(crate) struct Row {
    list: Option<Rc<Spanned>>,
    from: usize,
    to: usize,
}

impl Model for Row {
    ghost use Rattle.std.specs.Prelude.{List, take, drop, ◌-◌, option_map};
    ghost use Rattle.c_macro.specs.declared.pend.Pend.{Pend};
    ghost use Rattle.c_macro.specs.Rows.{toks_in, spans_in, IsRow};

    ghost Value = { List Pend };

    ghost view = { λ r. take (r.to - r.from) (drop r.from (toks_in (option_map (λ l. l.value.toks.items) r.list))) };

    ghost invariant = { λ r. IsRow (toks_in (option_map (λ l. l.value.toks.items) r.list)) (spans_in (option_map (λ l. l.value.spans.items) r.list)) r.from r.to };
}

impl Row {
    /// No tokens.
    pub(crate) fn none() -> Row
        ensures { result ≡ [] }
    {
        Row {
            list: None,
            from: 0,
            to: 0,
        }
    }

    /// These tokens, taken together. The one error is want of memory.
    pub(crate) fn of(alloc: Global, toks: Vec<Pend>) -> Result<Row, AllocError>
        ensures { IfOk result (λ r. r ≡ toks.items) }
    {
        let spans = spans_of(alloc, toks.as_slice())?;
        let to = toks.as_slice().len();
        Ok(Row {
            list: Some(Rc::new(alloc, Spanned { toks, spans })?),
            from: 0,
            to,
        })
    }

    /// The same tokens once more. The one error is want of memory.
    pub(crate) fn copy(&self) -> Result<Row, AllocError>
        ensures { IfOk result (λ r. r ≡ self.now) }
    {
        let list = match &self.list {
            None => None,
            Some(list) => Some(list.clone()?),
        };
        Ok(Row {
            list,
            from: self.from,
            to: self.to,
        })
    }

    pub(crate) fn as_slice(&self) -> &[Pend]
        ensures { result.now ≡ self.now }
    {
        match &self.list {
            None => &[],
            Some(list) => &list.as_ref().toks.as_slice()[self.from..self.to],
        }
    }

    pub(crate) fn is_empty(&self) -> bool
        ensures none { result ≡ true → self.now ≡ [] }
        ensures some { result ≡ false → 0 < length self.now }
    {
        self.as_slice().is_empty()
    }

    /// How many tokens stand before these others, which are the last ones.
    pub(crate) fn before(&self, left: &Row) -> usize
        requires { length left.now ≤ length self.now }
        ensures { result ≡ length self.now - length left.now }
    {
        self.as_slice().len() - left.as_slice().len()
    }

    /// The first so many tokens.
    pub(crate) fn keep(&mut self, count: usize)
        requires { count ≤ length self.old }
        ensures { self.new ≡ take count self.old }
    {
        self.to = self.from + count;
    }

    /// The tokens without the first so many.
    pub(crate) fn skip(&mut self, count: usize)
        requires { count ≤ length self.old }
        ensures { self.new ≡ drop count self.old }
    {
        self.from += count;
    }

    /// How many of the tokens behind the first belong to it, if it is an opening bracket.
    fn span(&self) -> usize
        ensures is { (p : Pend) (ps : List Pend) → self.now ≡ p ∷ ps → calls.mark_of p.tok ≡ calls.Opens → IsSpan ps result }
        ensures fits { result < 2 ^ 64 - 1 }
    {
        let Some(list) = &self.list else {
            return 0;
        };
        let span = value_at(list.as_ref().spans.as_slice(), self.from);
        if span < self.to - self.from { span } else { 0 }
    }
}

/// A number of a list; 0 behind its end.
fn value_at(numbers: &[usize], at: usize) -> usize
    ensures { result ≡ slice_index_or numbers.now at 0 }
{
    match numbers.get(at) {
        Some(n) => *n,
        None => 0,
    }
}

/// What tokens begin with.
#[derive(Clone, Copy)]
pub(crate) enum Step {
    /// Nothing is left.
    End,
    /// A bracket that closes what was opened before.
    Closes,
    /// An opening bracket without its closing one.
    Unclosed,
    Comma,
    /// So many tokens: one that is neither bracket nor comma, or brackets with all between them.
    Item(usize),
}

/// What an opening bracket of this span begins.
fn bracket_step(span: usize) -> Step
    requires { span < 2 ^ 64 - 1 }
    ensures { result ≡ bracket_step span }
{
    match span {
        0 => Step::Unclosed,
        span => Step::Item(span + 1),
    }
}

impl Row {
    pub(crate) fn step(&self) -> Step
        ensures { IsStep self.now result }
    {
        let Some((first, _)) = self.as_slice().split_first() else {
            return Step::End;
        };
        match mark_of(&first.tok) {
            Mark::Opens => bracket_step(self.span()),
            Mark::Closes => Step::Closes,
            Mark::Parts => Step::Comma,
            Mark::Inner => Step::Item(1),
        }
    }

    /// Takes the first token. The one error is want of memory.
    fn take_first(&mut self, alloc: Global) -> Result<Option<Pend>, AllocError>
        ensures { IfOk result (λ r. MatchOption r ((self.old ≡ []) × (self.new ≡ [])) (λ p. self.old ≡ p ∷ self.new)) }
    {
        let Some((first, _)) = self.as_slice().split_first() else {
            return Ok(None);
        };
        let first = copy_pend(alloc, first)?;
        self.skip(1);
        Ok(Some(first))
    }

    /// How many tokens stand before the bracket that closes what was opened before them; `None` where
    /// there is none. The one error is want of memory.
    fn closing(&self) -> Result<Option<usize>, AllocError>
        ensures { IfOk result (λ r. MatchOption r (IsUnclosed self.now) (Closing self.now)) }
    {
        let mut left = self.copy()?;
        loop {
            match left.step() {
                Step::End => return Ok(None),
                Step::Unclosed => return Ok(None),
                Step::Closes => return Ok(Some(self.before(&left))),
                Step::Comma => left.skip(1),
                Step::Item(count) => left.skip(count),
            }
        }
    }

    /// Takes what stands before a closing bracket, and it. The one error is want of memory.
    fn take_closed(&mut self, alloc: Global) -> Result<Option<Enclosed>, AllocError>
        ensures { IfOk result (λ r. MatchOption r (IsUnclosed self.old) (λ e. IsEnclosed self.old e self.new)) }
    {
        let Some(count) = self.closing()? else {
            return Ok(None);
        };
        let mut toks = self.copy()?;
        toks.keep(count);
        self.skip(count);
        match self.take_first(alloc)? {
            Some(last) => Ok(Some(Enclosed { toks, last })),
            None => unreachable!(),
        }
    }
}

/// What stands in a call's brackets, and the closing one.
#[derive(Drop)]
pub(crate) struct Enclosed {
    pub toks: Row,
    pub last: Pend,
}

/// How many of the tokens behind a token of this kind belong to it, and which brackets are then
/// closed; so many tokens stand behind it. The one error is want of memory.
fn span_of(closers: &mut Vec<usize>, mark: Mark, count: usize) -> Result<usize, AllocError>
    ensures { IfOk result (λ n. (p : Pend) (ps : List Pend) → mark_data mark ≡ calls.mark_of p.tok → count ≡ length ps → HasClosers ps (reverse closers.old.items)
        → HasClosers (p ∷ ps) (reverse closers.new.items) × (calls.mark_of p.tok ≡ calls.Opens → IsSpan ps n)) }
{
    match mark {
        Mark::Opens => match closers.pop() {
            Some(after) => Ok(count.saturating_sub(after)),
            None => Ok(0),
        },
        Mark::Closes => {
            closers.push(count)?;
            Ok(0)
        }
        Mark::Parts => Ok(0),
        Mark::Inner => Ok(0),
    }
}

/// The span of each opening bracket among tokens. The one error is want of memory.
fn spans_of(alloc: Global, toks: &[Pend]) -> Result<Vec<usize>, AllocError>
    ensures { IfOk result (λ v. HasSpans toks.now v.items) }
{
    let mut spans = Vec::with_capacity(alloc, toks.len())?;
    let mut closers = Vec::new(alloc);
    let mut left = toks;
    while let Some((tok, rest)) = left.split_last() {
        let count = spans.as_slice().len();
        let span = span_of(&mut closers, mark_of(&tok.tok), count)?;
        spans.push(span)?;
        left = rest;
    }
    spans.reverse();
    Ok(spans)
}

/// What is pending on a level. Contracts see the list of it, the next token last.
#[derive(Drop)]
pub(crate) struct Pending {
    /// What was put in place, the next token last.
    front: Vec<Pend>,
    /// What stands behind it.
    behind: Row,
}

impl Model for Pending {
    ghost use Rattle.std.specs.Prelude.{List, ◌++◌, reverse};
    ghost use Rattle.c_macro.specs.declared.pend.Pend.{Pend};

    ghost Value = { List Pend };

    ghost view = { λ p. reverse p.behind ++ p.front.items };
}

impl Pending {
    /// Nothing.
    pub(crate) fn none(alloc: Global) -> Pending
        ensures { result ≡ [] }
    {
        Pending {
            front: Vec::new(alloc),
            behind: Row::none(),
        }
    }

    /// These tokens, of which the next stands last.
    pub(crate) fn of(front: Vec<Pend>) -> Pending
        ensures { result ≡ front.items }
    {
        Pending {
            front,
            behind: Row::none(),
        }
    }

    /// An argument's tokens.
    pub(crate) fn of_row(alloc: Global, row: Row) -> Pending
        ensures { result ≡ reverse row }
    {
        Pending {
            front: Vec::new(alloc),
            behind: row,
        }
    }

    /// Puts a token before the others. The one error is want of memory.
    pub(crate) fn push(&mut self, pend: Pend) -> Result<(), AllocError>
        ensures { OnOk result (self.new ≡ self.old ++ pend ∷ []) }
    {
        self.front.push(pend)?;
        Ok(())
    }

    /// Takes the next token. The one error is want of memory.
    pub(crate) fn pop(&mut self, alloc: Global) -> Result<Option<Pend>, AllocError>
        ensures { IfOk result (λ r. MatchOption r ((self.old ≡ []) × (self.new ≡ [])) (λ p. self.old ≡ self.new ++ p ∷ [])) }
    {
        if let Some(next) = self.front.pop() {
            return Ok(Some(next));
        }
        let next = self.behind.take_first(alloc)?;
        Ok(next)
    }

    /// Takes what stands before a closing bracket, and it; what was put in place is then taken together
    /// with what it needs of the tokens behind. The one error is want of memory.
    pub(crate) fn take_closed(&mut self, alloc: Global) -> Result<Option<Enclosed>, AllocError>
        ensures { IfOk result (λ r. MatchOption r (IsUnclosed (reverse self.old)) (λ e. IsEnclosed (reverse self.old) e (reverse self.new))) }
    {
        if self.front.is_empty() {
            let enclosed = self.behind.take_closed(alloc)?;
            return Ok(enclosed);
        }
        let enclosed = self.gather(alloc)?;
        Ok(enclosed)
    }

    /// The same, token by token.
    fn gather(&mut self, alloc: Global) -> Result<Option<Enclosed>, AllocError>
        ensures { IfOk result (λ r. MatchOption r (IsUnclosed (reverse self.old)) (λ e. IsEnclosed (reverse self.old) e (reverse self.new))) }
    {
        let mut toks = Vec::new(alloc);
        let mut deep = 0;
        while let Some(next) = self.pop(alloc)? {
            let _count = toks.as_slice().len();
            let Some(deeper) = depth_behind(mark_of(&next.tok), deep) else {
                let toks = Row::of(alloc, toks)?;
                return Ok(Some(Enclosed { toks, last: next }));
            };
            toks.push(next)?;
            deep = deeper;
        }
        Ok(None)
    }
}

/// How many brackets are open behind a token, `None` where it closes one that wasn't opened.
fn depth_behind(mark: Mark, deep: usize) -> Option<usize>
    requires { deep < 2 ^ 64 - 1 }
    ensures { result ≡ depth_at (mark_data mark) deep (λ d. Some d) }
{
    match mark {
        Mark::Opens => Some(deep + 1),
        Mark::Closes => deep.checked_sub(1),
        Mark::Parts | Mark::Inner => Some(deep),
    }
}
