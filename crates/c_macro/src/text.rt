//! What is put in place of a macro: its body with arguments, `#` and `##` done.

ghost use Rattle.std.specs.Prelude.{◌≡◌, ◌++◌, ◌∷◌, [], ◌<◌, List, IfOk, IfSome, Some, is_some, option_map, length, ◌≤◌, map, slice_index_or, if◌then◌else◌};
ghost use Rattle.c_macro.specs.Bodies as bodies;
ghost use Rattle.c_macro.specs.Bodies.{ones, spaced_as, side_items, part_items, items, joined, no_arg, One, string_of};
ghost use Rattle.c_macro.specs.SetData.{Grown, SetTable};
ghost use Rattle.c_macro.specs.Marked.{Marked, no_bars};
ghost use Rattle.c_macro.specs.Pending.{marks, KnownAll, args_data, KnownArgs, part_data};
ghost use Rattle.c_macro.specs.Joining.{KnownJoiner, Fed, comes_to, last_one, fed_of, fed_items, all_fed, ones_in, is_join_part};

use crate::joiner::{Item, Joiner, respaced};
use crate::part::Part;
use crate::pend::{Given, Pend, copy_pend};
use crate::sets::Sets;
use crate::strings::string_of;
use crate::tokens::copy_tok;
use c_tokens::Tok;
use std::alloc::{AllocError, Global};

/// An argument as written; nothing where there is none.
fn written_of(args: &[Given], number: usize) -> &[Pend]
    ensures is { (s : SetTable) → marks s result.now ≡ (slice_index_or (args_data s args.now) number no_arg).written }
    ensures known { (s : SetTable) → KnownArgs s args.now → KnownAll s result.now }
{
    match args.get(number) {
        Some(arg) => arg.written.as_slice(),
        None => &[],
    }
}

/// An argument expanded; nothing where there is none.
fn full_of(args: &[Given], number: usize) -> &[Pend]
    ensures is { (s : SetTable) → marks s result.now ≡ (slice_index_or (args_data s args.now) number no_arg).full }
    ensures known { (s : SetTable) → KnownArgs s args.now → KnownAll s result.now }
{
    match args.get(number) {
        Some(arg) => arg.full.as_slice(),
        None => &[],
    }
}

/// Feeds tokens. The one error is want of memory.
fn feed_all(
    alloc: Global,
    sets: &mut Sets,
    joiner: &mut Joiner,
    toks: &[Pend],
) -> Result<bool, AllocError>
    requires joiner { KnownJoiner sets.old joiner.old }
    requires toks { KnownAll sets.old toks.now }
    ensures grown { Grown sets.old sets.new }
    ensures fed { IfOk result (λ fine. Fed sets.old sets.new joiner.old joiner.new (ones (marks sets.old toks.now)) fine) }
{
    let mut left = toks;
    while let Some((tok, rest)) = left.split_first() {
        let copy = copy_pend(alloc, tok)?;
        if !joiner.feed(alloc, sets, Item::One(copy))? {
            return Ok(false);
        }
        left = rest;
    }
    Ok(true)
}

/// All of the tokens behind the first one of an argument, or the last one alone.
fn behind_first(ends_only: bool, toks: &[Pend]) -> &[Pend]
    ensures is { (s : SetTable) → marks s result.now ≡ (if ends_only then last_one (marks s toks.now) else marks s toks.now) }
    ensures known { (s : SetTable) → KnownAll s toks.now → KnownAll s result.now }
{
    if !ends_only {
        return toks;
    }
    match toks.split_last() {
        None => toks,
        Some((_, before)) => &toks[before.len()..],
    }
}

/// Feeds tokens, of which the first takes the white space of what they stand for, or the first and
/// the last of them alone.
fn feed_spaced(
    alloc: Global,
    sets: &mut Sets,
    joiner: &mut Joiner,
    ends_only: bool,
    spaced: bool,
    toks: &[Pend],
) -> Result<bool, AllocError>
    requires joiner { KnownJoiner sets.old joiner.old }
    requires toks { KnownAll sets.old toks.now }
    ensures grown { Grown sets.old sets.new }
    ensures fed { IfOk result (λ fine. Fed sets.old sets.new joiner.old joiner.new (ones (spaced_as spaced (fed_of ends_only (marks sets.old toks.now)))) fine) }
{
    let Some((first, rest)) = toks.split_first() else {
        return Ok(true);
    };
    let first = respaced(spaced, copy_pend(alloc, first)?);
    if !joiner.feed(alloc, sets, Item::One(first))? {
        return Ok(false);
    }
    let fine = feed_all(alloc, sets, joiner, behind_first(ends_only, rest))?;
    Ok(fine)
}

/// Feeds an argument beside a `##`.
fn feed_side(
    alloc: Global,
    sets: &mut Sets,
    joiner: &mut Joiner,
    ends_only: bool,
    spaced: bool,
    toks: &[Pend],
) -> Result<bool, AllocError>
    requires joiner { KnownJoiner sets.old joiner.old }
    requires toks { KnownAll sets.old toks.now }
    ensures grown { Grown sets.old sets.new }
    ensures fed { IfOk result (λ fine. Fed sets.old sets.new joiner.old joiner.new (side_items spaced (fed_of ends_only (marks sets.old toks.now))) fine) }
{
    if toks.is_empty() {
        let fine = joiner.feed(alloc, sets, Item::Blank(spaced))?;
        return Ok(fine);
    }
    let fine = feed_spaced(alloc, sets, joiner, ends_only, spaced, toks)?;
    Ok(fine)
}

/// Feeds a part of a body. The one error is want of memory.
fn feed_part(
    alloc: Global,
    sets: &mut Sets,
    joiner: &mut Joiner,
    ends_only: bool,
    part: &Part,
    args: &[Given],
) -> Result<bool, AllocError>
    requires joiner { KnownJoiner sets.old joiner.old }
    requires args { KnownArgs sets.old args.now }
    ensures grown { Grown sets.old sets.new }
    ensures fed { IfOk result (λ fine. Fed sets.old sets.new joiner.old joiner.new (fed_items ends_only (args_data sets.old args.now) (part_data part.now)) fine) }
{
    let fine = match part {
        Part::Own(tok) => feed_tok(alloc, sets, joiner, copy_tok(alloc, tok)?)?,
        Part::Join => joiner.feed(alloc, sets, Item::Glue)?,
        Part::Text(spaced, number) => feed_string(
            alloc,
            sets,
            joiner,
            *spaced,
            written_of(args, *number),
        )?,
        Part::Written(spaced, number) => feed_side(
            alloc,
            sets,
            joiner,
            ends_only,
            *spaced,
            written_of(args, *number),
        )?,
        Part::Full(spaced, number) => feed_spaced(
            alloc,
            sets,
            joiner,
            ends_only,
            *spaced,
            full_of(args, *number),
        )?,
    };
    Ok(fine)
}

/// Feeds a token of a body, or a string: no name is barred for it.
fn feed_tok(
    alloc: Global,
    sets: &mut Sets,
    joiner: &mut Joiner,
    tok: Tok,
) -> Result<bool, AllocError>
    requires joiner { KnownJoiner sets.old joiner.old }
    ensures grown { Grown sets.old sets.new }
    ensures fed { IfOk result (λ fine. Fed sets.old sets.new joiner.old joiner.new (One (record { tok = tok; bars = no_bars }) ∷ []) fine) }
{
    let set = sets.empty();
    let fine = joiner.feed(alloc, sets, Item::One(Pend { tok, set }))?;
    Ok(fine)
}

/// Feeds the string of an argument.
fn feed_string(
    alloc: Global,
    sets: &mut Sets,
    joiner: &mut Joiner,
    spaced: bool,
    toks: &[Pend],
) -> Result<bool, AllocError>
    requires joiner { KnownJoiner sets.old joiner.old }
    ensures grown { Grown sets.old sets.new }
    ensures fed { IfOk result (λ fine. (s : SetTable) → Fed sets.old sets.new joiner.old joiner.new (One (string_of spaced (marks s toks.now)) ∷ []) fine) }
{
    let tok = string_of(alloc, spaced, toks)?;
    let fine = feed_tok(alloc, sets, joiner, tok)?;
    Ok(fine)
}

/// The tokens of a body with arguments, or with the ends of arguments alone; `None` where a join
/// makes no token. The one error is want of memory.
fn text_of(
    alloc: Global,
    sets: &mut Sets,
    ends_only: bool,
    parts: &[Part],
    args: &[Given],
) -> Result<Option<Vec<Pend>>, AllocError>
    requires args { KnownArgs sets.old args.now }
    ensures grown { Grown sets.old sets.new }
    ensures known { IfOk result (λ r. IfSome r (λ v. KnownAll sets.new v.items)) }
    ensures is { IfOk result (λ r. option_map (λ v. marks sets.new v.items) r
        ≡ joined (all_fed ends_only (map part_data parts.now) (args_data sets.old args.now))) }
{
    let mut joiner = Joiner::new(alloc);
    for part in parts {
        if !feed_part(alloc, sets, &mut joiner, ends_only, part, args)? {
            return Ok(None);
        }
    }
    let toks = joiner.finish()?;
    Ok(Some(toks))
}

/// The tokens of a body with arguments; `None` where a join makes no token. The one error is want of
/// memory.
pub(crate) fn text(
    alloc: Global,
    sets: &mut Sets,
    parts: &[Part],
    args: &[Given],
) -> Result<Option<Vec<Pend>>, AllocError>
    requires args { KnownArgs sets.old args.now }
    ensures grown { Grown sets.old sets.new }
    ensures known { IfOk result (λ r. IfSome r (λ v. KnownAll sets.new v.items)) }
    ensures is { IfOk result (λ r. option_map (λ v. marks sets.new v.items) r
        ≡ joined (items (map part_data parts.now) (args_data sets.old args.now))) }
{
    let toks = text_of(alloc, sets, false, parts, args)?;
    Ok(toks)
}

/// Whether each join of a body with arguments makes a token. Takes memory for the ends of arguments
/// alone, however long they are. The one error is want of memory.
pub(crate) fn are_joined(
    alloc: Global,
    sets: &mut Sets,
    parts: &[Part],
    args: &[Given],
) -> Result<bool, AllocError>
    requires args { KnownArgs sets.old args.now }
    ensures { IfOk result (λ b. b ≡ is_some (joined (items (map part_data parts.now) (args_data sets.old args.now)))) }
{
    let toks = text_of(alloc, sets, true, parts, args)?;
    let joined = toks.is_some();
    Ok(joined)
}

/// How many tokens a part puts in place before joins.
fn part_count(part: &Part, args: &[Given]) -> usize
    ensures { (s : SetTable) → result ≡ ones_in (part_items (args_data s args.now) (part_data part.now)) }
{
    match part {
        Part::Own(_) => 1,
        Part::Join => 0,
        Part::Text(_, _) => 1,
        Part::Written(_, number) => written_of(args, *number).len(),
        Part::Full(_, number) => full_of(args, *number).len(),
    }
}

/// How many tokens a part takes away: a join makes one of two.
fn join_count(part: &Part) -> usize
    ensures is { result ≡ (if is_join_part (part_data part.now) then 1 else 0) }
    ensures few { result ≤ 1 }
{
    match part {
        Part::Join => 1,
        _ => 0,
    }
}

/// A body with arguments has no fewer tokens than this, if each join makes one. Takes no memory.
pub(crate) fn least_count(parts: &[Part], args: &[Given]) -> usize
    ensures { (s : SetTable) (ts : List Marked) → joined (items (map part_data parts.now) (args_data s args.now)) ≡ Some ts → result ≤ length ts }
{
    let mut toks: usize = 0;
    let mut joins: usize = 0;
    for part in parts {
        toks = toks.saturating_add(part_count(part, args));
        joins += join_count(part);
    }
    toks.saturating_sub(joins)
}
