//! Expansion of a text (ISO C, 6.10.3).

ghost use Rattle.std.specs.Prelude.{◌≡◌, [], ◌∷◌, List, ℕ, IfOk, IfErr, Option, Some, None, map};
ghost use Rattle.c_tokens.specs.Reading.{IfRule};
ghost use Rattle.c_macro.specs.MacroData.{Macro};
ghost use Rattle.c_macro.specs.Marked.{Marked, toks_of};
ghost use Rattle.c_macro.specs.Table.{defs_of};
ghost use Rattle.c_macro.specs.Expansion.{Outcome, Done, Refused, expands};
ghost use Rattle.c_macro.specs.Worklist.{KnownMachine, KnownTurn, TurnUpTo, turn_weight, turn_of, Turned, pend_of};
ghost use Rattle.c_macro.specs.declared.turn.Turn.TheVariants as turn;

use crate::defs::Defs;
use crate::pend::Pend;
use crate::row::Pending;
use crate::sets::Sets;
use crate::tokens::copy_tok;
use crate::turn::{Machine, Open, Turn, go_on, level};
use c_tokens::{CEnd, Tok};
use std::alloc::{AllocError, Global};
use std::mem;

/// Replaces macro names in the tokens of logical lines, and what is put in their place, until none is
/// left to replace (ISO C, 6.10.3), by the definitions of `d`. Gives the tokens that come out, in the
/// order of the text. What it takes is taken from `alloc`.
///
/// C2 where a call of a function-like macro isn't closed, C3 where its arguments don't fit the
/// parameters, C4 where `##` makes no token, C7 above 67,108,864 units: a replacement spends one unit and
/// one for each token that it puts in place. The first one met in the order of the work is given.
/// Calls and names in arguments may be nested without limit.
pub fn expand(alloc: Global, d: &Defs, toks: &Vec<Tok>) -> Result<Vec<Tok>, CEnd>
    ensures ok { IfOk result (λ v. (out : List Marked) × (u : ℕ) × expands (defs_of d.now) toks.now.items (Done out u) × (toks_of out ≡ v.items)) }
    ensures err { IfErr result (λ e. IfRule e (λ r. expands (defs_of d.now) toks.now.items (Refused r))) }
{
    let mut machine = begin(alloc, toks.as_slice())?;
    let mut call: Option<Open> = None;
    loop {
        let at_work = mem::replace(&mut call, None);
        match one_turn(alloc, d, &mut machine, at_work)? {
            Turn::Level => {}
            Turn::Call(next) => call = Some(next),
            Turn::Finished => {
                let out = bare(alloc, machine.out.as_slice())?;
                return Ok(out);
            }
            Turn::Refused(rule) => return Err(CEnd::Rule(rule)),
        }
    }
}

/// Goes on with a call's arguments, or with a level.
fn one_turn<'a>(
    alloc: Global,
    defs: &'a Defs,
    machine: &mut Machine<'a>,
    call: Option<Open<'a>>,
) -> Result<Turn<'a>, AllocError>
    requires known { KnownMachine machine.old }
    requires call { KnownTurn machine.old.sets (turn_of call) }
    ensures { IfOk result (λ r. Turned (defs_of defs.now) machine.new r (TurnUpTo (defs_of defs.now) machine.old (turn_of call.entry)) (turn_weight machine.old (turn_of call.entry))) }
{
    match call {
        None => {
            let turn = level(alloc, defs, machine)?;
            Ok(turn)
        }
        Some(call) => {
            let turn = go_on(alloc, defs, machine, call)?;
            Ok(turn)
        }
    }
}

/// All tokens of a text pending, on a level within no call.
fn begin<'a>(alloc: Global, toks: &[Tok]) -> Result<Machine<'a>, AllocError>
    ensures known { IfOk result (λ m. KnownMachine m) }
    ensures all { IfOk result (λ m. (d : List ℕ → Option Macro) (o : Outcome) → TurnUpTo d m turn.Level o → expands d toks.now o) }
{
    let mut pend = pending(alloc, toks)?;
    pend.reverse();
    Ok(Machine {
        sets: Sets::new(alloc),
        opens: Vec::new(alloc),
        pend: Pending::of(pend),
        out: Vec::new(alloc),
        units: 0,
    })
}

/// A text's tokens: nothing is barred for them.
fn pending(alloc: Global, toks: &[Tok]) -> Result<Vec<Pend>, AllocError>
    ensures { IfOk result (λ v. v.items ≡ map pend_of toks.now) }
{
    let mut pends = Vec::with_capacity(alloc, toks.len())?;
    for tok in toks {
        pends.push(Pend {
            tok: copy_tok(alloc, tok)?,
            set: 0,
        })?;
    }
    Ok(pends)
}

/// The tokens alone.
fn bare(alloc: Global, pends: &[Pend]) -> Result<Vec<Tok>, AllocError>
    ensures { IfOk result (λ v. v.items ≡ map (λ p. p.tok) pends.now) }
{
    let mut toks = Vec::with_capacity(alloc, pends.len())?;
    for pend in pends {
        toks.push(copy_tok(alloc, &pend.tok)?)?;
    }
    Ok(toks)
}
