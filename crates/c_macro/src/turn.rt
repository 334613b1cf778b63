//! The turns of the worklist (ISO C, 6.10.3.4).

ghost use Rattle.std.specs.Prelude.{◌≡◌, ◌+◌, ◌*◌, ◌-◌, ◌<◌, ◌≤◌, ◌++◌, ◌∷◌, [], List, ℕ, IfOk, IfSome, OnOk, Some, None, length, map, reverse, option_map, Option, true, false, codes};
ghost use Rattle.c_macro.specs.Bodies.{spaced_as, add_bars, parts_of, object_text, joined, items};
ghost use Rattle.c_macro.specs.Marked.{with_bar, Marked};
ghost use Rattle.c_macro.specs.Expansion.{macro_at, Outcome, most_units, look_macro, look, Put, Object};
ghost use Rattle.c_macro.specs.MacroData.{Macro};
ghost use Rattle.c_macro.specs.Directive.{all_params, is_punct};
ghost use Rattle.c_macro.specs.Calls.{commas_of};
ghost use Rattle.c_macro.specs.SetData.{set_count, Grown, SetTable, bars_of};
ghost use Rattle.c_macro.specs.Table.{defs_of};
ghost use Rattle.c_macro.specs.Turns.{Frame, frame_text};
ghost use Rattle.c_macro.specs.Pending.{mark, marks, KnownAll, KnownTasks, KnownArgs, args_data, task_data, tasks_data, part_data};
ghost use Rattle.c_macro.specs.Worklist.{frame_of, frames_of, KnownOpen, KnownMachine, LevelEnds, TurnUpTo, TextUpTo, CallUpTo, open_weight, opens_weight, turn_weight, Turned, turn_of};
ghost use Rattle.c_macro.specs.declared.turn.Turn.TheVariants as turn;

use crate::collect::take_call;
use crate::defs::Defs;
use crate::machine::{fit, macro_at, todos_of};
use crate::part::Part;
use crate::pend::{Given, Pend, Todo};
use crate::place::place;
use crate::ready::Ready;
use crate::row::{Pending, Row};
use crate::sets::Sets;
use crate::text::{are_joined, least_count, text};
use crate::tokens::is_punct;
use edt_base::{Rule, Text};
use std::alloc::{AllocError, Global};
use std::mem;

/// How many units an expansion may spend.
const MOST_UNITS: u64 = 67_108_864;

/// An open call, and what stands around it. Of pending tokens and of arguments the next stands last.
#[derive(Drop)]
pub(crate) struct Open<'a> {
    name: Pend,
    def: &'a Ready,
    parts: &'a [Part],
    last: Pend,
    rest: Pending,
    out: Vec<Pend>,
    written: Row,
    todo: Vec<Todo>,
    done: Vec<Given>,
}

/// The open calls, the innermost last, and the level within them: what is pending, the next token
/// last, and what was put out.
#[derive(Drop)]
pub(crate) struct Machine<'a> {
    pub sets: Sets,
    pub opens: Vec<Open<'a>>,
    pub pend: Pending,
    pub out: Vec<Pend>,
    pub units: u64,
}

/// What is to be done next.
#[derive(Drop)]
pub(crate) enum Turn<'a> {
    /// Look at the next token.
    Level,
    /// Go on with the arguments of this call.
    Call(Open<'a>),
    /// Nothing: all is put out.
    Finished,
    /// Nothing: a rule is broken.
    Refused(Rule),
}

/// Puts a token out.
fn put<'a>(machine: &mut Machine<'a>, tok: Pend) -> Result<Turn<'a>, AllocError>
    requires known { KnownMachine machine.old }
    requires tok { tok.set < set_count machine.old.sets }
    ensures { IfOk result (λ r. (d : List ℕ → Option Macro) → look d (mark machine.old.sets tok ∷ marks machine.old.sets (reverse machine.old.pend)) ≡ Put (mark machine.old.sets tok) (marks machine.old.sets (reverse machine.old.pend))
        → Turned d machine.new r (LevelEnds d machine.old (mark machine.old.sets tok ∷ marks machine.old.sets (reverse machine.old.pend))) (turn_weight machine.old turn.Level + 2)) }
{
    machine.out.push(tok)?;
    Ok(Turn::Level)
}

/// Whether a replacement by so many tokens is above the limit.
fn is_above(units: u64, count: usize) -> bool
    requires { units ≤ most_units }
    ensures above { result ≡ true → most_units < units + 1 + count }
    ensures within { result ≡ false → units + 1 + count ≤ most_units }
{
    count as u64 >= MOST_UNITS - units
}

/// Puts a text in the place of a name, with the names of a set and the name itself barred.
fn put_in_place<'a>(
    machine: &mut Machine<'a>,
    text: Option<Vec<Pend>>,
    name: &Pend,
    set: usize,
) -> Result<Turn<'a>, AllocError>
    requires known { KnownMachine machine.old }
    requires text { IfSome text (λ v. KnownAll machine.old.sets v.items) }
    requires set { set < set_count machine.old.sets }
    ensures { IfOk result (λ r. (d : List ℕ → Option Macro) → Turned d machine.new r
        (TextUpTo d (frames_of machine.old.sets machine.old.opens.items)
        (option_map (λ v. spaced_as name.now.tok.spaced (add_bars (with_bar (bars_of machine.old.sets set) name.now.tok.spell) (marks machine.old.sets v.items))) text)
        (marks machine.old.sets (reverse machine.old.pend)) (marks machine.old.sets machine.old.out.items) machine.old.units)
        (turn_weight machine.old turn.Level)) }
{
    let Some(toks) = text else {
        return Ok(Turn::Refused(Rule::C4));
    };
    let count = toks.as_slice().len();
    if is_above(machine.units, count) {
        return Ok(Turn::Refused(Rule::C7));
    }
    let bars = machine.sets.with(set, &name.tok.spell)?;
    place(
        &mut machine.sets,
        &mut machine.pend,
        toks,
        bars,
        name.tok.spaced,
    )?;
    machine.units += 1 + count as u64;
    Ok(Turn::Level)
}

/// Puts an object-like macro's text in the place of its name.
fn replace_object<'a>(
    alloc: Global,
    machine: &mut Machine<'a>,
    tok: Pend,
    def: &'a Ready,
) -> Result<Turn<'a>, AllocError>
    requires known { KnownMachine machine.old }
    requires tok { tok.set < set_count machine.old.sets }
    requires object { def.now.params ≡ None }
    ensures { IfOk result (λ r. (d : List ℕ → Option Macro) → look d (mark machine.old.sets tok ∷ marks machine.old.sets (reverse machine.old.pend)) ≡ Object (mark machine.old.sets tok) def.now (marks machine.old.sets (reverse machine.old.pend))
        → Turned d machine.new r (LevelEnds d machine.old (mark machine.old.sets tok ∷ marks machine.old.sets (reverse machine.old.pend))) (turn_weight machine.old turn.Level + 2)) }
{
    let text = text(alloc, &mut machine.sets, def.parts(), &[])?;
    let turn = put_in_place(machine, text, &tok, tok.set)?;
    Ok(turn)
}

/// Refuses a call whose text is above the limit, if each of its joins makes a token.
fn refuse_call<'a>(
    alloc: Global,
    machine: &mut Machine<'a>,
    call: &Open<'a>,
    least: usize,
) -> Result<Turn<'a>, AllocError>
    requires known { KnownMachine machine.old }
    requires call { KnownOpen machine.old.sets call.now }
    requires done { call.now.todo.items ≡ [] }
    requires least { (ts : List Marked) → joined (items (map part_data call.now.parts.now) (args_data machine.old.sets call.now.done.items)) ≡ Some ts → least ≤ length ts }
    requires above { most_units < machine.old.units + 1 + least }
    ensures { IfOk result (λ r. (d : List ℕ → Option Macro) → Turned d machine.new r (TurnUpTo d machine.old (turn.Call call.now)) (turn_weight machine.old (turn.Call call.now))) }
{
    if are_joined(alloc, &mut machine.sets, call.parts, call.done.as_slice())? {
        return Ok(Turn::Refused(Rule::C7));
    }
    Ok(Turn::Refused(Rule::C4))
}

/// Goes on with a call whose arguments are prepared: puts its text in its place. A text that is above
/// the limit is never made.
fn finish_call<'a>(
    alloc: Global,
    machine: &mut Machine<'a>,
    call: Open<'a>,
) -> Result<Turn<'a>, AllocError>
    requires known { KnownMachine machine.old }
    requires call { KnownOpen machine.old.sets call }
    requires done { call.todo.items ≡ [] }
    ensures { IfOk result (λ r. (d : List ℕ → Option Macro) → Turned d machine.new r (TurnUpTo d machine.old (turn.Call call.entry)) (turn_weight machine.old (turn.Call call.entry))) }
{
    let parts = call.parts;
    let args = call.done.as_slice();
    let least = least_count(parts, args);
    if is_above(machine.units, least) {
        let turn = refuse_call(alloc, machine, &call, least)?;
        return Ok(turn);
    }
    let set = machine.sets.common(call.name.set, call.last.set)?;
    let text = text(alloc, &mut machine.sets, parts, args)?;
    machine.pend = call.rest;
    machine.out = call.out;
    let turn = put_in_place(machine, text, &call.name, set)?;
    Ok(turn)
}

/// Goes on behind the end of a level: with the call around it, or with nothing.
fn close_level<'a>(alloc: Global, machine: &mut Machine<'a>) -> Result<Turn<'a>, AllocError>
    requires known { KnownMachine machine.old }
    requires ended { machine.old.pend ≡ [] }
    ensures { IfOk result (λ r. (d : List ℕ → Option Macro) → Turned d machine.new r (LevelEnds d machine.old []) (turn_weight machine.old turn.Level)) }
{
    let Some(call) = machine.opens.pop() else {
        return Ok(Turn::Finished);
    };
    let mut call = call;
    let full = mem::replace(&mut machine.out, Vec::new(alloc));
    let written = mem::replace(&mut call.written, Row::none());
    call.done.push(Given { written, full })?;
    Ok(Turn::Call(call))
}

/// Keeps an argument that isn't to be expanded.
fn keep_arg<'a>(
    alloc: Global,
    machine: &mut Machine<'a>,
    call: Open<'a>,
    arg: Todo,
) -> Result<Turn<'a>, AllocError>
    requires known { KnownMachine machine.old }
    requires call { KnownOpen machine.old.sets call }
    requires arg { KnownAll machine.old.sets arg.written }
    requires unwanted { arg.wanted ≡ false }
    ensures { IfOk result (λ r. (d : List ℕ → Option Macro) → Turned d machine.new r (CallUpTo d machine.old call.entry arg) (turn_weight machine.old (turn.Call call.entry) + 1)) }
{
    let mut call = call;
    call.done.push(Given {
        written: arg.written,
        full: Vec::new(alloc),
    })?;
    Ok(Turn::Call(call))
}

/// Begins to expand an argument.
fn start_arg<'a>(
    alloc: Global,
    machine: &mut Machine<'a>,
    call: Open<'a>,
    arg: Todo,
) -> Result<Turn<'a>, AllocError>
    requires known { KnownMachine machine.old }
    requires call { KnownOpen machine.old.sets call }
    requires arg { KnownAll machine.old.sets arg.written × KnownAll machine.old.sets arg.raw }
    requires wanted { arg.wanted ≡ true }
    ensures { IfOk result (λ r. (d : List ℕ → Option Macro) → Turned d machine.new r (CallUpTo d machine.old call.entry arg) (turn_weight machine.old (turn.Call call.entry) + (2 * length arg.raw + 2))) }
{
    let mut call = call;
    call.written = arg.written;
    machine.opens.push(call)?;
    machine.pend = Pending::of_row(alloc, arg.raw);
    machine.out = Vec::new(alloc);
    Ok(Turn::Level)
}

/// How many commas part the arguments of a macro with these parameters.
fn commas_of(names: &[Text], variadic: bool) -> Option<usize>
    ensures { result ≡ commas_of names.now variadic }
{
    if variadic { Some(names.len()) } else { None }
}

/// Opens the call of a function-like macro, whose opening bracket is taken.
fn open_call<'a>(
    alloc: Global,
    machine: &mut Machine<'a>,
    tok: Pend,
    def: &'a Ready,
    names: &'a [Text],
) -> Result<Turn<'a>, AllocError>
    requires known { KnownMachine machine.old }
    requires tok { tok.set < set_count machine.old.sets }
    requires names { def.now.params ≡ Some names.now }
    ensures { IfOk result (λ r. (d : List ℕ → Option Macro) (bracket : Marked) → is_punct (codes "(") bracket.tok ≡ true → macro_at d (mark machine.old.sets tok) ≡ Some def.now
        → Turned d machine.new r (LevelEnds d machine.old (mark machine.old.sets tok ∷ bracket ∷ marks machine.old.sets (reverse machine.old.pend))) (turn_weight machine.old turn.Level + 4)) }
{
    let variadic = def.is_variadic();
    let Some(taken) = take_call(alloc, &mut machine.pend, commas_of(names, variadic))? else {
        return Ok(Turn::Refused(Rule::C2));
    };
    let Some(args) = fit(alloc, names, variadic, taken.args)? else {
        return Ok(Turn::Refused(Rule::C3));
    };
    let todo = todos_of(alloc, def.needs(), args)?;
    let rest = mem::replace(&mut machine.pend, Pending::none(alloc));
    let out = mem::replace(&mut machine.out, Vec::new(alloc));
    Ok(Turn::Call(Open {
        name: tok,
        def,
        parts: def.parts(),
        last: taken.last,
        rest,
        out,
        written: Row::none(),
        todo,
        done: Vec::new(alloc),
    }))
}

/// Looks at the name of a function-like macro: it is a call where a bracket follows.
fn call_or_put<'a>(
    alloc: Global,
    machine: &mut Machine<'a>,
    tok: Pend,
    def: &'a Ready,
    names: &'a [Text],
) -> Result<Turn<'a>, AllocError>
    requires known { KnownMachine machine.old }
    requires tok { tok.set < set_count machine.old.sets }
    requires names { def.now.params ≡ Some names.now }
    ensures { IfOk result (λ r. (d : List ℕ → Option Macro) → macro_at d (mark machine.old.sets tok) ≡ Some def.now
        → Turned d machine.new r (LevelEnds d machine.old (mark machine.old.sets tok ∷ marks machine.old.sets (reverse machine.old.pend))) (turn_weight machine.old turn.Level + 2)) }
{
    let Some(next) = machine.pend.pop(alloc)? else {
        let turn = put(machine, tok)?;
        return Ok(turn);
    };
    if is_punct("(", &next.tok) {
        let turn = open_call(alloc, machine, tok, def, names)?;
        return Ok(turn);
    }
    machine.pend.push(next)?;
    let turn = put(machine, tok)?;
    Ok(turn)
}

/// Looks at a token.
fn look_at<'a>(
    alloc: Global,
    defs: &'a Defs,
    machine: &mut Machine<'a>,
    tok: Pend,
) -> Result<Turn<'a>, AllocError>
    requires known { KnownMachine machine.old }
    requires tok { tok.set < set_count machine.old.sets }
    ensures { IfOk result (λ r. Turned (defs_of defs.now) machine.new r
        (LevelEnds (defs_of defs.now) machine.old (mark machine.old.sets tok ∷ marks machine.old.sets (reverse machine.old.pend))) (turn_weight machine.old turn.Level + 2)) }
{
    let Some(def) = macro_at(defs, &machine.sets, &tok) else {
        let turn = put(machine, tok)?;
        return Ok(turn);
    };
    match def.params() {
        None => {
            let turn = replace_object(alloc, machine, tok, def)?;
            Ok(turn)
        }
        Some(names) => {
            let turn = call_or_put(alloc, machine, tok, def, names)?;
            Ok(turn)
        }
    }
}

/// Goes on with a level: looks at its next token, or leaves it.
pub(crate) fn level<'a>(
    alloc: Global,
    defs: &'a Defs,
    machine: &mut Machine<'a>,
) -> Result<Turn<'a>, AllocError>
    requires known { KnownMachine machine.old }
    ensures { IfOk result (λ r. Turned (defs_of defs.now) machine.new r (TurnUpTo (defs_of defs.now) machine.old turn.Level) (turn_weight machine.old turn.Level)) }
{
    let Some(tok) = machine.pend.pop(alloc)? else {
        let turn = close_level(alloc, machine)?;
        return Ok(turn);
    };
    let turn = look_at(alloc, defs, machine, tok)?;
    Ok(turn)
}

/// Goes on with the arguments of a call.
pub(crate) fn go_on<'a>(
    alloc: Global,
    defs: &'a Defs,
    machine: &mut Machine<'a>,
    call: Open<'a>,
) -> Result<Turn<'a>, AllocError>
    requires known { KnownMachine machine.old }
    requires call { KnownOpen machine.old.sets call }
    ensures { IfOk result (λ r. Turned (defs_of defs.now) machine.new r (TurnUpTo (defs_of defs.now) machine.old (turn.Call call.entry)) (turn_weight machine.old (turn.Call call.entry))) }
{
    let mut call = call;
    let Some(arg) = call.todo.pop() else {
        let turn = finish_call(alloc, machine, call)?;
        return Ok(turn);
    };
    if arg.wanted {
        let turn = start_arg(alloc, machine, call, arg)?;
        return Ok(turn);
    }
    let turn = keep_arg(alloc, machine, call, arg)?;
    Ok(turn)
}
