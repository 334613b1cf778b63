//! A worklist of pending tokens and open calls (ISO C, 6.10.3.4).

ghost use Rattle.std.specs.Prelude.{◌≡◌, ◌+◌, ◌*◌, ◌-◌, ◌<◌, ◌≤◌, ◌++◌, ◌∷◌, [], List, ℕ, IfOk, IfSome, OnOk, Some, None, length, map, reverse, option_map, if◌then◌else◌};
ghost use Rattle.std.specs.List.{list_any};
ghost use Rattle.c_macro.specs.Directive.{all_params};
ghost use Rattle.c_macro.specs.Bodies as bodies;
ghost use Rattle.c_macro.specs.Bodies.{tasks, task_of, is_written, is_full, spaced_as, add_bars};
ghost use Rattle.c_macro.specs.Calls.{fitted, fit_none, fit_variable};
ghost use Rattle.c_macro.specs.Marked.{with_bar};
ghost use Rattle.c_macro.specs.Expansion.{macro_at};
ghost use Rattle.c_macro.specs.SetData.{set_count, Grown, SetTable, bars_of};
ghost use Rattle.c_macro.specs.Table.{defs_of};
ghost use Rattle.c_macro.specs.Pending.{mark, marks, KnownAll, KnownTasks, KnownArgs, args_data, task_data, tasks_data, part_data};
ghost use Rattle.c_macro.specs.Collecting.{rows_data, KnownRows, rows_size};
ghost use Rattle.c_macro.specs.Machine.{todo_weight};
ghost use Rattle.c_macro.specs.Needing.{NeedsOf, count_of};

use crate::defs::Defs;
use crate::needs::{Needs, flag};
use crate::pend::{Pend, Todo};
use crate::ready::Ready;
use crate::row::Row;
use crate::sets::Sets;
use crate::tokens::is_word;
use edt_base::Text;
use std::alloc::{AllocError, Global};

/// The macro of a token, unless its name is barred for it.
pub(crate) fn macro_at<'a>(defs: &'a Defs, sets: &Sets, pend: &Pend) -> Option<&'a Ready>
    requires { pend.now.set < set_count sets.now }
    ensures { option_map (λ d. d.now) result ≡ macro_at (defs_of defs.now) (mark sets.now pend.now) }
{
    if !is_word(&pend.tok) || sets.has(pend.set, &pend.tok.spell) {
        return None;
    }
    defs.ready(&pend.tok.spell)
}

/// An argument for each parameter, `None` where there are too few or too many. The one error is want
/// of memory.
pub(crate) fn fit(
    alloc: Global,
    names: &[Text],
    variadic: bool,
    args: Vec<Row>,
) -> Result<Option<Vec<Row>>, AllocError>
    ensures is { IfOk result (λ r. (s : SetTable) → option_map (λ v. rows_data s v.items) r ≡ fitted names.now variadic (rows_data s args.items)) }
    ensures known { IfOk result (λ r. IfSome r (λ v. (s : SetTable) → KnownRows s args.items → KnownRows s v.items)) }
    ensures size { IfOk result (λ r. IfSome r (λ v. rows_size v.items ≤ rows_size args.items + 1)) }
    ensures count { IfOk result (λ r. IfSome r (λ v. length v.items ≡ count_of (Some names.now) variadic)) }
{
    if variadic {
        let fit = fit_variable(names, args)?;
        return Ok(fit);
    }
    if names.is_empty() {
        return Ok(fit_none(alloc, args));
    }
    if args.len() == names.len() {
        return Ok(Some(args));
    }
    Ok(None)
}

/// Without parameters a call has one empty argument, which is none.
fn fit_none(alloc: Global, args: Vec<Row>) -> Option<Vec<Row>>
    ensures is { (s : SetTable) → option_map (λ v. rows_data s v.items) result ≡ fit_none (rows_data s args.items) }
    ensures none { IfSome result (λ v. v.items ≡ []) }
{
    match args.as_slice() {
        [only] if only.is_empty() => Some(Vec::new(alloc)),
        _ => None,
    }
}

/// A variable part that is left out is empty. The one error is want of memory.
fn fit_variable(names: &[Text], args: Vec<Row>) -> Result<Option<Vec<Row>>, AllocError>
    ensures is { IfOk result (λ r. (s : SetTable) → option_map (λ v. rows_data s v.items) r ≡ fit_variable (length names.now) (rows_data s args.items)) }
    ensures known { IfOk result (λ r. IfSome r (λ v. (s : SetTable) → KnownRows s args.items → KnownRows s v.items)) }
    ensures size { IfOk result (λ r. IfSome r (λ v. rows_size v.items ≤ rows_size args.items + 1)) }
    ensures count { IfOk result (λ r. IfSome r (λ v. length v.items ≡ length names.now + 1)) }
{
    let count = args.as_slice().len();
    let mut args = args;
    if count == names.len() + 1 {
        return Ok(Some(args));
    }
    if count == names.len() {
        args.push(Row::none())?;
        return Ok(Some(args));
    }
    Ok(None)
}

/// An argument to prepare. The one error is want of memory.
fn todo_of(needs: &Needs, number: usize, row: Row) -> Result<Todo, AllocError>
    ensures is { IfOk result (λ x. (s : SetTable) (ps : List bodies.Part) (count : ℕ) → NeedsOf ps count needs.now → number < count → task_data s x ≡ task_of ps number (marks s row)) }
    ensures known { IfOk result (λ x. (s : SetTable) → KnownAll s row → KnownAll s x.written × KnownAll s x.raw) }
    ensures size { IfOk result (λ x. length x.raw ≤ length row) }
{
    let wanted = flag(needs.full.as_slice(), number);
    let written = copy_if(flag(needs.written.as_slice(), number), &row)?;
    let raw = keep_if(wanted, row);
    Ok(Todo {
        written,
        raw,
        wanted,
    })
}

/// The same tokens once more where they are needed. The one error is want of memory.
fn copy_if(needed: bool, row: &Row) -> Result<Row, AllocError>
    ensures { IfOk result (λ r. r ≡ (if needed then row.now else [])) }
{
    if needed {
        let copy = row.copy()?;
        return Ok(copy);
    }
    Ok(Row::none())
}

/// Tokens where they are needed.
fn keep_if(needed: bool, row: Row) -> Row
    ensures { result ≡ (if needed then row else []) }
{
    if needed { row } else { Row::none() }
}

/// The arguments to prepare, the first one last. The one error is want of memory.
pub(crate) fn todos_of(
    alloc: Global,
    needs: &Needs,
    args: Vec<Row>,
) -> Result<Vec<Todo>, AllocError>
    ensures is { IfOk result (λ v. (s : SetTable) (ps : List bodies.Part) (count : ℕ) → NeedsOf ps count needs.now → length args.items ≤ count
        → tasks_data s (reverse v.items) ≡ tasks ps 0 (rows_data s args.items)) }
    ensures known { IfOk result (λ v. (s : SetTable) → KnownRows s args.items → KnownTasks s v.items) }
    ensures weight { IfOk result (λ v. todo_weight v.items ≤ 2 * rows_size args.items) }
{
    let mut args = args;
    let mut todo = Vec::with_capacity(alloc, args.len())?;
    while let Some(row) = args.pop() {
        let number = args.as_slice().len();
        todo.push(todo_of(needs, number, row)?)?;
    }
    Ok(todo)
}
