//! Takes the arguments of a call (ISO C, 6.10.3, 10 to 12).

ghost use Rattle.std.specs.Prelude.{◌≡◌, ◌+◌, ◌<◌, ◌≤◌, ◌-◌, ◌∷◌, ◌++◌, [], List, ℕ, take, drop, IfOk, IfSome, OnOk, Some, None, Option, length, reverse, option_map, true, false};
ghost use Rattle.c_macro.specs.Calls as calls;
ghost use Rattle.c_macro.specs.Calls.{closed, Closed};
ghost use Rattle.c_macro.specs.Marked.{Marked};
ghost use Rattle.c_macro.specs.SetData.{SetTable};
ghost use Rattle.c_macro.specs.Pending.{mark, marks, KnownAll};
ghost use Rattle.c_macro.specs.Rows.{IsBalanced};
ghost use Rattle.c_macro.specs.Collecting.{rows_data, KnownRows, rows_size, fewer_commas, more_commas, Splitting, taken_data, KnownTaken};

use crate::pend::Pend;
use crate::row::{Pending, Row, Step};
use std::alloc::{AllocError, Global};
use std::mem;

/// The arguments of a call as far as they are parted: those that are complete, the rest from the one at
/// hand on, what is left of that, and how many commas still part arguments, `None` for all.
#[derive(Drop)]
struct Taking {
    args: Vec<Row>,
    here: Row,
    left: Row,
    commas: Option<usize>,
}

/// Whether a comma parts arguments yet.
fn more_commas(commas: Option<usize>) -> bool
    ensures { result ≡ more_commas commas }
{
    commas != Some(0)
}

/// One comma less that parts arguments.
fn fewer_commas(commas: Option<usize>) -> Option<usize>
    ensures { result ≡ fewer_commas commas }
{
    match commas {
        None => None,
        Some(0) => Some(0),
        Some(n) => Some(n - 1),
    }
}

impl Taking {
    /// Ends the argument at hand at a comma. The one error is want of memory.
    fn part(&mut self) -> Result<(), AllocError>
        requires there { 0 < length self.old.left }
        requires fits { length self.old.left ≤ length self.old.here }
        ensures left { OnOk result ((self.new.left ≡ drop 1 self.old.left) × (self.new.here ≡ drop 1 self.old.left)) }
        ensures args { OnOk result (self.new.args.items ≡ self.old.args.items ++ take (length self.old.here - length self.old.left) self.old.here ∷ []) }
        ensures commas { OnOk result (self.new.commas ≡ fewer_commas self.old.commas) }
    {
        let count = self.here.before(&self.left);
        self.left.skip(1);
        let here = self.left.copy()?;
        let mut arg = mem::replace(&mut self.here, here);
        arg.keep(count);
        self.args.push(arg)?;
        self.commas = fewer_commas(self.commas);
        Ok(())
    }

    /// Goes on to the next comma or token; `false` at the end. The one error is want of memory.
    fn next(&mut self) -> Result<bool, AllocError>
        requires { (row : List Pend) × (commas : Option ℕ) × Splitting row commas self.old }
        ensures { IfOk result (λ more. (row : List Pend) (commas : Option ℕ) → Splitting row commas self.old
            → Splitting row commas self.new × (more ≡ true → length self.new.left < length self.old.left) × (more ≡ false → self.new.left ≡ [])) }
    {
        match self.left.step() {
            Step::Comma => {
                if more_commas(self.commas) {
                    self.part()?;
                } else {
                    self.left.skip(1);
                }
                Ok(true)
            }
            Step::Item(count) => {
                self.left.skip(count);
                Ok(true)
            }
            Step::End => Ok(false),
            Step::Closes => Ok(false),
            Step::Unclosed => Ok(false),
        }
    }
}

/// A call's arguments and its closing bracket.
#[derive(Drop)]
pub(crate) struct Taken {
    pub args: Vec<Row>,
    pub last: Pend,
}

/// The arguments that stand in a call's brackets, parted at so many commas, `None` for all. The one
/// error is want of memory.
fn split(alloc: Global, row: Row, commas: Option<usize>) -> Result<Vec<Row>, AllocError>
    requires { IsBalanced row }
    ensures is { IfOk result (λ v. (s : SetTable) (last : Marked) (rest : List Marked) → calls.mark_of last.tok ≡ calls.Closes
        → closed commas 0 (marks s row ++ last ∷ rest) ≡ Some (record { args = rows_data s v.items; last = last; rest = rest })) }
    ensures known { IfOk result (λ v. (s : SetTable) → KnownAll s row → KnownRows s v.items) }
    ensures size { IfOk result (λ v. rows_size v.items ≡ length row + 1) }
{
    let left = row.copy()?;
    let mut taking = Taking {
        args: Vec::new(alloc),
        here: row,
        left,
        commas,
    };
    while taking.next()? {}
    let mut args = taking.args;
    args.push(taking.here)?;
    Ok(args)
}

/// Takes the arguments of a call up to its closing bracket, `None` where it isn't closed. The one error
/// is want of memory.
pub(crate) fn take_call(
    alloc: Global,
    pend: &mut Pending,
    commas: Option<usize>,
) -> Result<Option<Taken>, AllocError>
    ensures is { IfOk result (λ r. (s : SetTable) → option_map (λ t. taken_data s t pend.new) r ≡ closed commas 0 (marks s (reverse pend.old))) }
    ensures known { IfOk result (λ r. IfSome r (λ t. (s : SetTable) → KnownAll s pend.old → KnownTaken s t pend.new)) }
    ensures size { IfOk result (λ r. IfSome r (λ t. rows_size t.args.items + length pend.new ≡ length pend.old)) }
{
    let Some(enclosed) = pend.take_closed(alloc)? else {
        return Ok(None);
    };
    let args = split(alloc, enclosed.toks, commas)?;
    Ok(Some(Taken {
        args,
        last: enclosed.last,
    }))
}
