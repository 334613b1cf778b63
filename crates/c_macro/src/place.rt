//! Puts tokens in the place of a name.

ghost use Rattle.std.specs.Prelude.{◌≡◌, ◌+◌, ◌<◌, ◌++◌, ◌∷◌, [], IfOk, OnOk, length, reverse, true, false};
ghost use Rattle.c_macro.specs.Bodies.{spaced_as, add_bars};
ghost use Rattle.c_macro.specs.Marked.{with_bar};
ghost use Rattle.c_macro.specs.SetData.{set_count, Grown, SetTable, bars_of};
ghost use Rattle.c_macro.specs.Pending.{marks, KnownAll};
ghost use Rattle.c_macro.specs.Placing.{spaced_if};

use crate::joiner::respaced;
use crate::pend::Pend;
use crate::row::Pending;
use crate::sets::Sets;
use std::alloc::AllocError;

/// Puts tokens before those that are pending, of which the next stands last: the names of a set are
/// barred for them, and the first takes the white space of what it replaces. The one error is want of
/// memory.
pub(crate) fn place(
    sets: &mut Sets,
    pend: &mut Pending,
    toks: Vec<Pend>,
    bars: usize,
    spaced: bool,
) -> Result<(), AllocError>
    requires bars { bars < set_count sets.old }
    requires toks { KnownAll sets.old toks.items }
    requires pend { KnownAll sets.old pend.old }
    ensures grown { Grown sets.old sets.new }
    ensures known { OnOk result (KnownAll sets.new pend.new) }
    ensures is { OnOk result (marks sets.new (reverse pend.new)
        ≡ spaced_as spaced (add_bars (bars_of sets.old bars) (marks sets.old toks.items)) ++ marks sets.old (reverse pend.old)) }
    ensures size { OnOk result (length pend.new ≡ length pend.old + length toks.items) }
{
    let mut toks = toks;
    while let Some(tok) = toks.pop() {
        let set = sets.either(tok.set, bars)?;
        let barred = Pend { tok: tok.tok, set };
        let first = is_none(toks.as_slice());
        pend.push(spaced_if(first, spaced, barred))?;
    }
    Ok(())
}

fn is_none(toks: &[Pend]) -> bool
    ensures none { result ≡ true → toks.now ≡ [] }
    ensures some { result ≡ false → 0 < length toks.now }
{
    toks.is_empty()
}

/// The token, with this white space where it is the first.
fn spaced_if(first: bool, spaced: bool, pend: Pend) -> Pend
    ensures { result ≡ spaced_if first spaced pend }
{
    if first { respaced(spaced, pend) } else { pend }
}
