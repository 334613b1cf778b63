//! The definitions of a node on its interrupts, and with them those on its registers and ranges.

ghost use Rattle.std.specs.Prelude.{◌≡◌, ◌∷◌, [], MatchBool};
ghost use Rattle.edt_base.specs.Nodes.{path_at};
ghost use Rattle.dt_names.specs.Facts.{each, irq_facts, entry_facts, plain};
ghost use Rattle.dt_names.specs.Pieces.{lit, num};
ghost use Rattle.dt_names.specs.Inner.Groups.{range_irq_facts};

use crate::cell_rows::EntryRows;
use crate::fact::{Fact, Single};
use crate::reg_rows::{RangeRows, RegRows};
use crate::row::{At, Ending};
use crate::rows::number;
use edt_base::{Bound, BoundNode, Irq, Range, Reg};
use std::marker::Model;

/// The definitions on a node's interrupts that are left.
#[derive(Drop)]
struct IrqRows<'a> {
    bound: &'a Bound,
    owner: u32,
    entry: EntryRows<'a>,
    index: usize,
    all: &'a [Irq],
    rest: &'a [Irq],
}

impl<'a> Model for IrqRows<'a> {
    ghost use Rattle.std.specs.Prelude.{◌≡◌, ◌+◌, ◌++◌, List, length};
    ghost use Rattle.edt_base.specs.Nodes.{path_at};
    ghost use Rattle.dt_names.specs.Facts.{FactData, each, irq_facts};

    ghost Value = { List FactData };

    ghost view = { λ s. s.entry ++ each
        (irq_facts s.owner (path_at s.bound.now.tree.nodes s.owner)) s.index s.rest.now };

    ghost invariant = { λ s. s.index + length s.rest.now ≡ length s.all.now };
}

impl<'a> IrqRows<'a> {
    fn new(bound: &'a Bound, n: u32, irqs: &'a [Irq]) -> IrqRows<'a>
        ensures { result ≡ each (irq_facts n (path_at bound.now.tree.nodes n)) 0 irqs.now }
    {
        IrqRows {
            bound,
            owner: n,
            entry: EntryRows::none(bound),
            index: 0,
            all: irqs,
            rest: irqs,
        }
    }

    fn next(&mut self, fact: &mut Fact<'a>) -> bool
        ensures { MatchBool result (self.old ≡ fact.new ∷ self.new) ((self.old ≡ [])
            × (self.new ≡ [])) }
    {
        if self.entry.next(fact) {
            return true;
        }
        let count = self.all.len();
        let Some((irq, rest)) = self.rest.split_first() else {
            return false;
        };
        let holds = self.index < count;
        prove!(holds);
        begin_irq(&mut self.entry, self.bound, self.owner, self.index, irq);
        self.index += 1;
        self.rest = rest;
        self.entry.next(fact)
    }
}

// Puts the definitions on an interrupt in the place of others. Apart from `next`, which needn't
// hold room for them.
#[inline(never)]
fn begin_irq<'a>(rows: &mut EntryRows<'a>, bound: &'a Bound, n: u32, i: usize, irq: &'a Irq)
    ensures { rows.new ≡ irq_facts n (path_at bound.now.tree.nodes n) i irq.now }
{
    *rows = EntryRows::of_irq(bound, n, i, irq);
}

/// The definitions on a node's ranges and interrupts that are left.
#[derive(Drop)]
struct RangeIrqRows<'a> {
    range_count: Single<'a>,
    ranges: RangeRows<'a>,
    irq_count: Single<'a>,
    irqs: IrqRows<'a>,
}

impl<'a> Model for RangeIrqRows<'a> {
    ghost use Rattle.std.specs.Prelude.{◌++◌, List};
    ghost use Rattle.dt_names.specs.Facts.{FactData};

    ghost Value = { List FactData };

    ghost view = { λ s. s.range_count ++ (s.ranges ++ (s.irq_count ++ s.irqs)) };
}

impl<'a> RangeIrqRows<'a> {
    fn new(bound: &'a Bound, n: u32, ranges: &'a [Range], irqs: &'a [Irq]) -> RangeIrqRows<'a>
        ensures { result ≡ range_irq_facts n (path_at bound.now.tree.nodes n) ranges.now irqs.now }
    {
        RangeIrqRows {
            range_count: count_row(bound, n, "_RANGES_NUM", ranges.len()),
            ranges: RangeRows::new(bound, n, ranges),
            irq_count: count_row(bound, n, "_IRQ_NUM", irqs.len()),
            irqs: IrqRows::new(bound, n, irqs),
        }
    }

    fn next(&mut self, fact: &mut Fact<'a>) -> bool
        ensures { MatchBool result (self.old ≡ fact.new ∷ self.new) ((self.old ≡ [])
            × (self.new ≡ [])) }
    {
        if self.range_count.next(fact) {
            return true;
        }
        if self.ranges.next(fact) {
            return true;
        }
        if self.irq_count.next(fact) {
            return true;
        }
        self.irqs.next(fact)
    }
}

/// The definitions on a node's registers, ranges and interrupts that are left.
#[derive(Drop)]
pub(crate) struct ResourceRows<'a> {
    reg_count: Single<'a>,
    regs: RegRows<'a>,
    others: RangeIrqRows<'a>,
}

impl<'a> Model for ResourceRows<'a> {
    ghost use Rattle.std.specs.Prelude.{◌++◌, List};
    ghost use Rattle.dt_names.specs.Facts.{FactData};

    ghost Value = { List FactData };

    ghost view = { λ s. s.reg_count ++ (s.regs ++ s.others) };
}

impl<'a> ResourceRows<'a> {
    /// Those of the node n.
    pub(crate) fn new(bound: &'a Bound, n: u32, node: &'a BoundNode) -> ResourceRows<'a>
        ensures { result ≡ entry_facts n (path_at bound.now.tree.nodes n) node.now }
    {
        let regs = regs_of(node);
        ResourceRows {
            reg_count: count_row(bound, n, "_REG_NUM", regs.len()),
            regs: RegRows::new(bound, n, regs),
            others: RangeIrqRows::new(bound, n, ranges_of(node), irqs_of(node)),
        }
    }

    /// Puts the next definition into `fact`; false exactly where none is left.
    pub(crate) fn next(&mut self, fact: &mut Fact<'a>) -> bool
        ensures { MatchBool result (self.old ≡ fact.new ∷ self.new) ((self.old ≡ [])
            × (self.new ≡ [])) }
    {
        if self.reg_count.next(fact) {
            return true;
        }
        if self.regs.next(fact) {
            return true;
        }
        self.others.next(fact)
    }
}

// How many there are.
fn count_row<'a>(bound: &'a Bound, n: u32, mark: &'static str, count: usize) -> Single<'a>
    ensures { result
        ≡ plain n (path_at bound.now.tree.nodes n) (lit mark.now ∷ []) (num count ∷ []) ∷ [] }
{
    Single::new(
        bound,
        Some(number(n, At::Itself, Ending::Mark(mark), count as u128)),
    )
}

fn regs_of(node: &BoundNode) -> &[Reg]
    ensures { result.now ≡ node.now.regs }
{
    node.regs.as_slice()
}

fn ranges_of(node: &BoundNode) -> &[Range]
    ensures { result.now ≡ node.now.ranges }
{
    node.ranges.as_slice()
}

fn irqs_of(node: &BoundNode) -> &[Irq]
    ensures { result.now ≡ node.now.irqs }
{
    node.irqs.as_slice()
}
