//! The definitions of a node on its registers and ranges.

ghost use Rattle.std.specs.Prelude.{◌≡◌, ◌∷◌, [], codes, MatchBool};
ghost use Rattle.std.specs.Option.{option_map_or};
ghost use Rattle.edt_base.specs.Nodes.{path_at};
ghost use Rattle.dt_names.specs.Facts.{each, reg_lines, reg_facts, range_facts, range_lines};
ghost use Rattle.dt_names.specs.Pieces.{lit, form};
ghost use Rattle.dt_names.specs.Inner.Rows.{at_pieces};

use crate::fact::{Fact, Queue};
use crate::row::{At, Ending};
use crate::rows::number;
use crate::word::Name;
use edt_base::{Bound, Range, Reg};
use std::marker::Model;

/// The definitions on a register that are left: those by its place, then those by its name.
#[derive(Drop)]
struct RegLines<'a> {
    indexed: Queue<'a>,
    named: Queue<'a>,
}

impl<'a> Model for RegLines<'a> {
    ghost use Rattle.std.specs.Prelude.{◌++◌, List};
    ghost use Rattle.dt_names.specs.Facts.{FactData};

    ghost Value = { List FactData };

    ghost view = { λ s. s.indexed ++ s.named };
}

impl<'a> RegLines<'a> {
    fn none(bound: &'a Bound) -> RegLines<'a>
        ensures { result ≡ [] }
    {
        RegLines {
            indexed: Queue::none(bound),
            named: Queue::none(bound),
        }
    }

    fn new(bound: &'a Bound, n: u32, i: usize, reg: &'a Reg) -> RegLines<'a>
        ensures { result ≡ reg_facts n (path_at bound.now.tree.nodes n) i reg.now }
    {
        RegLines {
            indexed: reg_lines(bound, n, At::Nth("_REG_IDX_", i), reg),
            named: named_lines(bound, n, reg),
        }
    }

    // Puts those of another register in the place of these. Apart from `next`, which needn't hold
    // room for them.
    #[inline(never)]
    fn begin(&mut self, bound: &'a Bound, n: u32, i: usize, reg: &'a Reg)
        ensures { self.new ≡ reg_facts n (path_at bound.now.tree.nodes n) i reg.now }
    {
        *self = RegLines::new(bound, n, i, reg);
    }

    fn next(&mut self, fact: &mut Fact<'a>) -> bool
        ensures { MatchBool result (self.old ≡ fact.new ∷ self.new) ((self.old ≡ [])
            × (self.new ≡ [])) }
    {
        if self.indexed.next(fact) {
            return true;
        }
        self.named.next(fact)
    }
}

/// The definitions on a node's registers that are left.
#[derive(Drop)]
pub(crate) struct RegRows<'a> {
    bound: &'a Bound,
    owner: u32,
    lines: RegLines<'a>,
    index: usize,
    all: &'a [Reg],
    rest: &'a [Reg],
}

impl<'a> Model for RegRows<'a> {
    ghost use Rattle.std.specs.Prelude.{◌≡◌, ◌+◌, ◌++◌, List, length};
    ghost use Rattle.edt_base.specs.Nodes.{path_at};
    ghost use Rattle.dt_names.specs.Facts.{FactData, each, reg_facts};

    ghost Value = { List FactData };

    ghost view = { λ s. s.lines ++ each
        (reg_facts s.owner (path_at s.bound.now.tree.nodes s.owner)) s.index s.rest.now };

    ghost invariant = { λ s. s.index + length s.rest.now ≡ length s.all.now };
}

impl<'a> RegRows<'a> {
    /// Those of the node n.
    pub(crate) fn new(bound: &'a Bound, n: u32, regs: &'a [Reg]) -> RegRows<'a>
        ensures { result ≡ each (reg_facts n (path_at bound.now.tree.nodes n)) 0 regs.now }
    {
        RegRows {
            bound,
            owner: n,
            lines: RegLines::none(bound),
            index: 0,
            all: regs,
            rest: regs,
        }
    }

    /// Puts the next definition into `fact`; false exactly where none is left.
    pub(crate) fn next(&mut self, fact: &mut Fact<'a>) -> bool
        ensures { MatchBool result (self.old ≡ fact.new ∷ self.new) ((self.old ≡ [])
            × (self.new ≡ [])) }
    {
        if self.lines.next(fact) {
            return true;
        }
        let count = self.all.len();
        let Some((reg, rest)) = self.rest.split_first() else {
            return false;
        };
        let holds = self.index < count;
        prove!(holds);
        self.lines.begin(self.bound, self.owner, self.index, reg);
        self.index += 1;
        self.rest = rest;
        self.lines.next(fact)
    }
}

// A register, by its place or its name.
fn reg_lines<'a>(bound: &'a Bound, n: u32, at: At<'a>, reg: &'a Reg) -> Queue<'a>
    ensures { result ≡ reg_lines n (path_at bound.now.tree.nodes n) (at_pieces at.entry) reg.now }
{
    let exists = number(n, at, Ending::Mark("_EXISTS"), 1);
    match (reg.addr, reg.size) {
        (Some(addr), Some(size)) => Queue::four(
            bound,
            Some(exists),
            Some(number(n, at, Ending::Mark("_VAL_ADDRESS"), addr)),
            Some(number(n, at, Ending::Mark("_VAL_SIZE"), size)),
            None,
        ),
        (Some(addr), None) => {
            let addr = number(n, at, Ending::Mark("_VAL_ADDRESS"), addr);
            Queue::four(bound, Some(exists), Some(addr), None, None)
        }
        (None, Some(size)) => {
            let size = number(n, at, Ending::Mark("_VAL_SIZE"), size);
            Queue::four(bound, Some(exists), Some(size), None, None)
        }
        (None, None) => Queue::four(bound, Some(exists), None, None, None),
    }
}

// A register by its name, where it has one.
fn named_lines<'a>(bound: &'a Bound, n: u32, reg: &'a Reg) -> Queue<'a>
    ensures { result ≡ option_map_or
        (λ m. reg_lines n (path_at bound.now.tree.nodes n) (lit (codes "_REG_NAME_") ∷ form m ∷ [])
        reg.now) reg.now.name [] }
{
    match &reg.name {
        Some(name) => {
            let name = Name::new(name.as_str().as_bytes());
            reg_lines(bound, n, At::Named("_REG_NAME_", name), reg)
        }
        None => Queue::none(bound),
    }
}

/// The definitions on a node's ranges that are left.
#[derive(Drop)]
pub(crate) struct RangeRows<'a> {
    bound: &'a Bound,
    owner: u32,
    indexed: Queue<'a>,
    index: usize,
    all: &'a [Range],
    rest: &'a [Range],
}

impl<'a> Model for RangeRows<'a> {
    ghost use Rattle.std.specs.Prelude.{◌≡◌, ◌+◌, ◌++◌, List, length};
    ghost use Rattle.edt_base.specs.Nodes.{path_at};
    ghost use Rattle.dt_names.specs.Facts.{FactData, each, range_facts};

    ghost Value = { List FactData };

    ghost view = { λ s. s.indexed ++ each
        (range_facts s.owner (path_at s.bound.now.tree.nodes s.owner)) s.index s.rest.now };

    ghost invariant = { λ s. s.index + length s.rest.now ≡ length s.all.now };
}

impl<'a> RangeRows<'a> {
    /// Those of the node n.
    pub(crate) fn new(bound: &'a Bound, n: u32, ranges: &'a [Range]) -> RangeRows<'a>
        ensures { result ≡ each (range_facts n (path_at bound.now.tree.nodes n)) 0 ranges.now }
    {
        RangeRows {
            bound,
            owner: n,
            indexed: Queue::none(bound),
            index: 0,
            all: ranges,
            rest: ranges,
        }
    }

    /// Puts the next definition into `fact`; false exactly where none is left.
    pub(crate) fn next(&mut self, fact: &mut Fact<'a>) -> bool
        ensures { MatchBool result (self.old ≡ fact.new ∷ self.new) ((self.old ≡ [])
            × (self.new ≡ [])) }
    {
        if self.indexed.next(fact) {
            return true;
        }
        let count = self.all.len();
        let Some((range, rest)) = self.rest.split_first() else {
            return false;
        };
        let holds = self.index < count;
        prove!(holds);
        begin_range(&mut self.indexed, self.bound, self.owner, self.index, range);
        self.index += 1;
        self.rest = rest;
        self.indexed.next(fact)
    }
}

// Puts the definitions on a range in the place of others. Apart from `next`, which needn't hold
// room for them.
#[inline(never)]
fn begin_range<'a>(rows: &mut Queue<'a>, bound: &'a Bound, n: u32, i: usize, range: &'a Range)
    ensures { rows.new ≡ range_facts n (path_at bound.now.tree.nodes n) i range.now }
{
    *rows = range_lines(bound, n, At::Nth("_RANGES_IDX_", i), range);
}

// A range, by its place.
fn range_lines<'a>(bound: &'a Bound, n: u32, at: At<'a>, range: &'a Range) -> Queue<'a>
    ensures { result
        ≡ range_lines n (path_at bound.now.tree.nodes n) (at_pieces at.entry) range.now }
{
    Queue::four(
        bound,
        Some(number(n, at, Ending::Mark("_EXISTS"), 1)),
        Some(number(n, at, Ending::Mark("_VAL_CHILD_BUS_ADDRESS"), range.child)),
        Some(number(n, at, Ending::Mark("_VAL_PARENT_BUS_ADDRESS"), range.parent)),
        Some(number(n, at, Ending::Mark("_VAL_LENGTH"), range.len)),
    )
}
