//! The definitions on interrupts and on the entries of a phandle-array: each with its cells, by its
//! place and by its name.

ghost use Rattle.std.specs.Prelude.{◌≡◌, ◌∷◌, ◌++◌, [], Some, codes, option_map, MatchBool};
ghost use Rattle.std.specs.List.{flat_map};
ghost use Rattle.std.specs.Option.{option_map_or};
ghost use Rattle.edt_base.specs.Nodes.{path_at};
ghost use Rattle.dt_names.specs.Facts.{cell_facts, irq_lines, irq_facts, pha_lines, pha_facts};
ghost use Rattle.dt_names.specs.Pieces.{lit, form};
ghost use Rattle.dt_names.specs.Inner.Rows.{at_pieces};

use crate::fact::{Fact, Single};
use crate::row::{At, Body, Ending};
use crate::rows::{number, of_cell, plain};
use crate::word::Name;
use edt_base::{Bound, Entry, Irq, Text};
use std::marker::Model;

/// The definitions on the cells of an entry that are left: of each its value, and that it is there.
#[derive(Drop)]
pub(crate) struct CellRows<'a> {
    bound: &'a Bound,
    owner: u32,
    at: At<'a>,
    exists: Single<'a>,
    narrow: &'a [(Text, u32)],
    wide: &'a [(Text, u64)],
}

impl<'a> Model for CellRows<'a> {
    ghost use Rattle.std.specs.Prelude.{◌++◌, List};
    ghost use Rattle.std.specs.List.{flat_map};
    ghost use Rattle.edt_base.specs.Nodes.{path_at};
    ghost use Rattle.dt_names.specs.Facts.{FactData, cell_facts};
    ghost use Rattle.dt_names.specs.Inner.Rows.{at_pieces};

    ghost Value = { List FactData };

    ghost view = { λ s. s.exists
        ++ (flat_map (cell_facts s.owner (path_at s.bound.now.tree.nodes s.owner) (at_pieces s.at))
        s.narrow.now
        ++ flat_map (cell_facts s.owner (path_at s.bound.now.tree.nodes s.owner) (at_pieces s.at))
        s.wide.now) };
}

impl<'a> CellRows<'a> {
    /// Of no cells.
    fn none(bound: &'a Bound) -> CellRows<'a>
        ensures { result ≡ [] }
    {
        CellRows {
            bound,
            owner: 0,
            at: At::Itself,
            exists: Single::new(bound, None),
            narrow: &[],
            wide: &[],
        }
    }

    /// Of an entry's cells.
    fn narrow(bound: &'a Bound, n: u32, at: At<'a>, cells: &'a [(Text, u32)]) -> CellRows<'a>
        ensures { result
            ≡ flat_map (cell_facts n (path_at bound.now.tree.nodes n) (at_pieces at.entry))
            cells.now }
    {
        CellRows {
            bound,
            owner: n,
            at,
            exists: Single::new(bound, None),
            narrow: cells,
            wide: &[],
        }
    }

    /// Of an interrupt's cells.
    fn wide(bound: &'a Bound, n: u32, at: At<'a>, cells: &'a [(Text, u64)]) -> CellRows<'a>
        ensures { result
            ≡ flat_map (cell_facts n (path_at bound.now.tree.nodes n) (at_pieces at.entry))
            cells.now }
    {
        CellRows {
            bound,
            owner: n,
            at,
            exists: Single::new(bound, None),
            narrow: &[],
            wide: cells,
        }
    }

    /// Puts the next definition into `fact`; false exactly where none is left.
    fn next(&mut self, fact: &mut Fact<'a>) -> bool
        ensures { MatchBool result (self.old ≡ fact.new ∷ self.new) ((self.old ≡ [])
            × (self.new ≡ [])) }
    {
        if self.exists.next(fact) {
            return true;
        }
        let bound = self.bound;
        if let Some((cell, rest)) = self.narrow.split_first() {
            let name = cell.0.as_str().as_bytes();
            let value = of_cell(
                self.owner,
                self.at,
                Ending::Word("_VAL_", name),
                cell.1 as u128,
            );
            let exists = of_cell(
                self.owner,
                self.at,
                Ending::Between("_VAL_", name, "_EXISTS"),
                1,
            );
            self.narrow = rest;
            self.exists = Single::new(bound, Some(exists));
            *fact = Fact::new(bound, value);
            return true;
        }
        let Some((cell, rest)) = self.wide.split_first() else {
            return false;
        };
        let name = cell.0.as_str().as_bytes();
        let value = of_cell(
            self.owner,
            self.at,
            Ending::Word("_VAL_", name),
            cell.1 as u128,
        );
        let exists = of_cell(
            self.owner,
            self.at,
            Ending::Between("_VAL_", name, "_EXISTS"),
            1,
        );
        self.wide = rest;
        self.exists = Single::new(bound, Some(exists));
        *fact = Fact::new(bound, value);
        true
    }
}

/// The definitions on an entry, by its place or by its name, that are left.
#[derive(Drop)]
pub(crate) struct EntryLines<'a> {
    exists: Single<'a>,
    controller: Single<'a>,
    cells: CellRows<'a>,
}

impl<'a> Model for EntryLines<'a> {
    ghost use Rattle.std.specs.Prelude.{◌++◌, List};
    ghost use Rattle.dt_names.specs.Facts.{FactData};

    ghost Value = { List FactData };

    ghost view = { λ s. s.exists ++ (s.controller ++ s.cells) };
}

impl<'a> EntryLines<'a> {
    /// Of no entry.
    fn none(bound: &'a Bound) -> EntryLines<'a>
        ensures { result ≡ [] }
    {
        EntryLines {
            exists: Single::new(bound, None),
            controller: Single::new(bound, None),
            cells: CellRows::none(bound),
        }
    }

    /// Of an interrupt.
    fn of_irq(bound: &'a Bound, n: u32, at: At<'a>, irq: &'a Irq) -> EntryLines<'a>
        ensures { result
            ≡ irq_lines n (path_at bound.now.tree.nodes n) (at_pieces at.entry) irq.now }
    {
        EntryLines {
            exists: Single::new(bound, Some(number(n, at, Ending::Mark("_EXISTS"), 1))),
            controller: Single::new(bound, None),
            cells: CellRows::wide(bound, n, at, irq.cells.as_slice()),
        }
    }

    /// Of an entry of a phandle-array.
    fn of_entry(bound: &'a Bound, n: u32, at: At<'a>, entry: &'a Entry) -> EntryLines<'a>
        ensures { result
            ≡ pha_lines bound.now.tree.nodes n (path_at bound.now.tree.nodes n)
            (at_pieces at.entry) entry.now }
    {
        let controller = Body::Id(entry.controller.0 as usize);
        EntryLines {
            exists: Single::new(bound, Some(number(n, at, Ending::Mark("_EXISTS"), 1))),
            controller: Single::new(bound, Some(plain(n, at, Ending::Mark("_PH"), controller))),
            cells: CellRows::narrow(bound, n, at, entry.cells.as_slice()),
        }
    }

    /// Puts the next definition into `fact`; false exactly where none is left.
    fn next(&mut self, fact: &mut Fact<'a>) -> bool
        ensures { MatchBool result (self.old ≡ fact.new ∷ self.new) ((self.old ≡ [])
            × (self.new ≡ [])) }
    {
        if self.exists.next(fact) {
            return true;
        }
        if self.controller.next(fact) {
            return true;
        }
        self.cells.next(fact)
    }
}

/// The definitions on an entry that are left: those by its place, then those by its name.
#[derive(Drop)]
pub(crate) struct EntryRows<'a> {
    indexed: EntryLines<'a>,
    named: EntryLines<'a>,
}

impl<'a> Model for EntryRows<'a> {
    ghost use Rattle.std.specs.Prelude.{◌++◌, List};
    ghost use Rattle.dt_names.specs.Facts.{FactData};

    ghost Value = { List FactData };

    ghost view = { λ s. s.indexed ++ s.named };
}

impl<'a> EntryRows<'a> {
    /// Of no entry.
    pub(crate) fn none(bound: &'a Bound) -> EntryRows<'a>
        ensures { result ≡ [] }
    {
        EntryRows {
            indexed: EntryLines::none(bound),
            named: EntryLines::none(bound),
        }
    }

    /// Of the interrupt i.
    pub(crate) fn of_irq(bound: &'a Bound, n: u32, i: usize, irq: &'a Irq) -> EntryRows<'a>
        ensures { result ≡ irq_facts n (path_at bound.now.tree.nodes n) i irq.now }
    {
        let indexed = EntryLines::of_irq(bound, n, At::Nth("_IRQ_IDX_", i), irq);
        match irq_name(irq) {
            Some(name) => {
                let at = At::Named("_IRQ_NAME_", Name::new(name));
                EntryRows {
                    indexed,
                    named: EntryLines::of_irq(bound, n, at, irq),
                }
            }
            None => EntryRows {
                indexed,
                named: EntryLines::none(bound),
            },
        }
    }

    /// Of the entry i of a property.
    pub(crate) fn of_entry(
        bound: &'a Bound,
        n: u32,
        prop: Name<'a>,
        i: usize,
        entry: &'a Entry,
    ) -> EntryRows<'a>
        ensures { result
            ≡ pha_facts bound.now.tree.nodes n (path_at bound.now.tree.nodes n) prop.entry.text.now
            i (Some entry.now) }
    {
        let indexed = EntryLines::of_entry(bound, n, At::Elem(prop, i), entry);
        match &entry.name {
            Some(name) => {
                let at = At::Entry(prop, Name::new(name.as_str().as_bytes()));
                EntryRows {
                    indexed,
                    named: EntryLines::of_entry(bound, n, at, entry),
                }
            }
            None => EntryRows {
                indexed,
                named: EntryLines::none(bound),
            },
        }
    }

    /// Puts the next definition into `fact`; false exactly where none is left.
    pub(crate) fn next(&mut self, fact: &mut Fact<'a>) -> bool
        ensures { MatchBool result (self.old ≡ fact.new ∷ self.new) ((self.old ≡ [])
            × (self.new ≡ [])) }
    {
        if self.indexed.next(fact) {
            return true;
        }
        self.named.next(fact)
    }
}

// The name of an interrupt, where it has one.
fn irq_name(irq: &Irq) -> Option<&[u8]>
    ensures { option_map (λ m. m.now) result ≡ irq.now.name }
{
    match &irq.name {
        Some(name) => Some(name.as_str().as_bytes()),
        None => None,
    }
}
