//! What the nodes and properties have, once all statements are carried out.

ghost use Rattle.std.specs.Prelude.{◌≡◌, ◌++◌, ◌∷◌, [], IfOk, OnOk, map, replicate};
ghost use Rattle.dts_parse.specs.ActForm.{part_data};
ghost use Rattle.std.specs.List.{list_any};
ghost use Rattle.std.specs.Str.{bytes_eq};
ghost use Rattle.dts_tree.specs.Live.{with_new};
ghost use Rattle.dts_tree.specs.Inner.Grown.{no_grown, with_label_at, with_value_at, with_mark_at, with_act, grown_of, labels_at, value_at};

use crate::reader::{Event, Reader};
use dts_parse::{Act, RawPart};
use edt_base::Text;
use std::alloc::{AllocError, Global};
use std::collections::BTreeSet;
use std::marker::Model;

/// The parts of a property's value as they were written.
#[derive(Drop)]
pub(crate) struct Written<'a> {
    pub(crate) parts: &'a [RawPart],
}

impl<'a> Model for Written<'a> {
    ghost use Rattle.std.specs.Prelude.{List, map};
    ghost use Rattle.dts_parse.specs.StmtData.{PartData};
    ghost use Rattle.dts_parse.specs.ActForm.{part_data};

    ghost Value = { List PartData };

    ghost view = { λ w. map part_data w.parts.now };
}

/// Labels, each once. Contracts see the list of them.
#[derive(Drop)]
pub(crate) struct Names {
    list: Vec<Text>,
    seen: BTreeSet<Text>,
}

impl Model for Names {
    ghost use Rattle.std.specs.Prelude.{◌≡◌, List, ℕ};
    ghost use Rattle.std.specs.List.{list_any};
    ghost use Rattle.std.specs.Str.{bytes_eq};
    ghost use Rattle.std.specs.Ordering.{nat_cmp};
    ghost use Rattle.std.specs.Cmp.Lexicographic.{slice_cmp};
    ghost use Rattle.std.specs.BTreeSet.{contains};

    ghost Value = { List (List ℕ) };

    ghost view = { λ n. n.list.items };

    ghost invariant = { λ n. (k : List ℕ) → contains (slice_cmp nat_cmp) n.seen k ≡ list_any (bytes_eq k) n.list.items };
}

impl Names {
    /// No label.
    pub(crate) fn new(alloc: Global) -> Names
        ensures { result ≡ [] }
    {
        Names {
            list: Vec::new(alloc),
            seen: BTreeSet::new(alloc),
        }
    }

    /// One label more, where it isn't there.
    pub(crate) fn put(&mut self, alloc: Global, label: &Text) -> Result<(), AllocError>
        ensures { OnOk result (self.new ≡ with_new bytes_eq self.old label.now) }
    {
        if self.has(label) {
            return Ok(());
        }
        self.add(label.copy(alloc)?, label.copy(alloc)?)
    }

    fn add(&mut self, label: Text, same: Text) -> Result<(), AllocError>
        requires { same ≡ label }
        ensures { OnOk result (self.new ≡ self.old ++ label ∷ []) }
    {
        self.list.push(label)?;
        match self.seen.insert(same) {
            Ok(_) => Ok(()),
            Err(_) => {
                let _ = self.list.pop();
                Err(AllocError)
            }
        }
    }

    /// Whether the label is there.
    pub(crate) fn has(&self, label: &Text) -> bool
        ensures { result ≡ list_any (bytes_eq label.now) self.now }
    {
        self.seen.contains(label)
    }

    /// The labels.
    pub(crate) fn as_slice(&self) -> &[Text]
        ensures { result.now ≡ self.now }
    {
        self.list.as_slice()
    }
}

/// What each slot has: a property its last value, a node its labels and whether it is marked.
#[derive(Drop)]
pub(crate) struct Grown<'a> {
    values: Vec<Written<'a>>,
    marks: Vec<bool>,
    labels: Vec<Names>,
}

impl<'a> Model for Grown<'a> {
    ghost use Rattle.dts_tree.specs.Inner.Grown.{GrownData};

    ghost Value = { GrownData };

    ghost view = { λ g. record { values = g.values.items; marks = g.marks.items; labels = g.labels.items } };
}

impl<'a> Grown<'a> {
    /// What the statements left.
    pub(crate) fn new(alloc: Global, reader: &Reader<'a>) -> Result<Grown<'a>, AllocError>
        ensures { IfOk result (λ g. g ≡ grown_of reader.now) }
    {
        let mut grown = Grown::none(alloc, reader.arena.spots.len())?;
        for event in reader.events.as_slice() {
            if !reader.arena.is_gone(event.slot) {
                grown.take(alloc, event)?;
            }
        }
        Ok(grown)
    }

    fn none(alloc: Global, count: usize) -> Result<Grown<'a>, AllocError>
        ensures { IfOk result (λ g. g ≡ no_grown count) }
    {
        Ok(Grown {
            values: no_values(alloc, count)?,
            marks: vec![in alloc; false; count]?,
            labels: no_names(alloc, count)?,
        })
    }

    fn take(&mut self, alloc: Global, event: &Event<'a>) -> Result<(), AllocError>
        ensures { OnOk result (self.new ≡ with_act self.old event.now.slot event.now.act) }
    {
        match event.act {
            Act::Label(label) => self.label(alloc, event.slot, label),
            Act::Assign(_, parts) => {
                self.assign(event.slot, parts.as_slice());
                Ok(())
            }
            Act::Omit(_) => {
                self.mark(event.slot);
                Ok(())
            }
            Act::Open(_) | Act::Close | Act::DelProp(_) | Act::DelNode(_) => Ok(()),
        }
    }

    fn label(&mut self, alloc: Global, slot: usize, label: &Text) -> Result<(), AllocError>
        ensures { OnOk result (self.new ≡ with_label_at self.old slot label.now) }
    {
        match self.labels.get_mut(slot) {
            Some(names) => names.put(alloc, label),
            None => Ok(()),
        }
    }

    fn assign(&mut self, slot: usize, parts: &'a [RawPart])
        ensures { self.new ≡ with_value_at self.old slot (map part_data parts.now) }
    {
        match self.values.get_mut(slot) {
            Some(value) => *value = Written { parts },
            None => {}
        }
    }

    fn mark(&mut self, slot: usize)
        ensures { self.new ≡ with_mark_at self.old slot }
    {
        match self.marks.get_mut(slot) {
            Some(mark) => *mark = true,
            None => {}
        }
    }

    /// A property's value.
    pub(crate) fn value(&self, slot: usize) -> &'a [RawPart]
        ensures { map part_data result.now ≡ value_at self.now slot }
    {
        match self.values.get(slot) {
            Some(value) => value.parts,
            None => &[],
        }
    }

    /// A node's labels.
    pub(crate) fn labels(&self, slot: usize) -> &[Text]
        ensures { result.now ≡ labels_at self.now slot }
    {
        match self.labels.get(slot) {
            Some(names) => names.as_slice(),
            None => &[],
        }
    }

    /// Whether each slot is marked.
    pub(crate) fn marks(&self) -> &[bool]
        ensures { result.now ≡ self.now.marks }
    {
        self.marks.as_slice()
    }
}

fn no_values<'a>(alloc: Global, count: usize) -> Result<Vec<Written<'a>>, AllocError>
    ensures { IfOk result (λ v. v.items ≡ replicate count []) }
{
    let mut values = Vec::new(alloc);
    for _ in 0..count {
        values.push(Written { parts: &[] })?;
    }
    Ok(values)
}

fn no_names(alloc: Global, count: usize) -> Result<Vec<Names>, AllocError>
    ensures { IfOk result (λ v. v.items ≡ replicate count []) }
{
    let mut names = Vec::new(alloc);
    for _ in 0..count {
        names.push(Names::new(alloc))?;
    }
    Ok(names)
}
