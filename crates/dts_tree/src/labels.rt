//! Which nodes labels were put on.

ghost use Rattle.std.specs.Prelude.{◌≡◌, ◌∷◌, ◌++◌, [], OnOk, length};
ghost use Rattle.dts_tree.specs.Live.{last_of};
ghost use Rattle.dts_tree.specs.Inner.Arena.{named, with_name, pushed};
ghost use Rattle.dts_tree.specs.Inner.Machine.{with_label, no_labels, trimmed, alive_in, stack_of, labels_after};

use crate::arena::Arena;
use crate::slots::Slots;
use edt_base::Text;
use std::alloc::{AllocError, Global};
use std::collections::BTreeMap;
use std::marker::Model;

/// Of each label its number, and by number the slots that it was put on, in order. Slots that were
/// taken away may be left out.
#[derive(Drop)]
pub(crate) struct Labels {
    numbers: BTreeMap<Text, usize>,
    stacks: Vec<Slots>,
}

impl Model for Labels {
    ghost use Rattle.dts_tree.specs.Inner.Machine.{LabelsData};

    ghost Value = { LabelsData };

    ghost view = { λ l. record { numbers = l.numbers.entries; stacks = l.stacks.items } };
}

impl Labels {
    /// No label.
    pub(crate) fn new(alloc: Global) -> Labels
        ensures { result ≡ no_labels }
    {
        Labels {
            numbers: BTreeMap::new(alloc),
            stacks: Vec::new(alloc),
        }
    }

    /// A label is put on a node.
    pub(crate) fn put(&mut self, alloc: Global, label: &Text, slot: usize) -> Result<(), AllocError>
        ensures { OnOk result (self.new ≡ with_label self.old label.now slot) }
    {
        match self.number(label) {
            Some(number) => self.push_known(number, slot),
            None => self.push_new(alloc, label.copy(alloc)?, slot),
        }
    }

    /// By number the slots that a label was put on.
    pub(crate) fn stacks(&self) -> &[Slots]
        ensures { result.now ≡ self.now.stacks }
    {
        self.stacks.as_slice()
    }

    /// The label's number, if it has one.
    pub(crate) fn number(&self, label: &Text) -> Option<usize>
        ensures { result ≡ named label.now self.now.numbers }
    {
        self.numbers.get(label).copied()
    }

    fn push_known(&mut self, number: usize, slot: usize) -> Result<(), AllocError>
        ensures { OnOk result (self.new
            ≡ record self.old { stacks = pushed self.old.stacks number slot }) }
    {
        match self.stacks.get_mut(number) {
            Some(stack) => stack.push(slot),
            None => Ok(()),
        }
    }

    fn push_new(&mut self, alloc: Global, label: Text, slot: usize) -> Result<(), AllocError>
        ensures { OnOk result (self.new ≡ record {
          numbers = with_name self.old.numbers label (length self.old.stacks);
          stacks = self.old.stacks ++ (slot ∷ []) ∷ [];
        }) }
    {
        let number = self.stacks.len();
        let mut stack = Slots::new(alloc);
        stack.push(slot)?;
        self.numbers.insert(label, number)?;
        self.stacks.push(stack)?;
        Ok(())
    }

    /// The node that a label was last put on, of those that weren't taken away.
    pub(crate) fn find(&mut self, arena: &Arena, label: &Text) -> Option<usize>
        ensures found { result ≡ last_of (alive_in arena.now.gone (stack_of self.old label.now)) }
        ensures left { self.new ≡ labels_after arena.now.gone self.old label.now }
    {
        match self.number(label) {
            Some(number) => match self.stacks.get_mut(number) {
                Some(stack) => last_there(arena, stack),
                None => None,
            },
            None => None,
        }
    }
}

// The last slot that wasn't taken away; those behind it are dropped.
fn last_there(arena: &Arena, stack: &mut Slots) -> Option<usize>
    ensures found { result ≡ last_of (alive_in arena.now.gone stack.old) }
    ensures left { stack.new ≡ trimmed arena.now.gone stack.old }
{
    while let Some(slot) = stack.last() {
        if !arena.is_gone(slot) {
            return Some(slot);
        }
        stack.drop_last();
    }
    None
}
