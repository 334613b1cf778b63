//! Carries statements out.

ghost use Rattle.std.specs.Prelude.{◌≡◌, ◌++◌, ◌∷◌, [], Ok, IfOk, OnOk};
ghost use Rattle.dts_parse.specs.ActForm.{act_data};
ghost use Rattle.dts_parse.specs.declared.script.Act.TheVariants as act;
ghost use Rattle.dts_tree.specs.Inner.Machine.{reader_start, here_slot, noted, named_slot, looked_up, entering, opened, opening_slot, without, without_child, deleting_slot, noted_child, marking_slot, labelling, carried, carried_on, event, Steps, Finds};
ghost use Rattle.dts_tree.specs.Inner.Arena.{child_of};
ghost use Rattle.dts_tree.specs.declared.spot.Step.TheVariants as step;

use crate::arena::Arena;
use crate::labels::Labels;
use crate::stop::Stop;
use dts_parse::{Act, Stmt, Target};
use edt_base::Text;
use std::alloc::{AllocError, Global};
use std::marker::Model;

/// A statement with the slot that it speaks of.
#[derive(Drop)]
pub(crate) struct Event<'a> {
    pub(crate) slot: usize,
    pub(crate) act: &'a Act,
}

impl<'a> Model for Event<'a> {
    ghost use Rattle.dts_tree.specs.Inner.Machine.{EventData};
    ghost use Rattle.dts_parse.specs.ActForm.{act_data};

    ghost Value = { EventData };

    ghost view = { λ e. record { slot = e.slot; act = act_data e.act.now } };
}

/// What stands after some statements: the nodes and properties, the statements that speak of them in
/// order, where labels were put, and the open nodes, the innermost last.
#[derive(Drop)]
pub(crate) struct Reader<'a> {
    pub(crate) arena: Arena,
    pub(crate) events: Vec<Event<'a>>,
    pub(crate) labels: Labels,
    within: Vec<usize>,
}

impl<'a> Model for Reader<'a> {
    ghost use Rattle.dts_tree.specs.Inner.Machine.{ReaderData};

    ghost Value = { ReaderData };

    ghost view = { λ r. record { arena = r.arena; events = r.events.items; labels = r.labels; within = r.within.items } };
}

impl<'a> Reader<'a> {
    /// Before the first statement.
    pub(crate) fn new(alloc: Global) -> Result<Reader<'a>, AllocError>
        ensures { IfOk result (λ r. r ≡ reader_start) }
    {
        Ok(Reader {
            arena: Arena::new(alloc)?,
            events: Vec::new(alloc),
            labels: Labels::new(alloc),
            within: Vec::new(alloc),
        })
    }

    /// Carries out a source's statements.
    pub(crate) fn read(&mut self, alloc: Global, stmts: &'a [Stmt]) -> Result<(), Stop>
        ensures { Steps (carried_on (record self.old { within = [] }) stmts.now) self.new result }
    {
        self.within.clear();
        for stmt in stmts {
            self.take(alloc, stmt)?;
        }
        Ok(())
    }

    // Carries out a statement.
    fn take(&mut self, alloc: Global, stmt: &'a Stmt) -> Result<(), Stop>
        ensures { Steps (carried self.old stmt.now.at stmt.now.act) self.new result }
    {
        let act = &stmt.act;
        match act {
            Act::Open(target) => self.open(alloc, stmt.at, act, target),
            Act::Close => {
                let _ = self.within.pop();
                Ok(())
            }
            Act::Label(label) => Ok(self.label(alloc, act, label)?),
            Act::Assign(name, _) => Ok(self.assign(alloc, act, name)?),
            Act::DelProp(name) => Ok(self.delete_prop(alloc, name)?),
            Act::DelNode(target) => self.delete_node(alloc, stmt.at, target),
            Act::Omit(target) => self.mark(alloc, stmt.at, act, target),
        }
    }

    // The innermost open node; the root where none is open.
    fn here(&self) -> usize
        ensures { result ≡ here_slot self.now }
    {
        match self.within.as_slice().last() {
            Some(slot) => *slot,
            None => 0,
        }
    }

    fn note(&mut self, slot: usize, act: &'a Act) -> Result<(), AllocError>
        ensures { OnOk result (self.new ≡ noted self.old slot (act_data act.now)) }
    {
        self.events.push(Event { slot, act })?;
        Ok(())
    }

    // The node that a reference names.
    pub(crate) fn named(
        &mut self,
        alloc: Global,
        target: &Target,
    ) -> Result<Option<usize>, AllocError>
        ensures named { IfOk result (λ o. o ≡ named_slot self.old target.now) }
        ensures left { OnOk result (self.new ≡ looked_up self.old target.now) }
    {
        match target {
            Target::Root => Ok(Some(0)),
            Target::Child(_) => Ok(None),
            Target::ByLabel(label) => Ok(self.labels.find(&self.arena, label)),
            Target::ByPath(path) => self.arena.by_path(alloc, path),
        }
    }

    // The same, or the reference's byte where it names none.
    fn found(&mut self, alloc: Global, at: u64, target: &Target) -> Result<usize, Stop>
        ensures found { Finds (named_slot self.old target.now) at result }
        ensures left { OnOk result (self.new ≡ looked_up self.old target.now) }
    {
        match self.named(alloc, target)? {
            Some(slot) => Ok(slot),
            None => Err(Stop::Unnamed(at)),
        }
    }

    fn open(&mut self, alloc: Global, at: u64, act: &'a Act, target: &Target) -> Result<(), Stop>
        ensures { Steps (opening_slot self.old at (act_data act.now) target.now) self.new result }
    {
        match target {
            Target::Child(name) => self.open_child(alloc, act, name)?,
            _ => {
                let slot = self.found(alloc, at, target)?;
                self.note(slot, act)?;
                self.within.clear();
                self.within.push(slot)?;
            }
        }
        Ok(())
    }

    fn open_child(&mut self, alloc: Global, act: &'a Act, name: &Text) -> Result<(), AllocError>
        ensures { OnOk result (self.new ≡ opened self.old name.now (act_data act.now)) }
    {
        let here = self.here();
        let slot = self.arena.enter_child(alloc, here, name)?;
        self.note(slot, act)?;
        self.within.push(slot)?;
        Ok(())
    }

    fn label(&mut self, alloc: Global, act: &'a Act, label: &Text) -> Result<(), AllocError>
        ensures { OnOk result (self.new ≡ labelling self.old label.now (act_data act.now)) }
    {
        let here = self.here();
        self.labels.put(alloc, label, here)?;
        self.note(here, act)
    }

    fn assign(&mut self, alloc: Global, act: &'a Act, name: &Text) -> Result<(), AllocError>
        ensures { OnOk result (self.new ≡ entering self.old (step.Prop name.now)
            (act_data act.now)) }
    {
        let here = self.here();
        let slot = self.arena.enter_prop(alloc, here, name)?;
        self.note(slot, act)
    }

    fn delete_prop(&mut self, alloc: Global, name: &Text) -> Result<(), AllocError>
        ensures { OnOk result (self.new ≡ without_child self.old
            (child_of self.old.arena (here_slot self.old) (step.Prop name.now))) }
    {
        match self.arena.prop(self.here(), name) {
            Some(slot) => self.arena.remove(alloc, slot),
            None => Ok(()),
        }
    }

    fn delete_child(&mut self, alloc: Global, name: &Text) -> Result<(), AllocError>
        ensures { OnOk result (self.new ≡ without_child self.old
            (child_of self.old.arena (here_slot self.old) (step.Child name.now))) }
    {
        match self.arena.child(self.here(), name) {
            Some(slot) => self.arena.remove(alloc, slot),
            None => Ok(()),
        }
    }

    fn delete_node(&mut self, alloc: Global, at: u64, target: &Target) -> Result<(), Stop>
        ensures { Steps (deleting_slot self.old at target.now) self.new result }
    {
        match target {
            Target::Child(name) => self.delete_child(alloc, name)?,
            _ => {
                let slot = self.found(alloc, at, target)?;
                self.within.clear();
                self.delete(alloc, slot)?;
            }
        }
        Ok(())
    }

    // Takes a node away; all that was read where it is the root.
    fn delete(&mut self, alloc: Global, slot: usize) -> Result<(), AllocError>
        ensures { OnOk result (self.new ≡ without self.old slot) }
    {
        if slot == 0 {
            self.arena = Arena::new(alloc)?;
            self.events = Vec::new(alloc);
            self.labels = Labels::new(alloc);
            return Ok(());
        }
        self.arena.remove(alloc, slot)
    }

    fn mark_child(&mut self, act: &'a Act, name: &Text) -> Result<(), AllocError>
        ensures { OnOk result (self.new ≡ noted_child self.old
            (child_of self.old.arena (here_slot self.old) (step.Child name.now))
            (act_data act.now)) }
    {
        match self.arena.child(self.here(), name) {
            Some(slot) => self.note(slot, act),
            None => Ok(()),
        }
    }

    fn mark(&mut self, alloc: Global, at: u64, act: &'a Act, target: &Target) -> Result<(), Stop>
        ensures { Steps (marking_slot self.old at (act_data act.now) target.now) self.new result }
    {
        match target {
            Target::Child(name) => self.mark_child(act, name)?,
            _ => {
                let slot = self.found(alloc, at, target)?;
                self.within.clear();
                self.note(slot, act)?;
            }
        }
        Ok(())
    }
}
