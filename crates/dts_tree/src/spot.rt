//! Steps from a node to what stands in it, and where they lead.

ghost use Rattle.std.specs.Prelude.{◌≡◌, OnOk, true, false};
ghost use Rattle.dts_tree.specs.Inner.Arena.{named, lead_of, with_lead, no_leads};
ghost use Rattle.dts_tree.specs.Places.{step_name};
ghost use Rattle.dts_tree.specs.Inner.Slots.{is_node};

use edt_base::Text;
use std::alloc::{AllocError, Global};
use std::collections::BTreeMap;
use std::marker::Model;

/// A step to a child or to a property of a node.
#[derive(Debug, Drop)]
pub enum Step {
    /// To the child of this name.
    Child(Text),
    /// To the property of this name.
    Prop(Text),
}

/// A node or a property that was begun: the slot of the node in which it stands, and the step from
/// there. The first spot is the root, whose step means nothing.
#[derive(Debug, Drop)]
pub struct Spot {
    pub(crate) step: Step,
    pub(crate) parent: usize,
}

impl Step {
    /// The name of what it leads to.
    pub(crate) fn name(&self) -> &Text
        ensures { result.now ≡ step_name self.now }
    {
        match self {
            Step::Child(name) | Step::Prop(name) => name,
        }
    }
}

/// The slots to which the steps from a node last led.
#[derive(Drop)]
pub(crate) struct Leads {
    children: BTreeMap<Text, usize>,
    props: BTreeMap<Text, usize>,
}

impl Model for Leads {
    ghost use Rattle.dts_tree.specs.Inner.Arena.{LeadsData};

    ghost Value = { LeadsData };

    ghost view = { λ l. record { children = l.children.entries; props = l.props.entries } };
}

impl Leads {
    /// No step was taken.
    pub(crate) fn new(alloc: Global) -> Leads
        ensures { result ≡ no_leads }
    {
        Leads {
            children: BTreeMap::new(alloc),
            props: BTreeMap::new(alloc),
        }
    }

    /// Where the step to a child leads.
    pub(crate) fn child(&self, name: &Text) -> Option<usize>
        ensures { result ≡ named name.now self.now.children }
    {
        self.children.get(name).copied()
    }

    /// Where the step to a property leads.
    pub(crate) fn prop(&self, name: &Text) -> Option<usize>
        ensures { result ≡ named name.now self.now.props }
    {
        self.props.get(name).copied()
    }

    /// A step now leads to this slot.
    pub(crate) fn put(&mut self, alloc: Global, step: &Step, slot: usize) -> Result<(), AllocError>
        ensures { OnOk result (self.new ≡ with_lead self.old step.now slot) }
    {
        match step {
            Step::Child(name) => {
                self.children.insert(name.copy(alloc)?, slot)?;
            }
            Step::Prop(name) => {
                self.props.insert(name.copy(alloc)?, slot)?;
            }
        }
        Ok(())
    }
}

impl Spot {
    /// Whether it is a node.
    pub(crate) fn is_child(&self) -> bool
        ensures { result ≡ is_node self.now }
    {
        match &self.step {
            Step::Child(_) => true,
            Step::Prop(_) => false,
        }
    }
}
