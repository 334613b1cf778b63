//! The record of one file, level by level, with its values ready to be shared.

ghost use Rattle.std.specs.Prelude.{◌≡◌, ◌++◌, IfOk, OnOk, map};
ghost use Rattle.bind_load.specs.RecordSeen.{prop_of, record_of};
ghost use Rattle.bind_merge.specs.Answering.{TableOr};
ghost use Rattle.bind_merge.specs.Levels.{own_level, prop_entry, space_entry};

use crate::entries::sorted;
use crate::entry::Entry;
use crate::level::Level;
use crate::shared::{SharedNames, SharedText, shared_names, shared_text};
use bind_load::{BindingRec, Include, PropSpec};
use edt_base::Text;
use std::alloc::{AllocError, Global};
use std::marker::Model;

/// A level of a file's record.
#[derive(Debug, Drop)]
pub(crate) struct OwnLevel {
    pub(crate) described: bool,
    pub(crate) buses: Option<SharedNames>,
    pub(crate) on_bus: Option<SharedText>,
    pub(crate) spaces: Vec<Entry>,
    pub(crate) props: Vec<Entry>,
    pub(crate) includes: Vec<Include>,
}

impl Model for OwnLevel {
    ghost use Rattle.std.specs.Prelude.{map};
    ghost use Rattle.std.specs.Coded.{codes};
    ghost use Rattle.bind_load.specs.RecordSeen.{include_of};
    ghost use Rattle.bind_merge.specs.Codes.{coded_value};
    ghost use Rattle.bind_merge.specs.Levels.{OwnData};

    ghost Value = { OwnData };

    ghost coded = { Prim.hlevel (codes, coded_value) };

    ghost view = { λ l. record {
      table = record {
        described = l.described;
        buses = l.buses;
        on_bus = l.on_bus;
        spaces = l.spaces.items;
        props = l.props.items;
      };
      includes = map include_of l.includes.items;
    } };
}

/// The levels of a record, from the top down. The one error is want of memory, as in the functions
/// below.
pub(crate) fn own_levels(alloc: Global, rec: BindingRec) -> Result<Vec<OwnLevel>, AllocError>
    ensures { IfOk result (λ v. v.items ≡ map own_level (record_of rec)) }
{
    let mut levels = Vec::new(alloc);
    push_levels(alloc, &mut levels, rec)?;
    Ok(levels)
}

// The levels of a record, behind those that are there.
fn push_levels(alloc: Global, levels: &mut Vec<OwnLevel>, rec: BindingRec) -> Result<(), AllocError>
    ensures { OnOk result (levels.new.items ≡ levels.old.items ++ map own_level (record_of rec)) }
{
    let BindingRec {
        description,
        buses,
        on_bus,
        cells,
        includes,
        props: specs,
        child,
        ..
    } = rec;
    levels.push(OwnLevel {
        described: description.is_some(),
        buses: shared_names(alloc, buses)?,
        on_bus: shared_text(alloc, on_bus)?,
        spaces: spaces(alloc, cells)?,
        props: props(alloc, specs)?,
        includes,
    })?;
    match child {
        Some(child) => {
            push_levels(alloc, levels, Box::into_inner(child))?;
            Ok(())
        }
        None => Ok(()),
    }
}

fn spaces(alloc: Global, cells: Vec<(Text, Vec<Text>)>) -> Result<Vec<Entry>, AllocError>
    ensures { IfOk result (λ v. v.items ≡ map space_entry
        (map (λ e. (e.0, e.1.items)) cells.items)) }
{
    let mut entries = Vec::with_capacity(alloc, cells.len())?;
    for (space, names) in cells {
        entries.push(Entry::of_space(alloc, space, names)?)?;
    }
    Ok(entries)
}

fn props(alloc: Global, specs: Vec<(Text, PropSpec)>) -> Result<Vec<Entry>, AllocError>
    ensures { IfOk result (λ v. v.items ≡ map prop_entry (map prop_of specs.items)) }
{
    let mut entries = Vec::with_capacity(alloc, specs.len())?;
    for (name, spec) in specs {
        entries.push(Entry::of_prop(alloc, name, spec)?)?;
    }
    Ok(entries)
}

impl OwnLevel {
    /// What the level says, with its entries in order; None exactly where it says two values of one
    /// key.
    pub(crate) fn table(&self, alloc: Global) -> Result<Option<Level>, AllocError>
        ensures { IfOk result (λ t. TableOr self.now.table t) }
    {
        let Some(spaces) = sorted(alloc, self.spaces.as_slice())? else {
            return Ok(None);
        };
        let Some(props) = sorted(alloc, self.props.as_slice())? else {
            return Ok(None);
        };
        Ok(Some(Level {
            described: self.described,
            buses: SharedNames::again(&self.buses)?,
            on_bus: SharedText::again(&self.on_bus)?,
            spaces,
            props,
        }))
    }
}
