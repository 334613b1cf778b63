//! What a binding says at one level.

ghost use Rattle.std.specs.Prelude.{◌≡◌, IfOk};
ghost use Rattle.bind_merge.specs.Adding.{top_filter};
ghost use Rattle.bind_merge.specs.Answering.{LevelOr};
ghost use Rattle.bind_merge.specs.Filtering.{filters_of};
ghost use Rattle.bind_merge.specs.Joining.{passed, passed_props};

use crate::entries::{inherited, joined};
use crate::entry::Entry;
use crate::lookup::kept;
use crate::same::{agree_names, agree_texts};
use crate::shared::{SharedNames, SharedText};
use bind_load::Filter;
use std::alloc::{AllocError, Global};
use std::marker::Model;

/// A level of a binding, with its entries in byte order of their names. In clauses it is plain
/// data.
#[derive(Debug, Drop)]
pub(crate) struct Level {
    pub(crate) described: bool,
    pub(crate) buses: Option<SharedNames>,
    pub(crate) on_bus: Option<SharedText>,
    pub(crate) spaces: Vec<Entry>,
    pub(crate) props: Vec<Entry>,
}

impl Model for Level {
    ghost use Rattle.std.specs.Coded.{codes};
    ghost use Rattle.bind_merge.specs.Codes.{coded_value};
    ghost use Rattle.bind_merge.specs.Levels.{LevelTable};

    ghost Value = { LevelTable };

    ghost coded = { Prim.hlevel (codes, coded_value) };

    ghost view = { λ l. record {
      described = l.described;
      buses = l.buses;
      on_bus = l.on_bus;
      spaces = l.spaces.items;
      props = l.props.items;
    } };
}

// What an including file takes of the properties that a level of its filter lets through.
fn passed_props(
    alloc: Global,
    props: &[Entry],
    filter: Option<&Filter>,
) -> Result<Vec<Entry>, AllocError>
    ensures { IfOk result (λ v. v.items ≡ passed_props
        (top_filter (filters_of filter.entry)) props.now) }
{
    let Some(filter) = filter else {
        let all = inherited(alloc, props)?;
        return Ok(all);
    };
    let allowed = kept(alloc, props, &filter.allow, true)?;
    let unblocked = kept(alloc, allowed.as_slice(), &filter.block, false)?;
    let all = inherited(alloc, unblocked.as_slice())?;
    Ok(all)
}

impl Level {
    /// What an include hands on of the level, by this level of its filter. The one error is want of
    /// memory, as in the other call.
    pub(crate) fn passed(&self, alloc: Global, filter: Option<&Filter>) -> Result<Level, AllocError>
        ensures { IfOk result (λ l. l ≡ passed (top_filter (filters_of filter.entry)) self.now) }
    {
        Ok(Level {
            described: self.described,
            buses: SharedNames::again(&self.buses)?,
            on_bus: SharedText::again(&self.on_bus)?,
            spaces: inherited(alloc, self.spaces.as_slice())?,
            props: passed_props(alloc, self.props.as_slice(), filter)?,
        })
    }

    /// What two levels say, as one; None exactly where they say two values of one key.
    pub(crate) fn joined(&self, alloc: Global, other: &Level) -> Result<Option<Level>, AllocError>
        ensures { IfOk result (λ l. LevelOr self.now other.now l) }
    {
        if !agree_names(&self.buses, &other.buses) {
            return Ok(None);
        }
        if !agree_texts(&self.on_bus, &other.on_bus) {
            return Ok(None);
        }
        let Some(spaces) = joined(alloc, self.spaces.as_slice(), other.spaces.as_slice())? else {
            return Ok(None);
        };
        let Some(props) = joined(alloc, self.props.as_slice(), other.props.as_slice())? else {
            return Ok(None);
        };
        Ok(Some(Level {
            described: self.described || other.described,
            buses: SharedNames::first(&self.buses, &other.buses)?,
            on_bus: SharedText::first(&self.on_bus, &other.on_bus)?,
            spaces,
            props,
        }))
    }
}
