//! The matching bindings by compatible string and bus.

ghost use Rattle.std.specs.Prelude.{◌≡◌, [], ℕ, List, IfOk, OnOk, Option, Some, false};
ghost use Rattle.std.specs.Prelude.{if◌then◌else◌};
ghost use Rattle.std.specs.Map.{lookup};
ghost use Rattle.std.specs.Option.{option_map};
ghost use Rattle.std.specs.Str.{bytes_eq};
ghost use Rattle.bind_merge.specs.Matching.{is_same};
ghost use Rattle.bind_merge.specs.Inner.Indexing.{HasPair, in_group, in_index};

use edt_base::{FileNo, Text};
use std::alloc::{AllocError, Global};
use std::collections::BTreeMap;

/// The bindings for one compatible string: the one for no bus, and those for buses.
#[derive(Debug, Drop)]
pub(crate) struct Group {
    alone: Option<FileNo>,
    on_buses: BTreeMap<Text, FileNo>,
}

/// The files of bindings by compatible string and bus.
#[derive(Debug, Drop)]
pub(crate) struct Index {
    groups: BTreeMap<Text, Group>,
}

fn on_bus(on_buses: &BTreeMap<Text, FileNo>, bus: &Text) -> Option<FileNo>
    ensures { result ≡ lookup (bytes_eq bus.now) on_buses.now.entries }
{
    on_buses.get(bus).copied()
}

// The file that a group has for a bus, or for none.
fn in_group(group: &Group, bus: Option<&Text>) -> Option<FileNo>
    ensures { result ≡ in_group group.now (option_map (λ t. t.now) bus.entry) }
{
    match bus {
        Some(bus) => on_bus(&group.on_buses, bus),
        None => group.alone,
    }
}

// The file for a compatible string on a bus, or on none.
fn in_groups(groups: &BTreeMap<Text, Group>, compat: &Text, bus: Option<&Text>) -> Option<FileNo>
    ensures { result ≡ in_index groups.now.entries compat.now (option_map (λ t. t.now) bus.entry) }
{
    match groups.get(compat) {
        Some(group) => in_group(group, bus),
        None => None,
    }
}

// Sets the file of a bus. The one error is want of memory, as in the functions below.
fn set_bus(on_buses: &mut BTreeMap<Text, FileNo>, bus: Text, file: FileNo) -> Result<(), AllocError>
    ensures { OnOk result ((q : List ℕ) → lookup (bytes_eq q) on_buses.new.entries
        ≡ (if bytes_eq bus q then Some file else lookup (bytes_eq q) on_buses.old.entries)) }
{
    on_buses.insert(bus, file)?;
    Ok(())
}

// A group with the file of a bus, or of none, set.
fn with_file(group: Group, bus: Option<Text>, file: FileNo) -> Result<Group, AllocError>
    ensures { IfOk result (λ g. (r : Option (List ℕ))
        → in_group g r ≡ (if is_same bus r then Some file else in_group group r)) }
{
    let Group {
        alone,
        mut on_buses,
    } = group;
    match bus {
        Some(bus) => {
            set_bus(&mut on_buses, bus, file)?;
            Ok(Group { alone, on_buses })
        }
        None => Ok(Group {
            alone: Some(file),
            on_buses,
        }),
    }
}

// Takes the group of a compatible string out, or a new one.
fn take_group(alloc: Global, groups: &mut BTreeMap<Text, Group>, compat: &Text) -> Group
    ensures group { (r : Option (List ℕ)) → in_group result r
        ≡ in_index groups.old.entries compat.now r }
    ensures others { (q : List ℕ) → bytes_eq compat.now q ≡ false
        → lookup (bytes_eq q) groups.new.entries ≡ lookup (bytes_eq q) groups.old.entries }
{
    match groups.remove(compat) {
        Some(group) => group,
        None => Group {
            alone: None,
            on_buses: BTreeMap::new(alloc),
        },
    }
}

// Sets the group of a compatible string.
fn put_group(
    groups: &mut BTreeMap<Text, Group>,
    compat: Text,
    group: Group,
) -> Result<(), AllocError>
    ensures { OnOk result ((q : List ℕ) → lookup (bytes_eq q) groups.new.entries
        ≡ (if bytes_eq compat q then Some group else lookup (bytes_eq q) groups.old.entries)) }
{
    groups.insert(compat, group)?;
    Ok(())
}

// Sets the file for a compatible string on a bus, or on none.
fn add(
    alloc: Global,
    groups: &mut BTreeMap<Text, Group>,
    compat: Text,
    bus: Option<Text>,
    file: FileNo,
) -> Result<(), AllocError>
    ensures { OnOk result (HasPair groups.old.entries compat bus file groups.new.entries) }
{
    let group = take_group(alloc, groups, &compat);
    let group = with_file(group, bus, file)?;
    put_group(groups, compat, group)?;
    Ok(())
}

impl Index {
    /// No bindings.
    pub(crate) fn new(alloc: Global) -> Index
        ensures { result.groups.entries ≡ [] }
    {
        Index {
            groups: BTreeMap::new(alloc),
        }
    }

    /// The file for a compatible string on a bus, or on none; None exactly where there is none.
    pub(crate) fn find(&self, compat: &Text, bus: Option<&Text>) -> Option<FileNo>
        ensures { result ≡ in_index self.now.groups.entries compat.now
            (option_map (λ t. t.now) bus.entry) }
    {
        in_groups(&self.groups, compat, bus)
    }

    /// Sets the file for a compatible string on a bus, or on none. The one error is want of memory.
    pub(crate) fn add(
        &mut self,
        alloc: Global,
        compat: Text,
        bus: Option<Text>,
        file: FileNo,
    ) -> Result<(), AllocError>
        ensures { OnOk result (HasPair self.old.groups.entries compat bus file
            self.new.groups.entries) }
    {
        add(alloc, &mut self.groups, compat, bus, file)?;
        Ok(())
    }
}
