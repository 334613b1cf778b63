//! A merged binding, as a borrow of the library.

ghost use Rattle.std.specs.Prelude.{◌≡◌, IfOk, Some, map};
ghost use Rattle.std.specs.Option.{option_map};
ghost use Rattle.edt_base.specs.YamlData.{value_of};
ghost use Rattle.bind_merge.specs.Checks.{is_yes};
ghost use Rattle.bind_merge.specs.Levels.{EntryData};
ghost use Rattle.bind_merge.specs.Ordered.{IsInOrder};
ghost use Rattle.bind_merge.specs.ViewData.{AreTyped, bus_in, buses_in, cells_in, child_in};
ghost use Rattle.bind_merge.specs.ViewData.{names_in, prop_in};

use crate::checks::is_yes;
use crate::entry::{Entry, Settings};
use crate::level::Level;
use crate::lookup::look;
use edt_base::{PropType, Text, Yaml};
use std::alloc::{AllocError, Global};
use std::marker::Model;

/// A merged binding, or the child-binding some steps down in one. It borrows from the library and
/// owns no copy. In clauses it is the list of its levels, its own level first.
#[derive(Debug, Drop)]
pub struct View<'a> {
    levels: &'a [Level],
}

impl<'a> Model for View<'a> {
    ghost use Rattle.std.specs.Prelude.{List};
    ghost use Rattle.std.specs.Coded.{codes};
    ghost use Rattle.bind_merge.specs.Codes.{coded_value};
    ghost use Rattle.bind_merge.specs.Levels.{LevelTable};
    ghost use Rattle.bind_merge.specs.Ordered.{IsInOrder};
    ghost use Rattle.bind_merge.specs.ViewData.{AreTyped};

    ghost Value = { List LevelTable };

    ghost coded = { Prim.hlevel (codes, coded_value) };

    ghost view = { λ v. v.levels.now };

    ghost invariant = { λ v. IsInOrder v.levels.now × AreTyped v.levels.now };
}

/// A property of a merged binding. In clauses it is its settings.
#[derive(Debug, Drop)]
pub struct PropView<'a> {
    ty: PropType,
    settings: &'a Settings,
}

impl<'a> Model for PropView<'a> {
    ghost use Rattle.std.specs.Prelude.{◌≡◌, Some};
    ghost use Rattle.std.specs.Coded.{codes};
    ghost use Rattle.bind_merge.specs.Codes.{coded_value};
    ghost use Rattle.bind_merge.specs.Levels.{EntryData};

    ghost Value = { EntryData };

    ghost coded = { Prim.hlevel (codes, coded_value) };

    ghost view = { λ p. p.settings.now };

    ghost invariant = { λ p. p.settings.now.ty ≡ Some p.ty };
}

impl<'a> View<'a> {
    /// The view of a merged binding's levels.
    pub(crate) fn of(levels: &'a [Level]) -> View<'a>
        requires in_order { IsInOrder levels.now }
        requires typed { AreTyped levels.now }
        ensures { result ≡ levels.now }
    {
        View { levels }
    }

    /// The view of the child-binding; None exactly where the merged binding has none. It takes no
    /// memory.
    pub fn child(&self, _alloc: Global) -> Result<Option<View<'a>>, AllocError>
        ensures { IfOk result (λ child. child ≡ child_in self.now) }
    {
        let Some((_, levels)) = self.levels.split_first() else {
            return Ok(None);
        };
        if levels.is_empty() {
            return Ok(None);
        }
        Ok(Some(View { levels }))
    }

    /// The names of the declared properties, in byte order. The one error is want of memory.
    pub fn names(&self, alloc: Global) -> Result<Vec<&'a Text>, AllocError>
        ensures { IfOk result (λ names. map (λ n. n.now) names.items ≡ names_in self.now) }
    {
        let Some(top) = self.levels.first() else {
            return Ok(Vec::new(alloc));
        };
        let names = names_of(alloc, top.props.as_slice())?;
        Ok(names)
    }

    /// The property of this name; None exactly where the merged binding declares none. Takes no
    /// memory, as the calls below.
    pub fn prop(&self, name: &Text) -> Option<PropView<'a>>
        ensures { result ≡ prop_in name.now self.now }
    {
        let top = self.levels.first()?;
        let settings = look(top.props.as_slice(), name)?.settings();
        Some(PropView {
            ty: settings.ty?,
            settings,
        })
    }

    /// The names of the cells of a space; None exactly where the merged binding has none.
    pub fn cells(&self, space: &Text) -> Option<&'a Vec<Text>>
        ensures { option_map (λ v. v.now.items) result ≡ cells_in space.now self.now }
    {
        let top = self.levels.first()?;
        look(top.spaces.as_slice(), space)?.settings().cells()
    }

    /// The buses that the node's children are on; None exactly where the merged binding has none.
    pub fn buses(&self) -> Option<&'a Vec<Text>>
        ensures { option_map (λ v. v.now.items) result ≡ buses_in self.now }
    {
        let top = self.levels.first()?;
        match &top.buses {
            Some(shared) => Some(shared.get()),
            None => None,
        }
    }

    /// The bus that the node is on; None exactly where the merged binding has none.
    pub fn on_bus(&self) -> Option<&'a Text>
        ensures { option_map (λ t. t.now) result ≡ bus_in self.now }
    {
        let top = self.levels.first()?;
        match &top.on_bus {
            Some(shared) => Some(shared.get()),
            None => None,
        }
    }
}

// The names of entries. The one error is want of memory.
fn names_of<'a>(alloc: Global, entries: &'a [Entry]) -> Result<Vec<&'a Text>, AllocError>
    ensures { IfOk result (λ v. map (λ n. n.now) v.items ≡ map
        (λ (e : EntryData). e.name) entries.now) }
{
    let mut names = Vec::with_capacity(alloc, entries.len())?;
    for entry in entries {
        names.push(entry.name())?;
    }
    Ok(names)
}

impl<'a> PropView<'a> {
    /// Its type.
    pub fn ty(&self) -> PropType
        ensures { Some result ≡ self.now.ty }
    {
        self.ty
    }

    /// Whether an okay node has to have the property.
    pub fn required(&self) -> bool
        ensures { result ≡ is_yes self.now.required }
    {
        let settings = self.settings;
        is_yes(settings.required)
    }

    /// Its `default`; None exactly where it has none, and so of the calls below.
    pub fn default(&self) -> Option<&'a Yaml>
        ensures { option_map (λ y. value_of y.now) result ≡ self.now.default }
    {
        let settings = self.settings;
        match &settings.default {
            Some(shared) => Some(shared.get()),
            None => None,
        }
    }

    /// Its `const`.
    pub fn constant(&self) -> Option<&'a Yaml>
        ensures { option_map (λ y. value_of y.now) result ≡ self.now.constant }
    {
        let settings = self.settings;
        match &settings.constant {
            Some(shared) => Some(shared.get()),
            None => None,
        }
    }

    /// Its `enum`.
    pub fn choices(&self) -> Option<&'a Vec<Yaml>>
        ensures { option_map (λ v. map value_of v.now.items) result ≡ self.now.choices }
    {
        let settings = self.settings;
        match &settings.choices {
            Some(shared) => Some(shared.get()),
            None => None,
        }
    }

    /// Its `specifier-space`.
    pub fn space(&self) -> Option<&'a Text>
        ensures { option_map (λ t. t.now) result ≡ self.now.space }
    {
        let settings = self.settings;
        match &settings.space {
            Some(shared) => Some(shared.get()),
            None => None,
        }
    }
}
