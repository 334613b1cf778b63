//! What a binding says under one name: the settings of a property, or the names of a space's cells.

ghost use Rattle.std.specs.Prelude.{◌≡◌, IfOk, Some, false};
ghost use Rattle.std.specs.Option.{option_map};
ghost use Rattle.bind_load.specs.RecordSeen.{prop_of};
ghost use Rattle.bind_merge.specs.Levels.{prop_entry, space_entry};
ghost use Rattle.bind_merge.specs.Covering.{covers, covers_all};
ghost use Rattle.bind_merge.specs.Joining.{joined, inherited};
ghost use Rattle.bind_merge.specs.Looking.{bare};
ghost use Rattle.bind_merge.specs.Answering.{AgreesIf};

use crate::same::{agree_lists, agree_names, agree_texts, agree_truths, agree_types, agree_values};
use crate::shared::{
    SharedNames, SharedText, SharedValue, SharedValues, shared_text, shared_value, shared_values,
};
use bind_load::PropSpec;
use edt_base::{PropType, Text, Yaml};
use std::alloc::{AllocError, Global};
use std::marker::Model;
use std::rc::Rc;

/// The settings of a property, or the names of a space's cells. In clauses it is plain data.
#[derive(Debug, Drop)]
pub(crate) struct Settings {
    pub(crate) name: SharedText,
    pub(crate) ty: Option<PropType>,
    pub(crate) required: Option<bool>,
    pub(crate) deprecated: Option<bool>,
    pub(crate) default: Option<SharedValue>,
    pub(crate) constant: Option<SharedValue>,
    pub(crate) choices: Option<SharedValues>,
    pub(crate) space: Option<SharedText>,
    pub(crate) cells: Option<SharedNames>,
}

impl Model for Settings {
    ghost use Rattle.std.specs.Coded.{codes};
    ghost use Rattle.bind_merge.specs.Codes.{coded_value};
    ghost use Rattle.bind_merge.specs.Levels.{EntryData};

    ghost Value = { EntryData };

    ghost coded = { Prim.hlevel (codes, coded_value) };

    ghost view = { λ s. record {
      name = s.name;
      ty = s.ty;
      required = s.required;
      deprecated = s.deprecated;
      default = s.default;
      constant = s.constant;
      choices = s.choices;
      space = s.space;
      cells = s.cells;
    } };
}

/// The settings under one name, which several tables may share.
#[derive(Debug, Drop)]
pub(crate) struct Entry {
    settings: Rc<Settings>,
}

impl Model for Entry {
    ghost use Rattle.std.specs.Coded.{codes};
    ghost use Rattle.bind_merge.specs.Codes.{coded_value};
    ghost use Rattle.bind_merge.specs.Levels.{EntryData};

    ghost Value = { EntryData };

    ghost coded = { Prim.hlevel (codes, coded_value) };

    ghost view = { λ e. e.settings.value };
}

// The second has nothing that the first lacks.
fn covers<T>(a: &Option<T>, b: &Option<T>) -> bool
    ensures { result ≡ covers a.now b.now }
{
    a.is_some() || b.is_none()
}

impl Settings {
    // No setting has two values.
    #[tactic(auto, using(crate::proofs::Disagreeing::differs))]
    fn agrees(&self, other: &Settings) -> bool
        ensures { AgreesIf result self.now other.now }
    {
        if !agree_types(self.ty, other.ty) {
            return false;
        }
        if !agree_truths(self.required, other.required) {
            return false;
        }
        if !agree_truths(self.deprecated, other.deprecated) {
            return false;
        }
        if !agree_values(&self.default, &other.default) {
            return false;
        }
        if !agree_values(&self.constant, &other.constant) {
            return false;
        }
        if !agree_lists(&self.choices, &other.choices) {
            return false;
        }
        if !agree_texts(&self.space, &other.space) {
            return false;
        }
        if !agree_names(&self.cells, &other.cells) {
            return false;
        }
        true
    }

    // The other settings add nothing.
    fn has_all_of(&self, other: &Settings) -> bool
        ensures { result ≡ covers_all self.now other.now }
    {
        covers(&self.ty, &other.ty)
            && covers(&self.required, &other.required)
            && covers(&self.deprecated, &other.deprecated)
            && covers(&self.default, &other.default)
            && covers(&self.constant, &other.constant)
            && covers(&self.choices, &other.choices)
            && covers(&self.space, &other.space)
            && covers(&self.cells, &other.cells)
    }

    // The settings of both.
    fn joined(&self, other: &Settings) -> Result<Settings, AllocError>
        ensures { IfOk result (λ s. s ≡ joined self.now other.now) }
    {
        Ok(Settings {
            name: self.name.share()?,
            ty: self.ty.or(other.ty),
            required: self.required.or(other.required),
            deprecated: self.deprecated.or(other.deprecated),
            default: SharedValue::first(&self.default, &other.default)?,
            constant: SharedValue::first(&self.constant, &other.constant)?,
            choices: SharedValues::first(&self.choices, &other.choices)?,
            space: SharedText::first(&self.space, &other.space)?,
            cells: SharedNames::first(&self.cells, &other.cells)?,
        })
    }

    // What an including file takes of them: `required: false` stays behind.
    fn inherited(&self) -> Result<Settings, AllocError>
        requires { self.now.required ≡ Some false }
        ensures { IfOk result (λ s. s ≡ inherited self.now) }
    {
        Ok(Settings {
            name: self.name.share()?,
            ty: self.ty,
            required: None,
            deprecated: self.deprecated,
            default: SharedValue::again(&self.default)?,
            constant: SharedValue::again(&self.constant)?,
            choices: SharedValues::again(&self.choices)?,
            space: SharedText::again(&self.space)?,
            cells: SharedNames::again(&self.cells)?,
        })
    }
}

impl Settings {
    /// The names of a space's cells.
    pub(crate) fn cells(&self) -> Option<&Vec<Text>>
        ensures { option_map (λ v. v.now.items) result ≡ self.now.cells }
    {
        match &self.cells {
            Some(shared) => Some(shared.get()),
            None => None,
        }
    }
}

impl Entry {
    /// A property with its settings. The one error is want of memory, as in the other calls.
    pub(crate) fn of_prop(alloc: Global, name: Text, spec: PropSpec) -> Result<Entry, AllocError>
        ensures { IfOk result (λ e. e ≡ prop_entry (prop_of (name, spec))) }
    {
        let settings = Settings {
            name: SharedText::new(alloc, name)?,
            ty: spec.ty,
            required: spec.required,
            deprecated: spec.deprecated,
            default: shared_value(alloc, spec.default)?,
            constant: shared_value(alloc, spec.constant)?,
            choices: shared_values(alloc, spec.choices)?,
            space: shared_text(alloc, spec.space)?,
            cells: None,
        };
        Ok(Entry {
            settings: Rc::new(alloc, settings)?,
        })
    }

    /// A space with the names of its cells.
    pub(crate) fn of_space(
        alloc: Global,
        space: Text,
        cells: Vec<Text>,
    ) -> Result<Entry, AllocError>
        ensures { IfOk result (λ e. e ≡ space_entry (space, cells.items)) }
    {
        let settings = Settings {
            name: SharedText::new(alloc, space)?,
            ty: None,
            required: None,
            deprecated: None,
            default: None,
            constant: None,
            choices: None,
            space: None,
            cells: Some(SharedNames::new(alloc, cells)?),
        };
        Ok(Entry {
            settings: Rc::new(alloc, settings)?,
        })
    }

    /// A name, and nothing about it.
    pub(crate) fn of_name(alloc: Global, name: &Text) -> Result<Entry, AllocError>
        ensures { IfOk result (λ e. e ≡ bare name.now) }
    {
        let settings = Settings {
            name: SharedText::new(alloc, name.copy(alloc)?)?,
            ty: None,
            required: None,
            deprecated: None,
            default: None,
            constant: None,
            choices: None,
            space: None,
            cells: None,
        };
        Ok(Entry {
            settings: Rc::new(alloc, settings)?,
        })
    }

    /// The settings.
    pub(crate) fn settings(&self) -> &Settings
        ensures { result.now ≡ self.now }
    {
        self.settings.as_ref()
    }

    /// The name.
    pub(crate) fn name(&self) -> &Text
        ensures { result.now ≡ self.now.name }
    {
        self.settings().name.get()
    }

    /// The same entry once more.
    pub(crate) fn share(&self) -> Result<Entry, AllocError>
        ensures { IfOk result (λ e. e ≡ self.now) }
    {
        Ok(Entry {
            settings: self.settings.clone()?,
        })
    }

    /// What an including file takes of the entry.
    pub(crate) fn inherited(&self, alloc: Global) -> Result<Entry, AllocError>
        ensures { IfOk result (λ e. e ≡ inherited self.now) }
    {
        if self.settings().required != Some(false) {
            return self.share();
        }
        Ok(Entry {
            settings: Rc::new(alloc, self.settings().inherited()?)?,
        })
    }

    /// No setting has two values.
    pub(crate) fn agrees(&self, other: &Entry) -> bool
        ensures { AgreesIf result self.now other.now }
    {
        self.settings().agrees(other.settings())
    }

    /// The settings of both entries of one name.
    #[tactic(auto, using(crate::proofs::Covered::joined_covered))]
    pub(crate) fn joined(&self, alloc: Global, other: &Entry) -> Result<Entry, AllocError>
        ensures { IfOk result (λ e. e ≡ joined self.now other.now) }
    {
        if self.settings().has_all_of(other.settings()) {
            return self.share();
        }
        Ok(Entry {
            settings: Rc::new(alloc, self.settings().joined(other.settings())?)?,
        })
    }
}
