//! Values of a record that the tables of several files share.

ghost use Rattle.std.specs.Prelude.{◌≡◌, IfOk, map};
ghost use Rattle.std.specs.Option.{option_map};
ghost use Rattle.edt_base.specs.YamlData.{value_of};
ghost use Rattle.bind_merge.specs.Options.{or_else};

use edt_base::{Text, Yaml};
use std::alloc::{AllocError, Global};
use std::marker::Model;
use std::rc::Rc;

/// A text that several tables share.
#[derive(Debug, Drop)]
pub(crate) struct SharedText {
    inner: Rc<Text>,
}

impl Model for SharedText {
    ghost use Rattle.std.specs.Prelude.{List, ℕ};

    ghost Value = { List ℕ };

    ghost view = { λ s. s.inner.value };
}

impl SharedText {
    /// Takes it over. The one error is want of memory.
    pub(crate) fn new(alloc: Global, text: Text) -> Result<SharedText, AllocError>
        ensures { IfOk result (λ s. s ≡ text) }
    {
        Ok(SharedText {
            inner: Rc::new(alloc, text)?,
        })
    }

    /// What is shared.
    pub(crate) fn get(&self) -> &Text
        ensures { result.now ≡ self.now }
    {
        self.inner.as_ref()
    }

    /// The same once more. The one error is want of memory.
    pub(crate) fn share(&self) -> Result<SharedText, AllocError>
        ensures { IfOk result (λ s. s ≡ self.now) }
    {
        Ok(SharedText {
            inner: self.inner.clone()?,
        })
    }

    /// The first of two, where there are some. The one error is want of memory.
    pub(crate) fn first(
        a: &Option<SharedText>,
        b: &Option<SharedText>,
    ) -> Result<Option<SharedText>, AllocError>
        ensures { IfOk result (λ s. s ≡ or_else a.now b.now) }
    {
        match a {
            Some(shared) => Ok(Some(shared.share()?)),
            None => SharedText::again(b),
        }
    }

    /// The same once more, where there is some. The one error is want of memory.
    pub(crate) fn again(a: &Option<SharedText>) -> Result<Option<SharedText>, AllocError>
        ensures { IfOk result (λ s. s ≡ a.now) }
    {
        match a {
            Some(shared) => Ok(Some(shared.share()?)),
            None => Ok(None),
        }
    }
}

/// A list of names that several tables share.
#[derive(Debug, Drop)]
pub(crate) struct SharedNames {
    inner: Rc<Vec<Text>>,
}

impl Model for SharedNames {
    ghost use Rattle.std.specs.Prelude.{List, ℕ};

    ghost Value = { List (List ℕ) };

    ghost view = { λ s. s.inner.value.items };
}

impl SharedNames {
    /// Takes it over. The one error is want of memory.
    pub(crate) fn new(alloc: Global, names: Vec<Text>) -> Result<SharedNames, AllocError>
        ensures { IfOk result (λ s. s ≡ names.items) }
    {
        Ok(SharedNames {
            inner: Rc::new(alloc, names)?,
        })
    }

    /// What is shared.
    pub(crate) fn get(&self) -> &Vec<Text>
        ensures { result.now.items ≡ self.now }
    {
        self.inner.as_ref()
    }

    /// The same once more. The one error is want of memory.
    pub(crate) fn share(&self) -> Result<SharedNames, AllocError>
        ensures { IfOk result (λ s. s ≡ self.now) }
    {
        Ok(SharedNames {
            inner: self.inner.clone()?,
        })
    }

    /// The first of two, where there are some. The one error is want of memory.
    pub(crate) fn first(
        a: &Option<SharedNames>,
        b: &Option<SharedNames>,
    ) -> Result<Option<SharedNames>, AllocError>
        ensures { IfOk result (λ s. s ≡ or_else a.now b.now) }
    {
        match a {
            Some(shared) => Ok(Some(shared.share()?)),
            None => SharedNames::again(b),
        }
    }

    /// The same once more, where there is some. The one error is want of memory.
    pub(crate) fn again(a: &Option<SharedNames>) -> Result<Option<SharedNames>, AllocError>
        ensures { IfOk result (λ s. s ≡ a.now) }
    {
        match a {
            Some(shared) => Ok(Some(shared.share()?)),
            None => Ok(None),
        }
    }
}

/// A value that several tables share.
#[derive(Debug, Drop)]
pub(crate) struct SharedValue {
    inner: Rc<Yaml>,
}

impl Model for SharedValue {
    ghost use Rattle.edt_base.specs.YamlData.{value_of};
    ghost use Rattle.bind_merge.specs.Codes.{YamlValue, coded_value};

    ghost Value = { YamlValue };

    ghost coded = { coded_value };

    ghost view = { λ s. value_of s.inner.value };
}

impl SharedValue {
    /// Takes it over. The one error is want of memory.
    pub(crate) fn new(alloc: Global, value: Yaml) -> Result<SharedValue, AllocError>
        ensures { IfOk result (λ s. s ≡ value_of value) }
    {
        Ok(SharedValue {
            inner: Rc::new(alloc, value)?,
        })
    }

    /// What is shared.
    pub(crate) fn get(&self) -> &Yaml
        ensures { value_of result.now ≡ self.now }
    {
        self.inner.as_ref()
    }

    /// The same once more. The one error is want of memory.
    pub(crate) fn share(&self) -> Result<SharedValue, AllocError>
        ensures { IfOk result (λ s. s ≡ self.now) }
    {
        Ok(SharedValue {
            inner: self.inner.clone()?,
        })
    }

    /// The first of two, where there are some. The one error is want of memory.
    pub(crate) fn first(
        a: &Option<SharedValue>,
        b: &Option<SharedValue>,
    ) -> Result<Option<SharedValue>, AllocError>
        ensures { IfOk result (λ s. s ≡ or_else a.now b.now) }
    {
        match a {
            Some(shared) => Ok(Some(shared.share()?)),
            None => SharedValue::again(b),
        }
    }

    /// The same once more, where there is some. The one error is want of memory.
    pub(crate) fn again(a: &Option<SharedValue>) -> Result<Option<SharedValue>, AllocError>
        ensures { IfOk result (λ s. s ≡ a.now) }
    {
        match a {
            Some(shared) => Ok(Some(shared.share()?)),
            None => Ok(None),
        }
    }
}

/// A list of values that several tables share.
#[derive(Debug, Drop)]
pub(crate) struct SharedValues {
    inner: Rc<Vec<Yaml>>,
}

impl Model for SharedValues {
    ghost use Rattle.std.specs.Prelude.{List, map};
    ghost use Rattle.std.specs.Coded.{coded_list};
    ghost use Rattle.edt_base.specs.YamlData.{value_of};
    ghost use Rattle.bind_merge.specs.Codes.{YamlValue, coded_value};

    ghost Value = { List YamlValue };

    ghost coded = { coded_list coded_value };

    ghost view = { λ s. map value_of s.inner.value.items };
}

impl SharedValues {
    /// Takes it over. The one error is want of memory.
    pub(crate) fn new(alloc: Global, values: Vec<Yaml>) -> Result<SharedValues, AllocError>
        ensures { IfOk result (λ s. s ≡ map value_of values.items) }
    {
        Ok(SharedValues {
            inner: Rc::new(alloc, values)?,
        })
    }

    /// What is shared.
    pub(crate) fn get(&self) -> &Vec<Yaml>
        ensures { map value_of result.now.items ≡ self.now }
    {
        self.inner.as_ref()
    }

    /// The same once more. The one error is want of memory.
    pub(crate) fn share(&self) -> Result<SharedValues, AllocError>
        ensures { IfOk result (λ s. s ≡ self.now) }
    {
        Ok(SharedValues {
            inner: self.inner.clone()?,
        })
    }

    /// The first of two, where there are some. The one error is want of memory.
    pub(crate) fn first(
        a: &Option<SharedValues>,
        b: &Option<SharedValues>,
    ) -> Result<Option<SharedValues>, AllocError>
        ensures { IfOk result (λ s. s ≡ or_else a.now b.now) }
    {
        match a {
            Some(shared) => Ok(Some(shared.share()?)),
            None => SharedValues::again(b),
        }
    }

    /// The same once more, where there is some. The one error is want of memory.
    pub(crate) fn again(a: &Option<SharedValues>) -> Result<Option<SharedValues>, AllocError>
        ensures { IfOk result (λ s. s ≡ a.now) }
    {
        match a {
            Some(shared) => Ok(Some(shared.share()?)),
            None => Ok(None),
        }
    }
}

/// A text, where there is one, taken over; and so of the functions below. The one error is want of
/// memory.
pub(crate) fn shared_text(
    alloc: Global,
    text: Option<Text>,
) -> Result<Option<SharedText>, AllocError>
    ensures { IfOk result (λ s. s ≡ text) }
{
    match text {
        Some(text) => Ok(Some(SharedText::new(alloc, text)?)),
        None => Ok(None),
    }
}

pub(crate) fn shared_names(
    alloc: Global,
    names: Option<Vec<Text>>,
) -> Result<Option<SharedNames>, AllocError>
    ensures { IfOk result (λ s. s ≡ option_map (λ v. v.items) names) }
{
    match names {
        Some(names) => Ok(Some(SharedNames::new(alloc, names)?)),
        None => Ok(None),
    }
}

pub(crate) fn shared_value(
    alloc: Global,
    value: Option<Yaml>,
) -> Result<Option<SharedValue>, AllocError>
    ensures { IfOk result (λ s. s ≡ option_map value_of value) }
{
    match value {
        Some(value) => Ok(Some(SharedValue::new(alloc, value)?)),
        None => Ok(None),
    }
}

pub(crate) fn shared_values(
    alloc: Global,
    values: Option<Vec<Yaml>>,
) -> Result<Option<SharedValues>, AllocError>
    ensures { IfOk result (λ s. s ≡ option_map (λ v. map value_of v.items) values) }
{
    match values {
        Some(values) => Ok(Some(SharedValues::new(alloc, values)?)),
        None => Ok(None),
    }
}
