//! Macros made ready for expansion.

ghost use Rattle.std.specs.Prelude.{◌≡◌, IfOk, map, option_map};
ghost use Rattle.c_macro.specs.Bodies.{parts_of};
ghost use Rattle.c_macro.specs.Pending.{part_data};
ghost use Rattle.c_macro.specs.Needing.{NeedsOf, args_count};

use crate::def::Def;
use crate::needs::Needs;
use crate::part::{Part, parts};
use edt_base::Text;
use std::alloc::{AllocError, Global};
use std::marker::Model;

/// A macro with the parts of its body and what they need of arguments, which are found once. Contracts
/// see the macro.
#[derive(Debug, Drop)]
pub(crate) struct Ready {
    def: Def,
    parts: Vec<Part>,
    needs: Needs,
}

impl Model for Ready {
    ghost use Rattle.std.specs.Prelude.{map};
    ghost use Rattle.c_macro.specs.MacroData.{Macro};

    ghost Value = { Macro };

    ghost use Rattle.c_macro.specs.Pending.{part_data};
    ghost use Rattle.c_macro.specs.Needing.{IsReady};

    ghost view = { λ r. r.def };

    ghost invariant = { λ r. IsReady r.def (map part_data r.parts.items) r.needs };
}

/// The parts of a macro's body. The one error is want of memory.
fn parts_of(alloc: Global, def: &Def) -> Result<Vec<Part>, AllocError>
    ensures { IfOk result (λ v. map part_data v.items ≡ parts_of def.now def.now.params) }
{
    let body = def.body.as_slice();
    match &def.params {
        None => {
            let made = parts(alloc, false, &[], false, body)?;
            Ok(made)
        }
        Some(names) => {
            let made = parts(alloc, true, names.as_slice(), def.variadic, body)?;
            Ok(made)
        }
    }
}

/// How many arguments a macro has, the variable part included.
fn args_count(def: &Def) -> usize
    ensures { result ≡ args_count def.now }
{
    match &def.params {
        None => 0,
        Some(names) => {
            let count = names.as_slice().len();
            if def.variadic { count + 1 } else { count }
        }
    }
}

impl Ready {
    /// Makes a macro ready. The one error is want of memory.
    pub(crate) fn of(alloc: Global, def: Def) -> Result<Ready, AllocError>
        ensures { IfOk result (λ r. r ≡ def) }
    {
        let parts = parts_of(alloc, &def)?;
        let needs = Needs::of(alloc, parts.as_slice(), args_count(&def))?;
        Ok(Ready { def, parts, needs })
    }

    pub(crate) fn def(&self) -> &Def
        ensures { result.now ≡ self.now }
    {
        &self.def
    }

    /// The names of its parameters; `None` for an object-like macro.
    pub(crate) fn params(&self) -> Option<&[Text]>
        ensures { option_map (λ names. names.now) result ≡ self.now.params }
    {
        match &self.def.params {
            None => None,
            Some(names) => Some(names.as_slice()),
        }
    }

    pub(crate) fn is_variadic(&self) -> bool
        ensures { result ≡ self.now.variadic }
    {
        self.def.variadic
    }

    /// The parts of its body.
    pub(crate) fn parts(&self) -> &[Part]
        ensures { map part_data result.now ≡ parts_of self.now self.now.params }
    {
        self.parts.as_slice()
    }

    /// What its body needs of arguments.
    pub(crate) fn needs(&self) -> &Needs
        ensures { NeedsOf (parts_of self.now self.now.params) (args_count self.now) result.now }
    {
        &self.needs
    }
}
