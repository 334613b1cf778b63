//! A table of definitions.

ghost use Rattle.std.specs.Prelude.{◌≡◌, ◌++◌, ◌∷◌, [], ℕ, List, IfOk, IfErr, OnOk, OnErr, Some, None, option_map, is_some, length, ◌≤◌, take, true, false};
ghost use Rattle.c_macro.specs.Directive.{line_directive, broken_by, redefined, Follows, Known};
ghost use Rattle.c_macro.specs.Directive.{Define, Undefine};
ghost use Rattle.c_macro.specs.Reading.{directive_data};
ghost use Rattle.edt_base.specs.declared.fault.Rule.TheVariants.{C5};
ghost use Rattle.c_macro.specs.Table.{defs_of, is_locked, known_of};
ghost use Rattle.c_tokens.specs.Reading.{IfRule};
ghost use Rattle.std.specs.Map.{lookup};
ghost use Rattle.std.specs.Str.{bytes_eq};

use crate::def::Def;
use crate::directive::{Directive, line_directive};
use crate::ready::Ready;
use crate::same::same_macro;
use c_tokens::{CEnd, Line};
use edt_base::{Rule, Text};
use std::alloc::{AllocError, Global};
use std::collections::BTreeMap;
use std::marker::Model;

/// A definition and its number in the order in which definitions were made.
#[derive(Debug, Drop)]
struct Entry {
    ready: Ready,
    at: u64,
}

/// Definitions by their names (ISO C, 6.10.3). Contracts see them as `defs_of`, a map from names to
/// macros, and the locked names as `is_locked`. The table is ordered and not hashed, since names come
/// from the input.
#[derive(Drop)]
pub struct Defs {
    map: BTreeMap<Text, Entry>,
    /// How many definitions were made.
    count: u64,
    /// The definitions before this one are locked.
    locked: u64,
    alloc: Global,
}

impl Model for Defs {
    ghost use Rattle.c_macro.specs.Table.{Table, IsTable};

    ghost Value = { Table };

    ghost view = { λ d. record { entries = d.map.entries; locked = d.locked } };

    ghost invariant = { λ d. IsTable d.map.entries d.locked d.count };
}

/// The entry of a name.
fn entry_of<'a>(map: &'a BTreeMap<Text, Entry>, name: &Text) -> Option<&'a Entry>
    ensures { option_map (λ e. e.now) result ≡ lookup (bytes_eq name.now) map.now.entries }
{
    map.get(name)
}

impl Defs {
    /// No definitions. What they will take is taken from `alloc`; this call takes no memory.
    pub fn new(alloc: Global) -> Defs
        ensures { result ≡ record { entries = []; locked = 0 } }
    {
        Defs {
            map: BTreeMap::new(alloc),
            count: 0,
            locked: 0,
            alloc,
        }
    }

    /// The definition of a name; `None` exactly where it has none. Takes no memory.
    pub fn get(&self, name: &Text) -> Option<&Def>
        ensures { option_map (λ d. d.now) result ≡ defs_of self.now name.now }
    {
        match entry_of(&self.map, name) {
            None => None,
            Some(entry) => Some(entry.ready.def()),
        }
    }

    /// The macro of a name, ready for expansion.
    pub(crate) fn ready(&self, name: &Text) -> Option<&Ready>
        ensures { option_map (λ r. r.now) result ≡ defs_of self.now name.now }
    {
        match entry_of(&self.map, name) {
            None => None,
            Some(entry) => Some(&entry.ready),
        }
    }

    /// Locks the names that are defined so far: from here on they can't be undefined, and as every
    /// defined name they can't be defined otherwise. Takes no memory.
    pub fn lock(&mut self)
        ensures defs { (name : List ℕ) → defs_of self.new name ≡ defs_of self.old name }
        ensures locked { (name : List ℕ) → is_locked self.new name ≡ is_some (defs_of self.old name) }
    {
        self.locked = self.count;
    }
}

impl Defs {
    /// Does what a directive does.
    fn carry_out(&mut self, directive: Directive<'_>) -> Result<(), CEnd>
        ensures ok { OnOk result ((broken_by (known_of self.old) (Some (directive_data directive.entry)) ≡ None)
            × Follows (known_of self.old) (Some (directive_data directive.entry)) (known_of self.new)) }
        ensures err { IfErr result (λ e. IfRule e (λ r. broken_by (known_of self.old) (Some (directive_data directive.entry)) ≡ Some r)) }
        ensures same { OnErr result (self.new ≡ self.old) }
    {
        match directive {
            Directive::Nothing => Ok(()),
            Directive::Define(name, def) => self.define(name, def),
            Directive::Undefine(name) => self.undefine(name),
        }
    }

    /// Defines a name.
    fn define(&mut self, name: &Text, def: Def) -> Result<(), CEnd>
        ensures ok { OnOk result ((redefined (defs_of self.old name.now) def ≡ None)
            × Follows (known_of self.old) (Some (Define name.now def)) (known_of self.new)) }
        ensures err { IfErr result (λ e. IfRule e (λ r. redefined (defs_of self.old name.now) def ≡ Some r)) }
        ensures same { OnErr result (self.new ≡ self.old) }
    {
        let Some(old) = self.get(name) else {
            self.add(name, def)?;
            return Ok(());
        };
        if same_macro(old, &def) {
            return Ok(());
        }
        Err(CEnd::Rule(Rule::C5))
    }

    /// Defines a name that has no definition. The one error is want of memory, or of numbers for
    /// definitions, of which there are 2^64 - 1.
    fn add(&mut self, name: &Text, def: Def) -> Result<(), AllocError>
        requires { defs_of self.old name.now ≡ None }
        ensures ok { OnOk result (Follows (known_of self.old) (Some (Define name.now def)) (known_of self.new)) }
        ensures same { OnErr result (self.new ≡ self.old) }
    {
        if self.count == u64::MAX {
            return Err(AllocError);
        }
        let name = name.copy(self.alloc)?;
        let ready = Ready::of(self.alloc, def)?;
        let at = self.count;
        self.map.insert(name, Entry { ready, at })?;
        self.count += 1;
        Ok(())
    }

    fn is_locked(&self, name: &Text) -> bool
        ensures { result ≡ is_locked self.now name.now }
    {
        match entry_of(&self.map, name) {
            None => false,
            Some(entry) => entry.at < self.locked,
        }
    }

    /// Takes a name's definition away.
    fn undefine(&mut self, name: &Text) -> Result<(), CEnd>
        ensures ok { OnOk result ((is_locked self.old name.now ≡ false)
            × Follows (known_of self.old) (Some (Undefine name.now)) (known_of self.new)) }
        ensures err { IfErr result (λ e. IfRule e (λ r. (r ≡ C5) × (is_locked self.old name.now ≡ true))) }
        ensures same { OnErr result (self.new ≡ self.old) }
    {
        if self.is_locked(name) {
            return Err(CEnd::Rule(Rule::C5));
        }
        self.map.remove(name);
        Ok(())
    }

    /// Does what a line does: a `#define` or an `#undef`, and nothing for a blank line or an empty `#`.
    /// The rules are C6 at text, another directive or a malformed one, and C5 where a name is defined
    /// otherwise than it is, or a locked one undefined. After an error the table is as it was.
    pub fn apply(&mut self, line: &Line) -> Result<(), CEnd>
        ensures ok { OnOk result ((broken_by (known_of self.old) (line_directive line.now) ≡ None)
            × Follows (known_of self.old) (line_directive line.now) (known_of self.new)) }
        ensures err { IfErr result (λ e. IfRule e (λ r. broken_by (known_of self.old) (line_directive line.now) ≡ Some r)) }
        ensures same { OnErr result (self.new ≡ self.old) }
    {
        match line_directive(self.alloc, line)? {
            None => Err(CEnd::Rule(Rule::C6)),
            Some(directive) => self.carry_out(directive),
        }
    }
}
