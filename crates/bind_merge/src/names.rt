//! The listed files by their base names.

ghost use Rattle.std.specs.Prelude.{◌≡◌, ◌<◌, IfOk, OnOk, length};
ghost use Rattle.bind_merge.specs.Files.{base_name};
ghost use Rattle.bind_merge.specs.Listing.{read_files};
ghost use Rattle.bind_merge.specs.Inner.Naming.{HasMore, one_more};
ghost use Rattle.bind_merge.specs.Inner.Resolving.{AreNames, named_in};

use edt_base::{Bytes, Text};
use std::alloc::{AllocError, Global};
use std::collections::BTreeMap;
use std::marker::Model;

/// The files of one base name.
#[derive(Clone, Copy, Debug, PartialEq, Eq)]
pub(crate) enum Named {
    /// The one file, by its place in the list.
    One(u32),
    Several,
}

/// The listed files by their base names.
#[derive(Debug, Drop)]
pub(crate) struct Names {
    files: BTreeMap<Text, Named>,
}

impl Model for Names {
    ghost use Rattle.bind_merge.specs.Inner.Resolving.{NameData};

    ghost Value = { NameData };

    ghost view = { λ n. n.files.entries };
}

// What stands after the last `/` of a name.
fn base_name(name: &str) -> &str
    ensures { result.now ≡ base_name name.now }
{
    match name.rsplit_once('/') {
        Some((_, base)) => base,
        None => name,
    }
}

// What a base name names, with a file more, behind those that it names.
fn one_more(before: Option<Named>, file: u32) -> Named
    ensures { result ≡ one_more before file }
{
    match before {
        Some(_) => Named::Several,
        None => Named::One(file),
    }
}

fn named_in(files: &BTreeMap<Text, Named>, base: &Text) -> Option<Named>
    ensures { result ≡ named_in files.now.entries base.now }
{
    files.get(base).copied()
}

// A file more. The one error is want of memory.
fn add(files: &mut BTreeMap<Text, Named>, base: Text, file: u32) -> Result<(), AllocError>
    ensures { OnOk result (HasMore files.old.entries base file files.new.entries) }
{
    let named = one_more(named_in(files, &base), file);
    files.insert(base, named)?;
    Ok(())
}

// The base name of a file's name. The one error is want of memory.
fn base_of(alloc: Global, name: &Text) -> Result<Text, AllocError>
    ensures { IfOk result (λ base. base ≡ base_name name.now) }
{
    let base = String::from_str(alloc, base_name(name.as_str()))?;
    Ok(Text::new(base))
}

impl Names {
    /// The names of the files. The one error is want of memory.
    pub(crate) fn of(alloc: Global, files: &[(Text, Bytes)]) -> Result<Names, AllocError>
        requires { length files.now < 4294967296 }
        ensures { IfOk result (AreNames (read_files files.now)) }
    {
        let mut names = BTreeMap::new(alloc);
        for number in 0..files.len() {
            let base = base_of(alloc, &files[number].0)?;
            add(&mut names, base, number as u32)?;
        }
        Ok(Names { files: names })
    }

    /// What a base name names; None exactly where it names no file.
    pub(crate) fn get(&self, base: &Text) -> Option<Named>
        ensures { result ≡ named_in self.now base.now }
    {
        named_in(&self.files, base)
    }
}
