//! The library of binding files.

ghost use Rattle.std.specs.Prelude.{◌≡◌, ◌<◌, [], IfOk, IfSome, OnErr, OnOk, length, true};
ghost use Rattle.std.specs.Option.{option_map};
ghost use Rattle.bind_merge.specs.Listing.{read_files};
ghost use Rattle.bind_merge.specs.Loading.{IsFirstFault, IsLoaded, OnFault};
ghost use Rattle.bind_merge.specs.Matching.{find_in, is_bound};
ghost use Rattle.bind_merge.specs.Merging.{IsMerged};
ghost use Rattle.bind_merge.specs.LibraryData.{levels_of};
ghost use Rattle.bind_merge.specs.Inner.Indexing.{IsIndexOf};
ghost use Rattle.bind_merge.specs.Inner.Steps.{bindings_at};

use crate::index::Index;
use crate::matching::{matching, numbers_of};
use crate::merging::Resolved;
use crate::names::Names;
use crate::reached::read_reached;
use crate::resolve::{none_each, resolve};
use crate::sound::{levels_at, test_all};
use crate::twins::index_of;
use crate::view::View;
use edt_base::{Bytes, End, FileNo, Text};
use std::alloc::{AllocError, Global};
use std::marker::Model;

/// The listed binding files, and what was loaded of them. In clauses it is the files and the
/// matching bindings of the last load, each with its merged levels.
#[derive(Debug, Drop)]
pub struct Library {
    files: Vec<(Text, Bytes)>,
    loaded: Option<Loaded>,
}

impl Model for Library {
    ghost use Rattle.std.specs.Prelude.{◌<◌, length};
    ghost use Rattle.std.specs.Coded.{codes};
    ghost use Rattle.bind_merge.specs.Codes.{coded_value};
    ghost use Rattle.bind_merge.specs.LibraryData.{LibData};

    ghost Value = { LibData };

    ghost coded = { Prim.hlevel (codes, coded_value) };

    ghost use Rattle.bind_merge.specs.Inner.Loaded.{IsKept, bindings_in};

    ghost view = { λ l. record { files = l.files.items; bindings = bindings_in l.loaded } };

    ghost invariant = { λ l. (length l.files.items < 4294967296) × IsKept l.files.items l.loaded };
}

/// The matching bindings of a load, and what was resolved of each file.
#[derive(Debug, Drop)]
struct Loaded {
    /// The files of the matching bindings, in list order.
    bindings: Vec<FileNo>,
    resolved: Vec<Option<Resolved>>,
    index: Index,
}

impl Library {
    /// A library of the listed files with their bytes, of which nothing is loaded. Takes no memory.
    pub fn new(files: Vec<(Text, Bytes)>) -> Library
        requires { length files.items < 4294967296 }
        ensures { result ≡ record { files = files.items; bindings = [] } }
    {
        Library {
            files,
            loaded: None,
        }
    }

    /// Loads the bindings of these compatible strings, with what they include (Zephyr 3.7,
    /// "Devicetree bindings syntax").
    ///
    /// # Errors
    ///
    /// `End::Fault` with the first broken rule, and only where one is broken; `End::Memory` where
    /// memory was wanted. After both nothing is loaded.
    pub fn load(&mut self, alloc: Global, compats: &Vec<Text>) -> Result<(), End>
        ensures files { self.new.files ≡ self.old.files }
        ensures loaded { OnOk result (IsLoaded self.old.files compats.now.items self.new.bindings) }
        ensures fault { OnFault result (IsFirstFault self.old.files compats.now.items) }
        ensures refused { OnErr result (self.new.bindings ≡ []) }
    {
        self.loaded = None;
        let loaded = load_files(alloc, self.files.as_slice(), compats.as_slice())?;
        self.loaded = Some(loaded);
        Ok(())
    }

    /// The file of the matching binding for a compatible string on a bus, or on none; None exactly
    /// where there is none. Takes no memory.
    pub fn find(&self, compat: &Text, bus: Option<&Text>) -> Option<FileNo>
        ensures found { result ≡ find_in self.now.files compat.now
            (option_map (λ t. t.now) bus.entry) self.now.bindings }
        ensures bound { IfSome result (λ file. is_bound self.now.bindings file ≡ true) }
    {
        match &self.loaded {
            Some(loaded) => loaded.index.find(compat, bus),
            None => None,
        }
    }

    /// The merged binding of a file that `find` gave since the last load. Takes no memory.
    pub fn view<'a>(&'a self, _alloc: Global, file: FileNo) -> Result<View<'a>, AllocError>
        requires { is_bound self.now.bindings file ≡ true }
        ensures levels { IfOk result (λ v. v ≡ levels_of self.now.bindings file) }
        ensures merged { IfOk result (IsMerged (read_files self.now.files) file) }
    {
        match &self.loaded {
            Some(loaded) => Ok(View::of(levels_at(loaded.resolved.as_slice(), file))),
            None => Ok(View::of(&[])),
        }
    }
}

// The three steps of loading.
fn load_files(alloc: Global, files: &[(Text, Bytes)], compats: &[Text]) -> Result<Loaded, End>
    requires { length files.now < 4294967296 }
    ensures loaded { IfOk result (λ l. IsLoaded files.now compats.now
        (bindings_at l.resolved.items l.bindings.items)) }
    ensures index { IfOk result (λ l. IsIndexOf files.now
        (bindings_at l.resolved.items l.bindings.items) l.index.groups.entries) }
    ensures fault { OnFault result (IsFirstFault files.now compats.now) }
{
    let mut reads = none_each(alloc, files.len())?;
    let matches = matching(alloc, files, compats, &mut reads)?;
    let bindings = numbers_of(alloc, matches.as_slice())?;
    let names = Names::of(alloc, files)?;
    read_reached(alloc, files, &names, bindings.as_slice(), &mut reads)?;
    let resolved = resolve(alloc, &names, reads.as_slice())?;
    test_all(
        alloc,
        files,
        &names,
        reads.as_slice(),
        resolved.as_slice(),
        bindings.as_slice(),
    )?;
    match index_of(alloc, files, matches.as_slice(), resolved.as_slice()) {
        Ok(index) => Ok(Loaded {
            bindings,
            resolved,
            index,
        }),
        Err(end) => Err(end),
    }
}
