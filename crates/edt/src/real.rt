//! The files and streams of the system. They tell no content: what a disk holds is trusted.

ghost use Rattle.std.specs.Prelude.{◌≤◌, None, IfOk, OnOk, length, vec_len};
ghost use Rattle.std.specs.List.Sorted.{IsSorted};
ghost use Rattle.std.specs.Ordering.{nat_cmp};
ghost use Rattle.std.specs.Cmp.Lexicographic.{slice_cmp};
ghost use Rattle.edt_base.specs.Outside.{AreBelow};

use edt_base::{Bytes, Files, ReadEnd, Sink, Text, WriteFailed, is_binding_below};
use std::alloc::{AllocError, Global};
use std::io::{Error, ErrorKind, Read, Write};
use std::{fs, rt};

/// How deep folders nest below the one that is listed.
const DEEPEST: u32 = 32;

/// The files of the disk; the name `-` is standard input.
#[derive(Drop)]
pub struct RealFiles<R> {
    rt: R,
    faults: u64,
}

/// A folder that is still to be listed, and how deep it nests.
#[derive(Drop)]
struct Folder {
    name: Text,
    depth: u32,
}

/// Why a step of a call of the files ended.
fn end_of(error: Error) -> ReadEnd {
    if error.kind() == ErrorKind::OutOfMemory {
        ReadEnd::Memory(AllocError)
    } else {
        ReadEnd::Failed
    }
}

/// Notes a name where it is that of a binding file.
fn note_name(dir: &Text, name: Text, names: &mut Vec<Text>) -> Result<(), AllocError>
    requires { AreBelow dir.now names.old.items }
    ensures { OnOk result (AreBelow dir.now names.new.items) }
{
    if is_binding_below(dir, &name) {
        names.push(name)?;
    }
    Ok(())
}

/// Reads a stream to its end, where it has at most so many bytes.
fn read_all(alloc: Global, stream: &mut impl Read, most: u64) -> Result<Bytes, ReadEnd>
    ensures { IfOk result (λ bytes. length bytes ≤ most) }
{
    let mut all = Vec::new(alloc);
    let mut block = [0u8; 65_536];
    for _ in 0..u64::MAX {
        match stream.read(&mut block) {
            Ok(0) => return Ok(Bytes::new(all)),
            Ok(count) if count as u64 > most - all.len() as u64 => return Err(ReadEnd::TooBig),
            Ok(count) => all.extend_from_slice(&block[..count])?,
            Err(e) if e.kind() == ErrorKind::Interrupted => {}
            Err(e) => return Err(end_of(e)),
        }
    }
    Err(ReadEnd::Failed)
}

impl<R: rt::Files + Input + AllocGlobal + Clone + Drop> RealFiles<R> {
    /// The files that a runtime reaches.
    pub fn new(rt: R) -> RealFiles<R> {
        RealFiles { rt, faults: 0 }
    }

    fn read_named(&self, alloc: Global, name: &Text, most: u64) -> Result<Bytes, ReadEnd>
        ensures { IfOk result (λ bytes. length bytes ≤ most) }
    {
        if name.as_str() == "-" {
            return read_all(alloc, &mut self.rt.reader(), most);
        }
        match fs::open(&self.rt, name.as_str()) {
            Ok(mut file) => read_all(alloc, &mut file, most),
            Err(e) => Err(end_of(e)),
        }
    }

    /// Goes through a folder: notes the folders in it, and the names of its binding files.
    fn list_one(
        &self,
        alloc: Global,
        dir: &Text,
        folder: &Folder,
        folders: &mut Vec<Folder>,
        names: &mut Vec<Text>,
    ) -> Result<(), ReadEnd>
        requires { AreBelow dir.now names.old.items }
        ensures { OnOk result (AreBelow dir.now names.new.items) }
    {
        if folder.depth > DEEPEST {
            return Err(ReadEnd::Failed);
        }
        let entries = fs::read_dir(&self.rt, folder.name.as_str()).map_err(end_of)?;
        for entry in entries {
            let entry = entry.map_err(end_of)?;
            let name = format!(in alloc; "{}/{}", folder.name.as_str(), entry.file_name())?;
            let name = Text::new(name);
            if entry.file_type().map_err(end_of)?.is_dir() {
                let depth = folder.depth + 1;
                folders.push(Folder { name, depth })?;
            } else {
                note_name(dir, name, names)?;
            }
        }
        Ok(())
    }

    fn list_all(&self, alloc: Global, dir: &Text, most: u32) -> Result<Vec<Text>, ReadEnd>
        ensures at_most { IfOk result (λ names. vec_len names ≤ most) }
        ensures in_order { IfOk result (λ names. IsSorted (slice_cmp nat_cmp) names.items) }
        ensures below { IfOk result (λ names. AreBelow dir.now names.items) }
    {
        let mut names = Vec::new(alloc);
        let mut folders = Vec::new(alloc);
        folders.push(Folder {
            name: dir.copy(alloc)?,
            depth: 0,
        })?;
        for _ in 0..u64::MAX {
            let Some(folder) = folders.pop() else {
                break;
            };
            self.list_one(alloc, dir, &folder, &mut folders, &mut names)?;
            if names.len() > most as usize {
                return Err(ReadEnd::TooBig);
            }
        }
        names.sort()?;
        Ok(names)
    }
}

impl<R: rt::Files + Input + AllocGlobal + Clone + Drop> Files for RealFiles<R> {
    ghost seen = { λ f. record { told = None; faults = f.faults } };

    fn list(&mut self, alloc: Global, dir: &Text, most: u32) -> Result<Vec<Text>, ReadEnd> {
        let listing = self.list_all(alloc, dir, most);
        if let Err(ReadEnd::Failed) = listing {
            self.faults = self.faults.saturating_add(1);
        }
        listing
    }

    fn read(&mut self, alloc: Global, name: &Text, most: u64) -> Result<Bytes, ReadEnd> {
        let bytes = self.read_named(alloc, name, most);
        if let Err(ReadEnd::Failed) = bytes {
            self.faults = self.faults.saturating_add(1);
        }
        bytes
    }
}

/// A stream to write to.
#[derive(Drop)]
pub struct RealOut<W> {
    stream: W,
    faults: u64,
}

impl<W: Write> RealOut<W> {
    /// A sink that writes to a stream.
    pub fn new(stream: W) -> RealOut<W> {
        RealOut { stream, faults: 0 }
    }
}

impl<W: Write> Sink for RealOut<W> {
    ghost seen = { λ s. record { bytes = None; faults = s.faults; room = 0 } };

    fn write(&mut self, piece: &[u8]) -> Result<u64, WriteFailed> {
        if piece.is_empty() {
            return Ok(0);
        }
        for _ in 0..u64::MAX {
            match self.stream.write(piece) {
                Ok(0) => break,
                Ok(count) => return Ok(count as u64),
                Err(e) if e.kind() == ErrorKind::Interrupted => {}
                Err(_) => break,
            }
        }
        self.faults = self.faults.saturating_add(1);
        Err(WriteFailed)
    }
}
