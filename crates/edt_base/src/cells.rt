//! The cells of a property's value, read one after another from the bytes of its parts.

ghost use Rattle.std.specs.Prelude.{◌≡◌, ◌^◌, ◌≤◌, ◌<◌, ◌∷◌, [], true, false, IfOk, IfSome, MatchOption, length, take, drop};
ghost use Rattle.std.specs.Int.{from_be_bytes, w32};
ghost use Rattle.edt_base.specs.Cells.{cells_of};
ghost use Rattle.edt_base.specs.NodeData.{bytes_of};
ghost use Rattle.edt_base.specs.Values.{single_cell, value_cells};

use crate::{Part, PropVal};
use std::alloc::{AllocError, Global};
use std::marker::Model;

/// What is left of a value that is read cell by cell, whatever the kinds of its parts (Devicetree
/// Specification v0.4, 2.2.4). Contracts see its bytes.
#[derive(Drop)]
pub struct Cells<'a> {
    rest: &'a [u8],
    parts: &'a [Part],
}

impl<'a> Model for Cells<'a> {
    ghost use Rattle.std.specs.Prelude.{List, ℕ, ◌++◌};
    ghost use Rattle.edt_base.specs.NodeData.{bytes_of};

    ghost Value = { List ℕ };

    ghost view = { λ c. c.rest.now ++ bytes_of c.parts.now };
}

impl<'a> Cells<'a> {
    /// A whole value.
    pub fn of(parts: &'a [Part]) -> Cells<'a>
        ensures { result ≡ bytes_of parts.now }
    {
        Cells { rest: &[], parts }
    }

    /// The next byte; none at the end.
    fn byte(&mut self) -> Option<u8>
        ensures { MatchOption result ((self.old ≡ []) × (self.new ≡ []))
            (λ b. self.old ≡ b ∷ self.new) }
    {
        loop {
            if let Some((first, rest)) = self.rest.split_first() {
                self.rest = rest;
                return Some(*first);
            }
            let (part, parts) = self.parts.split_first()?;
            self.rest = part.bytes.as_slice();
            self.parts = parts;
        }
    }

    /// The next cell, four bytes, the big end first. None where fewer are left, which are then read
    /// too. Takes no memory.
    pub fn next(&mut self) -> Option<u32>
        ensures cell { MatchOption result ((length self.old < 4) × (self.new ≡ []))
            (λ c. (c ≡ from_be_bytes w32 (take 4 self.old)) × (self.new ≡ drop 4 self.old)
            × (4 ≤ length self.old)) }
        ensures cells { MatchOption result (cells_of self.old ≡ [])
            (λ c. cells_of self.old ≡ c ∷ cells_of self.new) }
        ensures bound { IfSome result (λ c. c < 2 ^ 32) }
    {
        Some(u32::from_be_bytes([self.byte()?, self.byte()?, self.byte()?, self.byte()?]))
    }

    /// Whether no byte is left, and so not even a part of a cell. Takes no memory.
    pub fn is_at_end(&self) -> bool
        ensures end { result ≡ true → self.now ≡ [] }
        ensures more { result ≡ false → 0 < length self.now }
    {
        self.ahead().byte().is_none()
    }

    /// Whether no further cell is left; there may be a rest of 1 to 3 bytes. Takes no memory.
    pub fn is_empty(&self) -> bool
        ensures empty { result ≡ true → cells_of self.now ≡ [] }
        ensures more { result ≡ false → 0 < length (cells_of self.now) }
    {
        self.ahead().next().is_none()
    }

    // The same, to look ahead.
    fn ahead(&self) -> Cells<'a>
        ensures { result ≡ self.now }
    {
        Cells {
            rest: self.rest,
            parts: self.parts,
        }
    }
}

impl PropVal {
    /// The value's cells, whatever the kinds of its parts; a rest of 1 to 3 bytes is no cell. The
    /// one error is want of memory.
    pub fn cells(&self, alloc: Global) -> Result<Vec<u32>, AllocError>
        ensures { IfOk result (λ v. v.items ≡ value_cells self.now) }
    {
        cells_left(alloc, Cells::of(self.parts.as_slice()))
    }

    /// The cell that the value is, whatever the kinds of its parts; None where it has another
    /// number of bytes than 4. Takes no memory.
    pub fn single_cell(&self) -> Option<u32>
        ensures { result ≡ single_cell self.now }
    {
        single_cell(self.parts.as_slice())
    }
}

fn cells_left(alloc: Global, cells: Cells<'_>) -> Result<Vec<u32>, AllocError>
    ensures { IfOk result (λ v. v.items ≡ cells_of cells.entry) }
{
    let mut cells = cells;
    let mut read = Vec::new(alloc);
    while let Some(cell) = cells.next() {
        read.push(cell)?;
    }
    Ok(read)
}

fn single_cell(parts: &[Part]) -> Option<u32>
    ensures { result ≡ single_cell parts.now }
{
    let mut cells = Cells::of(parts);
    let cell = cells.next()?;
    if cells.is_at_end() { Some(cell) } else { None }
}
