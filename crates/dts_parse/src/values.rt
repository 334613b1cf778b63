//! Values of properties: what a token makes of where one stands in them.

ghost use Rattle.std.specs.Prelude.{◌≡◌, ◌<◌, ◌%◌, ◌^◌, ◌++◌, ◌∷◌, [], Ok, Some, None, OnOk, suc, true, false};
ghost use Rattle.dts_parse.specs.ActForm.{part_data};
ghost use Rattle.dts_parse.specs.Fronts.{is_opening};
ghost use Rattle.dts_parse.specs.Inner.Machine.{assigned, at_colon, at_ref, at_width, behind_bits, behind_part, behind_width, closed_list, closed_pairs, in_cells, in_pairs, in_value, labelled, more_labels, put, waits_colon, with_part};
ghost use Rattle.dts_parse.specs.Inner.Shown.{Leaves, shown};
ghost use Rattle.dts_parse.specs.StmtData.{Plain, Path};
ghost use Rattle.dts_parse.specs.Texts.{element_bytes, fits, target_of, text_bytes, width_of};
ghost use Rattle.dts_parse.specs.Values.{bytes_with, cells_with, list_data, may_close, misfits};
ghost use Rattle.edt_base.specs.declared.node.Kind.TheVariants as kind;
ghost use Rattle.dts_parse.specs.declared.mode.Listing.TheVariants as listing;
ghost use Rattle.dts_parse.specs.declared.mode.Mode.TheVariants as mode;
ghost use Rattle.dts_parse.specs.declared.terminal.Terminal.TheVariants as terminal;

use crate::mode::{Breach, Listing, Mode, Stage};
use crate::parser::Parser;
use crate::script::{Act, RawCell, RawPart, Stmt};
use crate::stop::Stop;
use crate::targets::{target_of, text_of};
use crate::terminal::{Form, Terminal, Width};
use crate::texts::text_bytes;
use crate::token::Token;
use edt_base::{Bytes, Kind, Part};
use std::alloc::{AllocError, Global};
use std::mem;

/// Whether a value fits an element: as a number without a sign, or with one.
fn fits(width: Width, n: u64) -> bool
    ensures { result ≡ fits width n }
{
    match width {
        Width::Bits8 => n < 0x100 || n >= 0xffff_ffff_ffff_ff80,
        Width::Bits16 => n < 0x1_0000 || n >= 0xffff_ffff_ffff_8000,
        Width::Bits32 => n < 0x1_0000_0000 || n >= 0xffff_ffff_8000_0000,
        Width::Bits64 => true,
    }
}

/// An element has no value, or one that doesn't fit.
fn misfits(width: Width, huge: bool, worth: Option<u64>) -> bool
    ensures { result ≡ misfits width huge worth }
{
    match worth {
        None => true,
        Some(n) => huge || !fits(width, n),
    }
}

fn width_of(n: u64) -> Option<Width>
    ensures { result ≡ width_of n }
{
    match n {
        8 => Some(Width::Bits8),
        16 => Some(Width::Bits16),
        32 => Some(Width::Bits32),
        64 => Some(Width::Bits64),
        _ => None,
    }
}

fn may_close(listing: Listing) -> bool
    ensures { result ≡ may_close listing }
{
    match listing {
        Listing::Empty | Listing::Elements => true,
        Listing::Labels => false,
    }
}

fn more_labels(listing: Listing) -> Listing
    ensures { result ≡ more_labels listing }
{
    match listing {
        Listing::Empty => Listing::Labels,
        _ => listing,
    }
}

/// Where a label in a value leads.
fn labelled(mode: Mode) -> Mode
    ensures { result ≡ labelled mode }
{
    match mode {
        Mode::Cells(width, listing) => Mode::Cells(width, more_labels(listing)),
        Mode::Pairs(listing) => Mode::Pairs(more_labels(listing)),
        _ => mode,
    }
}

/// The part that a list is: bytes, cells or wide elements.
fn list_part(width: Width, cells: Vec<RawCell>, bytes: Vec<u8>) -> RawPart
    ensures { part_data result ≡ list_data width cells.items bytes.items }
{
    match width {
        Width::Bits8 => RawPart::Plain(Part {
            kind: Kind::Hex,
            bytes: Bytes::new(bytes),
        }),
        Width::Bits32 => RawPart::Cells(cells),
        Width::Bits16 | Width::Bits64 => RawPart::Plain(Part {
            kind: Kind::Wide,
            bytes: Bytes::new(bytes),
        }),
    }
}

/// Adds an element's bytes, where it is no cell.
fn push_bytes(bytes: &mut Vec<u8>, width: Width, n: u64) -> Result<(), AllocError>
    ensures { OnOk result (bytes.new.items ≡ bytes.old.items ++ element_bytes width n) }
{
    match width {
        Width::Bits8 => {
            bytes.push((n % 0x100) as u8)?;
            Ok(())
        }
        Width::Bits16 => bytes.extend_from_slice(&((n % 0x1_0000) as u16).to_be_bytes()),
        Width::Bits32 => Ok(()),
        Width::Bits64 => bytes.extend_from_slice(&n.to_be_bytes()),
    }
}

/// Adds an element's cell, where it is one.
fn push_cell(cells: &mut Vec<RawCell>, width: Width, n: u64) -> Result<(), AllocError>
    ensures { OnOk result (cells.new.items ≡ cells_with width (Some n) cells.old.items) }
{
    match width {
        Width::Bits32 => {
            cells.push(RawCell::Num((n % 0x1_0000_0000) as u32))?;
            Ok(())
        }
        _ => Ok(()),
    }
}

impl<'a> Parser<'a> {
    /// Where a part of a value may begin.
    pub(crate) fn in_value(&mut self, alloc: Global, token: &Token<'a>) -> Result<(), Stop>
        requires { is_opening false token.now.terminal ≡ true → (shown self.old).depth < 64 }
        ensures { Leaves (shown self.new) result
            (in_value (shown self.old) token.now.spot token.now.terminal) }
    {
        match token.terminal {
            Terminal::Str => self.at_text(alloc, token),
            Terminal::Ref => self.at_path(alloc, token),
            Terminal::Less => self.at_list(Width::Bits32),
            Terminal::LeftSquare => self.at_pairs(),
            Terminal::Bits => {
                self.mode = Mode::Bits;
                Ok(())
            }
            Terminal::Name(form) => self.waits_colon(form, token),
            _ => Err(Stop::Broken(Breach::S1, token.at)),
        }
    }

    fn at_text(&mut self, alloc: Global, token: &Token<'a>) -> Result<(), Stop>
        ensures { Leaves (shown self.new) result
            (in_value (shown self.old) token.now.spot terminal.Str) }
    {
        let bytes = text_bytes(alloc, token.text)?;
        self.with_part(RawPart::Plain(Part {
            kind: Kind::Str,
            bytes: Bytes::new(bytes),
        }))
    }

    fn at_path(&mut self, alloc: Global, token: &Token<'a>) -> Result<(), Stop>
        requires { token.now.terminal ≡ terminal.Ref }
        ensures { Leaves (shown self.new) result
            (in_value (shown self.old) token.now.spot terminal.Ref) }
    {
        let target = target_of(alloc, token)?;
        self.with_part(RawPart::Path(target))
    }

    fn with_part(&mut self, part: RawPart) -> Result<(), Stop>
        ensures { Leaves (shown self.new) result (with_part (shown self.old) (part_data part)) }
    {
        self.mode = Mode::Part;
        self.parts.push(part)?;
        Ok(())
    }

    fn at_list(&mut self, width: Width) -> Result<(), Stop>
        requires { (shown self.old).depth < 64 }
        ensures { Leaves (shown self.new) result
            (Ok (record (shown self.old)
            { mode = mode.Cells width listing.Empty; depth = suc (shown self.old).depth })) }
    {
        self.mode = Mode::Cells(width, Listing::Empty);
        self.depth += 1;
        Ok(())
    }

    fn at_pairs(&mut self) -> Result<(), Stop>
        requires { (shown self.old).depth < 64 }
        ensures { Leaves (shown self.new) result
            (Ok (record (shown self.old)
            { mode = mode.Pairs listing.Empty; depth = suc (shown self.old).depth })) }
    {
        self.mode = Mode::Pairs(Listing::Empty);
        self.depth += 1;
        Ok(())
    }

    /// Behind a name in a value, which can only be a label.
    fn waits_colon(&mut self, form: Form, token: &Token<'a>) -> Result<(), Stop>
        ensures { Leaves (shown self.new) result (waits_colon form (shown self.old) token.now.spot) }
    {
        match form {
            Form::Label => {
                self.colon = true;
                Ok(())
            }
            _ => Err(Stop::Broken(Breach::S1, token.at)),
        }
    }

    /// Behind a label's name in a value.
    pub(crate) fn at_colon(&mut self, token: &Token<'a>) -> Result<(), Stop>
        ensures { Leaves (shown self.new) result
            (at_colon (shown self.old) token.now.spot token.now.terminal) }
    {
        match token.terminal {
            Terminal::Colon => {
                self.colon = false;
                self.mode = labelled(self.mode);
                Ok(())
            }
            _ => Err(Stop::Broken(Breach::S1, token.at)),
        }
    }

    /// Behind a part of a value.
    pub(crate) fn behind_part(&mut self, alloc: Global, token: &Token<'a>) -> Result<(), Stop>
        ensures { Leaves (shown self.new) result
            (behind_part (shown self.old) token.now.spot token.now.terminal) }
    {
        match token.terminal {
            Terminal::Comma => {
                self.mode = Mode::Value;
                Ok(())
            }
            Terminal::Semicolon => self.assigned(alloc, token),
            Terminal::Name(form) => self.waits_colon(form, token),
            _ => Err(Stop::Broken(Breach::S1, token.at)),
        }
    }

    fn assigned(&mut self, alloc: Global, token: &Token<'a>) -> Result<(), Stop>
        ensures { Leaves (shown self.new) result (assigned (shown self.old) token.now.spot) }
    {
        let Some(name) = &self.name else {
            return Err(Stop::Broken(Breach::S1, token.at));
        };
        let at = name.at;
        let text = text_of(alloc, name.text)?;
        let parts = mem::replace(&mut self.parts, Vec::new(alloc));
        self.mode = Mode::Body;
        self.stage = Stage::Rest;
        self.name = None;
        self.out.push(Stmt {
            at,
            act: Act::Assign(text, parts),
        })?;
        Ok(())
    }

    /// Behind `/bits/`.
    pub(crate) fn behind_bits(&mut self, token: &Token<'a>) -> Result<(), Stop>
        ensures { Leaves (shown self.new) result
            (behind_bits (shown self.old) token.now.spot token.now.terminal) }
    {
        match token.terminal {
            Terminal::Number(n) => self.at_width(n, token),
            _ => Err(Stop::Broken(Breach::S1, token.at)),
        }
    }

    fn at_width(&mut self, n: u64, token: &Token<'a>) -> Result<(), Stop>
        ensures { Leaves (shown self.new) result
            (at_width (shown self.old) token.now.spot (width_of n)) }
    {
        match width_of(n) {
            Some(width) => {
                self.mode = Mode::Angle(width);
                Ok(())
            }
            None => Err(Stop::Broken(Breach::S1, token.at)),
        }
    }

    /// Behind the number of `/bits/`.
    pub(crate) fn behind_width(&mut self, width: Width, token: &Token<'a>) -> Result<(), Stop>
        requires { is_opening false token.now.terminal ≡ true → (shown self.old).depth < 64 }
        ensures { Leaves (shown self.new) result
            (behind_width width (shown self.old) token.now.spot token.now.terminal) }
    {
        match token.terminal {
            Terminal::Less => self.at_list(width),
            _ => Err(Stop::Broken(Breach::S1, token.at)),
        }
    }

    /// A whole element of this worth, which began there.
    pub(crate) fn put(
        &mut self,
        width: Width,
        huge: bool,
        worth: Option<u64>,
        at: u64,
    ) -> Result<(), Stop>
        ensures { Leaves (shown self.new) result (put width huge worth at (shown self.old)) }
    {
        let Some(n) = worth else {
            return Err(Stop::Broken(Breach::S5, at));
        };
        if misfits(width, huge, Some(n)) {
            return Err(Stop::Broken(Breach::S5, at));
        }
        self.mode = Mode::Cells(width, Listing::Elements);
        push_cell(&mut self.cells, width, n)?;
        push_bytes(&mut self.bytes, width, n)?;
        Ok(())
    }

    fn at_cell_ref(&mut self, alloc: Global, width: Width, token: &Token<'a>) -> Result<(), Stop>
        requires { token.now.terminal ≡ terminal.Ref }
        ensures { Leaves (shown self.new) result (at_ref width (shown self.old) token.now.spot) }
    {
        match width {
            Width::Bits32 => {
                let target = target_of(alloc, token)?;
                self.mode = Mode::Cells(Width::Bits32, Listing::Elements);
                self.cells.push(RawCell::Ref(target))?;
                Ok(())
            }
            _ => Err(Stop::Broken(Breach::S1, token.at)),
        }
    }

    fn closed_list(
        &mut self,
        alloc: Global,
        width: Width,
        listing: Listing,
        token: &Token<'a>,
    ) -> Result<(), Stop>
        ensures { Leaves (shown self.new) result
            (closed_list width listing (shown self.old) token.now.spot) }
    {
        if !may_close(listing) {
            return Err(Stop::Broken(Breach::S1, token.at));
        }
        let cells = mem::replace(&mut self.cells, Vec::new(alloc));
        let bytes = mem::replace(&mut self.bytes, Vec::new(alloc));
        self.mode = Mode::Part;
        self.depth = self.depth.saturating_sub(1);
        self.parts.push(list_part(width, cells, bytes))?;
        Ok(())
    }

    /// In a list of elements.
    pub(crate) fn in_cells(
        &mut self,
        alloc: Global,
        width: Width,
        listing: Listing,
        token: &Token<'a>,
    ) -> Result<(), Stop>
        requires { is_opening false token.now.terminal ≡ true → (shown self.old).depth < 64 }
        ensures { Leaves (shown self.new) result
            (in_cells width listing (shown self.old) token.now.spot token.now.terminal) }
    {
        match token.terminal {
            Terminal::Number(n) => self.put(width, false, Some(n), token.at),
            Terminal::Huge => self.put(width, true, None, token.at),
            Terminal::Char(byte) => self.put(width, false, Some(u64::from(byte)), token.at),
            Terminal::LeftRound => self.at_group(width, token),
            Terminal::Ref => self.at_cell_ref(alloc, width, token),
            Terminal::Greater => self.closed_list(alloc, width, listing, token),
            Terminal::Name(form) => self.waits_colon(form, token),
            _ => Err(Stop::Broken(Breach::S1, token.at)),
        }
    }

    fn at_group(&mut self, width: Width, token: &Token<'a>) -> Result<(), Stop>
        requires { (shown self.old).depth < 64 }
        ensures { Leaves (shown self.new) result
            (Ok (record (shown self.old) {
              mode = mode.Operand width;
              depth = suc (shown self.old).depth;
              begin =
                  token.now.spot.at;
              long = 1;
            })) }
    {
        self.mode = Mode::Operand(width);
        self.depth += 1;
        self.begin = token.at;
        self.long = 1;
        Ok(())
    }

    fn closed_pairs(
        &mut self,
        alloc: Global,
        listing: Listing,
        token: &Token<'a>,
    ) -> Result<(), Stop>
        ensures { Leaves (shown self.new) result
            (closed_pairs listing (shown self.old) token.now.spot) }
    {
        if !may_close(listing) {
            return Err(Stop::Broken(Breach::S1, token.at));
        }
        let bytes = mem::replace(&mut self.bytes, Vec::new(alloc));
        self.mode = Mode::Part;
        self.depth = self.depth.saturating_sub(1);
        self.parts.push(RawPart::Plain(Part {
            kind: Kind::Hex,
            bytes: Bytes::new(bytes),
        }))?;
        Ok(())
    }

    /// In a list of pairs of digits.
    pub(crate) fn in_pairs(
        &mut self,
        alloc: Global,
        listing: Listing,
        token: &Token<'a>,
    ) -> Result<(), Stop>
        ensures { Leaves (shown self.new) result
            (in_pairs listing (shown self.old) token.now.spot token.now.terminal) }
    {
        match token.terminal {
            Terminal::Pair(byte) => self.at_pair(byte),
            Terminal::RightSquare => self.closed_pairs(alloc, listing, token),
            Terminal::Name(form) => self.waits_colon(form, token),
            _ => Err(Stop::Broken(Breach::S1, token.at)),
        }
    }

    fn at_pair(&mut self, byte: u8) -> Result<(), Stop>
        ensures { Leaves (shown self.new) result
            (Ok (record (shown self.old)
            { mode = mode.Pairs listing.Elements; bytes = (shown self.old).bytes ++ byte ∷ [] })) }
    {
        self.mode = Mode::Pairs(Listing::Elements);
        self.bytes.push(byte)?;
        Ok(())
    }
}
