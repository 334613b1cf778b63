//! Text on its way to a sink, gathered so that the sink is called for whole blocks.

ghost use Rattle.std.specs.Prelude.{◌≡◌, ◌++◌, ◌∷◌, [], OnOk, is_ok, if◌then◌else◌};
ghost use Rattle.edt_base.specs.Outside.{Wrote};
ghost use Rattle.edt_base.specs.Put.{Put};

use crate::{Sink, WriteFailed, write_text};
use arrayvec::ArrayVec;
use std::marker::Model;

/// How many bytes are held before they go to the sink.
const BLOCK: usize = 16_384;

/// At most 16,384 bytes that are held for a sink, so that it is called for whole blocks.
/// Contracts see the list of them.
#[derive(Drop)]
pub struct Block {
    held: ArrayVec<u8, 16_384>,
}

impl Model for Block {
    ghost use Rattle.std.specs.Prelude.{List, ℕ};

    ghost Value = { List ℕ };

    ghost view = { λ b. b.held.items };
}

impl Block {
    /// A block that holds nothing.
    pub fn new() -> Block
        ensures { result ≡ [] }
    {
        Block {
            held: ArrayVec::new(),
        }
    }

    // Holds a piece where there is room for it, and says whether there was.
    fn hold(&mut self, piece: &[u8]) -> bool
        ensures { self.new ≡ (if result then self.old ++ piece.now else self.old) }
    {
        match self.held.try_extend_from_slice(piece) {
            Ok(()) => true,
            Err(_) => false,
        }
    }

    // Holds a byte where there is room for it, and says whether there was.
    fn hold_byte(&mut self, byte: u8) -> bool
        ensures { self.new ≡ (if result then self.old ++ byte ∷ [] else self.old) }
    {
        if self.held.is_full() {
            return false;
        }
        self.held.push(byte);
        true
    }
}

/// Writes what is held, and holds nothing then. With `WriteFailed` a prefix of it was written.
/// Takes no memory.
pub fn flush<S: Sink>(out: &mut S, block: &mut Block) -> Result<(), WriteFailed>
    ensures wrote { Wrote (S.seen out.old) (S.seen out.new) block.old (is_ok result) }
    ensures emptied { OnOk result (block.new ≡ []) }
{
    write_text(out, block.held.as_slice())?;
    block.held.clear();
    Ok(())
}

#[inline(always)]
/// Puts a piece after what is held, which goes to the sink first where there is no room for both; a
/// piece longer than a block goes out by itself. With `WriteFailed` a prefix of what was held and the
/// piece was written. Takes no memory.
pub fn put<S: Sink>(out: &mut S, block: &mut Block, piece: &[u8]) -> Result<(), WriteFailed>
    ensures { Put (S.seen out.old) (S.seen out.new) block.old block.new piece.now (is_ok result) }
{
    if block.hold(piece) {
        return Ok(());
    }
    put_after_all(out, block, piece)
}

#[inline(never)]
// The same, once what is held went to the sink.
fn put_after_all<S: Sink>(out: &mut S, block: &mut Block, piece: &[u8]) -> Result<(), WriteFailed>
    ensures { Put (S.seen out.old) (S.seen out.new) block.old block.new piece.now (is_ok result) }
{
    flush(out, block)?;
    if block.hold(piece) {
        return Ok(());
    }
    write_text(out, piece)?;
    Ok(())
}

#[inline(always)]
/// Puts a byte after what is held, as [`put`] puts a piece.
pub fn put_byte<S: Sink>(out: &mut S, block: &mut Block, byte: u8) -> Result<(), WriteFailed>
    ensures { Put (S.seen out.old) (S.seen out.new) block.old block.new (byte ∷ []) (is_ok result) }
{
    if block.hold_byte(byte) {
        return Ok(());
    }
    put(out, block, &[byte])
}
