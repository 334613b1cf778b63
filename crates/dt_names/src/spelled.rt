//! Pieces as text in memory.

ghost use Rattle.std.specs.Prelude.{◌≡◌, ◌++◌, IfOk, OnOk};
ghost use Rattle.std.specs.List.{flat_map};
ghost use Rattle.edt_base.specs.Forms.{form_of};
ghost use Rattle.dt_names.specs.Pieces.{escaped, quoted, spell, spells};
ghost use Rattle.dt_names.specs.Inner.Words.{piece_of};

use crate::forms::form_char;
use crate::piece::Piece;
use crate::pieces::Pieces;
use itoa::Buffer;
use std::alloc::{AllocError, Global};

#[tactic(auto, unfolding(crate::specs::Pieces::spells))]
/// Pieces, spelled one behind the other. The one error is want of memory.
pub(crate) fn spelled(alloc: Global, pieces: Pieces<'_>) -> Result<Vec<u8>, AllocError>
    ensures { IfOk result (λ t. t.items ≡ spells pieces.entry) }
{
    let mut pieces = pieces;
    let mut text = Vec::new(alloc);
    while let Some(piece) = pieces.next() {
        push_piece(&mut text, piece)?;
    }
    Ok(text)
}

// Puts a piece behind a text, as it is spelled.
fn push_piece(text: &mut Vec<u8>, piece: Piece<'_>) -> Result<(), AllocError>
    ensures { OnOk result (text.new.items ≡ text.old.items ++ spell (piece_of piece.entry)) }
{
    match piece {
        Piece::Lit(chars) => text.extend_from_slice(chars.as_bytes()),
        Piece::Form(bytes) => push_form(text, bytes),
        Piece::Str(bytes) => push_quoted(text, bytes),
        Piece::Num(n) => text.extend_from_slice(Buffer::new().format(n).as_bytes()),
    }
}

#[tactic(auto, unfolding(edt_base::specs::Forms::form_of))]
// Puts the form of a text behind another.
fn push_form(text: &mut Vec<u8>, bytes: &[u8]) -> Result<(), AllocError>
    ensures { OnOk result (text.new.items ≡ text.old.items ++ form_of bytes.now) }
{
    for byte in bytes {
        if let Some(char) = form_char(*byte) {
            text.push(char)?;
        }
    }
    Ok(())
}

// Puts a string literal behind a text.
fn push_quoted(text: &mut Vec<u8>, bytes: &[u8]) -> Result<(), AllocError>
    ensures { OnOk result (text.new.items ≡ text.old.items ++ quoted bytes.now) }
{
    text.push(b'"')?;
    push_escaped(text, bytes)?;
    text.push(b'"')?;
    Ok(())
}

// Puts behind a text what stands between the quotes of a string literal.
fn push_escaped(text: &mut Vec<u8>, bytes: &[u8]) -> Result<(), AllocError>
    ensures { OnOk result (text.new.items ≡ text.old.items ++ flat_map escaped bytes.now) }
{
    for byte in bytes {
        push_escaped_byte(text, *byte)?;
    }
    Ok(())
}

// Puts a byte behind a text as it stands in a string literal.
fn push_escaped_byte(text: &mut Vec<u8>, byte: u8) -> Result<(), AllocError>
    ensures { OnOk result (text.new.items ≡ text.old.items ++ escaped byte) }
{
    if byte == b'"' || byte == b'\\' {
        return text.extend_from_slice(&[b'\\', byte]);
    }
    if 32 <= byte && byte <= 126 {
        return Ok(text.push(byte)?);
    }
    let digits = [
        b'\\',
        b'0' + byte / 64,
        b'0' + byte / 8 % 8,
        b'0' + byte % 8,
    ];
    text.extend_from_slice(&digits)
}
