//! The string that a `#` makes of an argument (ISO C, 6.10.3.2).

ghost use Rattle.std.specs.Prelude.{◌≡◌, ◌++◌, ◌∷◌, [], IfOk, OnOk, string_bytes, if◌then◌else◌, take};
ghost use Rattle.std.specs.List.{flat_map};
ghost use Rattle.c_macro.specs.Bodies.{escaped, is_literal, text_spelling, text_spaced, text_spellings, string_of};
ghost use Rattle.c_macro.specs.Strings.{pend_spaced, pend_spellings};

use crate::pend::Pend;
use c_tokens::{Tok, TokKind};
use edt_base::Text;
use std::alloc::{AllocError, Global};

fn is_literal(kind: TokKind) -> bool
    ensures { result ≡ is_literal kind }
{
    matches!(kind, TokKind::Str | TokKind::Char)
}

/// The bytes of a text with a backslash before each `"` and each backslash.
fn escape_bytes(alloc: Global, bytes: &[u8]) -> Result<Vec<u8>, AllocError>
    ensures { IfOk result (λ v. v.items ≡ flat_map escaped bytes.now) }
{
    let mut out = Vec::with_capacity(alloc, bytes.len())?;
    for byte in bytes {
        push_escaped(&mut out, *byte)?;
    }
    Ok(out)
}

fn push_escaped(out: &mut Vec<u8>, byte: u8) -> Result<(), AllocError>
    ensures { OnOk result (out.new.items ≡ out.old.items ++ escaped byte) }
{
    if byte == b'"' || byte == b'\\' {
        out.push(b'\\')?;
    }
    out.push(byte)?;
    Ok(())
}

/// A text with a backslash before each `"` and each backslash.
fn escape(alloc: Global, text: &str) -> Result<String, AllocError>
    ensures { IfOk result (λ s. string_bytes s ≡ flat_map escaped text.now) }
{
    let bytes = escape_bytes(alloc, text.as_bytes())?;
    match String::from_utf8(bytes) {
        Ok(escaped) => Ok(escaped),
        Err(_) => unreachable!(),
    }
}

/// Puts the spelling of a token behind a text, as it stands in a string.
fn push_spelling(alloc: Global, out: &mut String, tok: &Tok) -> Result<(), AllocError>
    ensures { OnOk result (string_bytes out.new ≡ string_bytes out.old ++ text_spelling tok.now) }
{
    if is_literal(tok.kind) {
        let escaped = escape(alloc, tok.spell.as_str())?;
        out.push_str(escaped.as_str())?;
    } else {
        out.push_str(tok.spell.as_str())?;
    }
    Ok(())
}

/// Puts the spellings of tokens behind a text, each with a space before it where white space stands
/// before the token.
fn push_spaced(alloc: Global, out: &mut String, pend: &Pend) -> Result<(), AllocError>
    ensures { OnOk result (string_bytes out.new ≡ string_bytes out.old ++ pend_spaced pend.now) }
{
    if pend.tok.spaced {
        out.push_str(" ")?;
    }
    push_spelling(alloc, out, &pend.tok)?;
    Ok(())
}

fn push_all_spaced(alloc: Global, out: &mut String, pends: &[Pend]) -> Result<(), AllocError>
    ensures { OnOk result (string_bytes out.new ≡ string_bytes out.old ++ flat_map pend_spaced pends.now) }
{
    for pend in pends {
        push_spaced(alloc, out, pend)?;
    }
    Ok(())
}

fn push_spellings(alloc: Global, out: &mut String, pends: &[Pend]) -> Result<(), AllocError>
    ensures { OnOk result (string_bytes out.new ≡ string_bytes out.old ++ pend_spellings pends.now) }
{
    let Some((first, rest)) = pends.split_first() else {
        return Ok(());
    };
    push_spelling(alloc, out, &first.tok)?;
    push_all_spaced(alloc, out, rest)?;
    Ok(())
}

/// The string of an argument. The one error is want of memory.
pub(crate) fn string_of(alloc: Global, spaced: bool, pends: &[Pend]) -> Result<Tok, AllocError>
    ensures { IfOk result (λ t. t ≡ record { spell = 34 ∷ (pend_spellings pends.now ++ 34 ∷ []); kind = TokKind.Str; spaced = spaced }) }
{
    let mut spell = String::from_str(alloc, "\"")?;
    push_spellings(alloc, &mut spell, pends)?;
    spell.push_str("\"")?;
    Ok(Tok {
        spell: Text::new(spell),
        kind: TokKind::Str,
        spaced,
    })
}
