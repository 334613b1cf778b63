//! Tokens as text.

ghost use Rattle.std.specs.Prelude.{is_ok};
ghost use Rattle.std.specs.List.{flat_map};
ghost use Rattle.edt_base.specs.Outside.{Wrote};
ghost use Rattle.c_tokens.specs.Shown.{shown, with_space};

use crate::tok::Tok;
use edt_base::{Sink, WriteFailed, write_text};

/// Writes the spellings of tokens, one space between every two. With `WriteFailed` a front of the
/// text was written. Takes no memory.
pub fn show<S: Sink>(toks: &Vec<Tok>, out: &mut S) -> Result<(), WriteFailed>
    ensures { Wrote (S.seen out.old) (S.seen out.new) (shown toks.now.items) (is_ok result) }
{
    let Some((first, rest)) = toks.as_slice().split_first() else {
        return Ok(());
    };
    write_text(out, first.spell.as_str().as_bytes())?;
    show_all_spaced(rest, out)?;
    Ok(())
}

/// Writes the spellings of tokens, each with a space before it.
fn show_all_spaced<S: Sink>(toks: &[Tok], out: &mut S) -> Result<(), WriteFailed>
    ensures { Wrote (S.seen out.old) (S.seen out.new) (flat_map with_space toks.now) (is_ok result) }
{
    for tok in toks {
        show_spaced(tok, out)?;
    }
    Ok(())
}

/// Writes a token's spelling with a space before it.
fn show_spaced<S: Sink>(tok: &Tok, out: &mut S) -> Result<(), WriteFailed>
    ensures { Wrote (S.seen out.old) (S.seen out.new) (with_space tok.now) (is_ok result) }
{
    write_text(out, b" ")?;
    write_text(out, tok.spell.as_str().as_bytes())?;
    Ok(())
}
