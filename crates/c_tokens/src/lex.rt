//! The tokens of one joined line.

ghost use Rattle.std.specs.Prelude.{◌≡◌, ◌++◌, ◌-◌, ◌≤◌, ◌<◌, IfOk, Some, None, take, drop, length, MatchOption, if◌then◌else◌};
ghost use Rattle.std.specs.Str.{is_utf8};
ghost use Rattle.c_tokens.specs.Lexed.{Lexed, lexed, lexed_behind};
ghost use Rattle.c_tokens.specs.Lexing.{behind_toks, ended_as};

use crate::grammar::{Piece, behind, comment_end, front};
use crate::tok::{Tok, TokKind};
use edt_base::Text;
use std::alloc::{AllocError, Global};

/// What became of the tokens of a line.
#[derive(Clone, Copy, Debug, PartialEq, Eq)]
pub(crate) enum LineEnd {
    /// They end with the line.
    Whole,
    /// A comment is left open behind them.
    Unclosed,
    /// No token stands at some place.
    NoToken,
}

/// A token of these bytes; `None` where they aren't UTF-8.
fn token(
    alloc: Global,
    bytes: &[u8],
    kind: TokKind,
    spaced: bool,
) -> Result<Option<Tok>, AllocError>
    ensures { IfOk result (λ t. t ≡ (if is_utf8 bytes.now then Some (record { spell = bytes.now; kind = kind; spaced = spaced }) else None)) }
{
    match str::from_utf8(bytes) {
        Ok(spell) => Ok(Some(Tok {
            spell: Text::new(String::from_str(alloc, spell)?),
            kind,
            spaced,
        })),
        Err(_) => Ok(None),
    }
}

/// Puts the tokens from here on behind those that are there.
fn lex_from(
    alloc: Global,
    spaced: bool,
    bytes: &[u8],
    toks: &mut Vec<Tok>,
) -> Result<LineEnd, AllocError>
    ensures { IfOk result (λ end. ended_as end toks.new.items ≡ behind_toks toks.old.items (lexed_behind spaced 0 bytes.now)) }
{
    let mut rest = bytes;
    let mut spaced = spaced;
    while !rest.is_empty() {
        match front(rest) {
            Piece::Gap(n) => {
                rest = behind(rest, n);
                spaced = true;
            }
            Piece::Unclosed => return Ok(LineEnd::Unclosed),
            Piece::Token(kind, n) => {
                let (spell, after) = rest.split_at(n);
                let Some(tok) = token(alloc, spell, kind, spaced)? else {
                    return Ok(LineEnd::NoToken);
                };
                toks.push(tok)?;
                rest = after;
                spaced = false;
            }
            Piece::Nothing => return Ok(LineEnd::NoToken),
        }
    }
    Ok(LineEnd::Whole)
}

/// Puts the tokens of a joined line behind those that are there. `commented` says that the line
/// begins within a comment. The one error is want of memory.
pub(crate) fn lex_line(
    alloc: Global,
    commented: bool,
    bytes: &[u8],
    toks: &mut Vec<Tok>,
) -> Result<LineEnd, AllocError>
    ensures { IfOk result (λ end. ended_as end toks.new.items ≡ behind_toks toks.old.items (lexed commented bytes.now)) }
{
    if !commented {
        return lex_from(alloc, false, bytes, toks);
    }
    match comment_end(bytes) {
        None => Ok(LineEnd::Unclosed),
        Some(n) => {
            let end = lex_from(alloc, true, behind(bytes, n), toks)?;
            Ok(end)
        }
    }
}
