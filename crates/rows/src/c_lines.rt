//! Rows of `c_tokens`.
//!
//! - `lines` is a text. The answer has for each line its number, `#` where it is a directive, else
//!   `:`, and its tokens: `_` where white space stands before it, its kind and its spelling.
//! - `shown` is a text. The answer has the tokens of its first line with one space between them.
//! - `token` is a text. The answer is the kind of the one token that it is.

use crate::table::{Row, text_of};
use c_tokens::{CEnd, Line, Lines, TokKind, kind_of, show};
use edt_base::MemSink;
use std::alloc::{AllocError, Global};

pub fn answer(alloc: Global, row: &Row) -> Result<Option<String>, AllocError> {
    if let Some(text) = row.bytes("lines") {
        Ok(Some(lines_of(alloc, text)?))
    } else if let Some(text) = row.bytes("shown") {
        shown(alloc, text)
    } else if let Some(text) = row.bytes("token") {
        let kind = match kind_of(text) {
            Some(kind) => letter(kind),
            None => "-",
        };
        Ok(Some(String::from_str(alloc, kind)?))
    } else {
        Ok(None)
    }
}

/// The lines of a text, up to its end or its fault, which comes again and again.
fn lines_of(alloc: Global, text: &[u8]) -> Result<String, AllocError> {
    let mut out = String::new(alloc);
    let mut lines = Lines::new(text);
    for _ in 0..=text.len() {
        match lines.next(alloc) {
            Ok(Some(line)) => show_line(&mut out, &line)?,
            Ok(None) => {
                write!(out, "end {}", lines.number())?;
                break;
            }
            Err(CEnd::Rule(rule)) => {
                write!(out, "{rule} {}", lines.number())?;
                refused_again(alloc, &mut lines, &mut out)?;
                break;
            }
            Err(CEnd::Memory(e)) => return Err(e),
        }
    }
    Ok(out)
}

/// Says where a line that was refused isn't refused again.
fn refused_again(alloc: Global, lines: &mut Lines<'_>, out: &mut String) -> Result<(), AllocError> {
    let number = lines.number();
    for _ in 0..2 {
        match lines.next(alloc) {
            Err(CEnd::Rule(_)) if lines.number() == number => {}
            Err(CEnd::Memory(e)) => return Err(e),
            _ => out.push_str("not again")?,
        }
    }
    Ok(())
}

fn show_line(out: &mut String, line: &Line) -> Result<(), AllocError> {
    let mark = if line.directive { "#" } else { ":" };
    write!(out, "{}{mark}", line.number)?;
    for tok in line.toks.iter() {
        let space = if tok.spaced { " _" } else { " " };
        write!(out, "{space}{}{}", letter(tok.kind), tok.spell.as_str())?;
    }
    out.push_str("; ")
}

/// The tokens of the first line of a text, as they are shown.
fn shown(alloc: Global, text: &[u8]) -> Result<Option<String>, AllocError> {
    let mut sink = MemSink::new(alloc, 1000, 3, Vec::new(alloc))?;
    match Lines::new(text).next(alloc) {
        Ok(Some(line)) => match show(&line.toks, &mut sink) {
            Ok(()) => Ok(Some(String::from_str(alloc, text_of(sink.bytes()))?)),
            Err(_) => Ok(None),
        },
        Ok(None) | Err(CEnd::Rule(_)) => Ok(None),
        Err(CEnd::Memory(e)) => Err(e),
    }
}

fn letter(kind: TokKind) -> &'static str {
    match kind {
        TokKind::Ident => "i",
        TokKind::Number => "n",
        TokKind::Char => "c",
        TokKind::Str => "s",
        TokKind::Punct => "p",
        TokKind::Other => "o",
    }
}
