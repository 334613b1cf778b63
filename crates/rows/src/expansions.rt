//! Rows of `c_macro`.
//!
//! - `text` is a text. The answer has its lines after expansion, `_` before a token that white
//!   space precedes and `|` after each line, and then the rule that it breaks, if any.
//! - `before` and `locked` are directives, those of `before` applied before the names are locked.
//!   The answer says of each directive of `locked` whether it is good.

use crate::table::Row;
use c_macro::{Defs, expand};
use c_tokens::{CEnd, Lines, Tok};
use std::alloc::{AllocError, Global};

pub fn answer(alloc: Global, row: &Row) -> Result<Option<String>, AllocError> {
    if let Some(text) = row.bytes("text") {
        let mut out = String::new(alloc);
        let end = push_expanded(alloc, text, &mut out);
        push_end(end, &mut out)?;
        Ok(Some(out))
    } else if let (Some(before), Some(locked)) = (row.bytes("before"), row.bytes("locked")) {
        let mut out = String::new(alloc);
        let end = push_locked(alloc, before, locked, &mut out);
        push_end(end, &mut out)?;
        Ok(Some(out))
    } else {
        Ok(None)
    }
}

/// Adds the rule that a text breaks.
fn push_end(end: Result<(), CEnd>, out: &mut String) -> Result<(), AllocError> {
    match end {
        Ok(()) => Ok(()),
        Err(CEnd::Rule(rule)) => write!(out, "{rule}"),
        Err(CEnd::Memory(e)) => Err(e),
    }
}

/// Adds the lines of a text after expansion.
fn push_expanded(alloc: Global, text: &[u8], out: &mut String) -> Result<(), CEnd> {
    let mut defs = Defs::new(alloc);
    let mut lines = Lines::new(text);
    for _ in 0..=text.len() {
        let Some(line) = lines.next(alloc)? else {
            break;
        };
        if line.directive {
            defs.apply(&line)?;
            continue;
        }
        for tok in expand(alloc, &defs, &line.toks)?.iter() {
            push_tok(tok, out)?;
        }
        out.push_str("|")?;
    }
    Ok(())
}

fn push_tok(tok: &Tok, out: &mut String) -> Result<(), AllocError> {
    out.push_str(if tok.spaced { "_" } else { "" })?;
    out.push_str(tok.spell.as_str())
}

/// Adds whether each directive is good once the names of others are locked.
fn push_locked(alloc: Global, before: &[u8], locked: &[u8], out: &mut String) -> Result<(), CEnd> {
    let mut defs = Defs::new(alloc);
    let mut lines = Lines::new(before);
    for _ in 0..=before.len() {
        match lines.next(alloc)? {
            Some(line) => defs.apply(&line)?,
            None => break,
        }
    }
    defs.lock();
    let mut lines = Lines::new(locked);
    for _ in 0..=locked.len() {
        let Some(line) = lines.next(alloc)? else {
            break;
        };
        match defs.apply(&line) {
            Ok(()) => out.push_str("good ")?,
            Err(CEnd::Rule(rule)) => write!(out, "{rule} ")?,
            Err(end) => return Err(end),
        }
    }
    Ok(())
}
