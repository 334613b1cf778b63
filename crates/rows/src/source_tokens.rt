//! Rows of `dts_lex`: `tokens` is a source.
//!
//! The answer has each token's kind, first byte and the byte after its last, then `!` and the byte
//! where no token stands. The kinds are `n` for names, `1` for numbers, `c` and `s` for characters
//! and string literals, `r` and `p` for references by label and by path, `d` for directives, `x`
//! for pairs of digits and `.` for punctuators.

use crate::table::Row;
use dts_lex::{LexFault, Lexer, Span, SpanKind};
use std::alloc::{AllocError, Global};

pub fn answer(alloc: Global, row: &Row) -> Result<Option<String>, AllocError> {
    let Some(source) = row.bytes("tokens") else {
        return Ok(None);
    };
    let mut out = String::new(alloc);
    let mut lexer = Lexer::new(source);
    for _ in 0..=source.len() {
        match lexer.next() {
            Ok(Some(span)) => write!(out, "{}{}-{} ", letter(span.kind), span.start, span.end)?,
            end => {
                show_end(&mut lexer, end, &mut out)?;
                break;
            }
        }
    }
    Ok(Some(out))
}

/// The last answer of a lexer, which comes again and again.
fn show_end(
    lexer: &mut Lexer<'_>,
    end: Result<Option<Span>, LexFault>,
    out: &mut String,
) -> Result<(), AllocError> {
    for _ in 0..2 {
        match (&end, lexer.next()) {
            (Ok(None), Ok(None)) => {}
            (Err(fault), Err(again)) if fault.at == again.at => {}
            _ => write!(out, "not again")?,
        }
    }
    match end {
        Err(fault) => write!(out, "!{}", fault.at),
        Ok(_) => Ok(()),
    }
}

fn letter(kind: SpanKind) -> char {
    match kind {
        SpanKind::Name => 'n',
        SpanKind::Number => '1',
        SpanKind::Char => 'c',
        SpanKind::Str => 's',
        SpanKind::Ref => 'r',
        SpanKind::PathRef => 'p',
        SpanKind::Directive => 'd',
        SpanKind::Punct => '.',
        SpanKind::HexPair => 'x',
    }
}
