//! The logical lines of a text (ISO C, 5.1.1.2, phases 2 and 3).

ghost use Rattle.std.specs.Prelude.{◌≡◌, ◌+◌, ◌<◌, ◌≤◌, ◌^◌, ◌∷◌, [], IfOk, IfErr, IfSome, OnErr, OnOk, MatchOption, Some, None, length, option_map, false};
ghost use Rattle.std.specs.Str.{bytes_eq};
ghost use Rattle.c_tokens.specs.Lines.{LogicalLine, begins_hash, is_hash, line_of, left_behind};
ghost use Rattle.c_tokens.specs.Reading.{Gives, HasNoTokens, IfRule};
ghost use Rattle.c_tokens.specs.Reaching.{logical_of};
ghost use Rattle.edt_base.specs.declared.fault.Rule.TheVariants.{C1};

use crate::join::join_line;
use crate::lex::{LineEnd, lex_line};
use crate::tok::{CEnd, Line, Tok, TokKind};
use edt_base::Rule;
use std::alloc::{AllocError, Global};
use std::marker::Model;

/// A logical line: its tokens, what is left behind it, and how many newlines it took.
#[derive(Drop)]
struct Reach<'a> {
    toks: Vec<Tok>,
    rest: &'a [u8],
    newlines: u64,
}

/// The logical line at the front of a text; `None` where it isn't made of tokens. The one error is
/// want of memory.
fn logical_line(alloc: Global, text: &[u8]) -> Result<Option<Reach<'_>>, AllocError>
    ensures line { IfOk result (λ r. LogicalLine false text.now (option_map logical_of r)) }
    ensures within { IfOk result (λ r. IfSome r (λ l. l.newlines + length l.rest.now ≤ length text.now)) }
{
    let mut toks = Vec::new(alloc);
    let mut joined = Vec::new(alloc);
    let mut rest = text;
    let mut newlines = 0;
    let mut commented = false;
    'lines: loop {
        joined.clear();
        let behind = join_line(rest, &mut joined)?;
        match lex_line(alloc, commented, joined.as_slice(), &mut toks)? {
            LineEnd::Whole => {
                return Ok(Some(Reach {
                    toks,
                    rest: behind.rest,
                    newlines: newlines + behind.newlines,
                }));
            }
            LineEnd::NoToken => return Ok(None),
            LineEnd::Unclosed => {}
        }
        if behind.rest.is_empty() {
            return Ok(None);
        }
        rest = behind.rest;
        newlines += behind.newlines;
        commented = true;
    }
}

/// Whether a line is a directive: its first token is `#`.
fn begins_hash(toks: &[Tok]) -> bool
    ensures { result ≡ begins_hash toks.now }
{
    match toks.first() {
        None => false,
        Some(tok) => is_hash(tok),
    }
}

fn is_hash(tok: &Tok) -> bool
    ensures { result ≡ is_hash tok.now }
{
    tok.kind == TokKind::Punct && tok.spell.as_str() == "#"
}

/// The logical lines of a text, one after another. Contracts see what is left of the text and the
/// number of the line that comes next.
#[derive(Drop)]
pub struct Lines<'a> {
    rest: &'a [u8],
    number: u64,
}

impl<'a> Model for Lines<'a> {
    ghost use Rattle.std.specs.Prelude.{◌+◌, ◌≤◌, ◌^◌, length};
    ghost use Rattle.c_tokens.specs.Lines.{Unread};

    ghost Value = { Unread };

    ghost view = { λ l. record { rest = l.rest.now; number = l.number } };

    ghost invariant = { λ l. l.number + length l.rest.now ≤ 2 ^ 63 };
}

impl<'a> Lines<'a> {
    /// The lines of a text, from its first byte on. Takes no memory.
    pub fn new(src: &'a [u8]) -> Lines<'a>
        ensures { result ≡ record { rest = src.now; number = 1 } }
    {
        Lines {
            rest: src,
            number: 1,
        }
    }

    /// The number of the logical line that the next call of `next` gives or refuses, counted from 1;
    /// 1 more than the number of newlines where that call gives `None`. Takes no memory.
    pub fn number(&self) -> u64
        ensures { result ≡ self.now.number }
    {
        self.number
    }

    /// The next logical line; `None` exactly at the end. The one rule is C1, at a line that isn't made
    /// of tokens: bytes at which none stands, or a literal or a comment that isn't closed. After it,
    /// and after want of memory, the reader stands where it stood, so that C1 comes again.
    pub fn next(&mut self, alloc: Global) -> Result<Option<Line>, CEnd>
        ensures line { IfOk result (λ r. Gives self.old r self.new) }
        ensures refused { IfErr result (λ e. IfRule e (λ r. (r ≡ C1) × HasNoTokens self.old)) }
        ensures same { OnErr result (self.new ≡ self.old) }
    {
        if self.rest.is_empty() {
            return Ok(None);
        }
        let Some(reach) = logical_line(alloc, self.rest)? else {
            return Err(CEnd::Rule(Rule::C1));
        };
        let number = self.number;
        self.rest = reach.rest;
        self.number += reach.newlines;
        Ok(Some(Line {
            number,
            directive: begins_hash(reach.toks.as_slice()),
            toks: reach.toks,
        }))
    }
}
