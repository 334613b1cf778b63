//! The lexer: the tokens of a source, one at a call.

ghost use Rattle.std.specs.Prelude.{◌≡◌, ◌≤◌, ◌<◌, ◌+◌, ◌^◌, IfOk, IfSome, length};
ghost use Rattle.dts_lex.specs.Left.{whole};
ghost use Rattle.dts_lex.specs.Tokens.{Reads};

use crate::between::{gap_length, gap_start};
use crate::opened::Opened;
use crate::token::{known_behind, row_length, token_at};
use std::marker::Model;
use thiserror::Error;

/// What a token is (Devicetree Specification v0.4, 6.2 to 6.4).
#[derive(Clone, Copy, Debug, PartialEq, Eq)]
pub enum SpanKind {
    /// A name of a node or a property, or a label.
    Name,
    /// A number, in a list or after `/bits/` or `/memreserve/`, or another word in its place.
    Number,
    /// A character in single quotes.
    Char,
    /// A string literal.
    Str,
    /// `&` and a label.
    Ref,
    /// `&` and a path in braces.
    PathRef,
    /// A directive, its slashes with it.
    Directive,
    /// A bracket, an operator or another punctuator.
    Punct,
    /// Two hexadecimal digits in square brackets.
    HexPair,
}

/// A token as a slice of its source.
#[derive(Clone, Copy, Debug, PartialEq, Eq)]
pub struct Span {
    /// What the token is.
    pub kind: SpanKind,
    /// Its first byte, counted from 0.
    pub start: u64,
    /// The byte after its last.
    pub end: u64,
}

/// No token stands at a byte.
#[derive(Clone, Copy, Debug, PartialEq, Eq, Error)]
#[error("no token stands at byte {at}")]
pub struct LexFault {
    /// The byte, counted from 0.
    pub at: u64,
}

/// The tokens of a source. Contracts see what is left of it.
#[derive(Drop)]
pub struct Lexer<'a> {
    rest: &'a [u8],
    at: u64,
    opened: Opened,
    /// How many bytes the word at the start of the rest has, 0 where that isn't known.
    known: usize,
}

impl<'a> Model for Lexer<'a> {
    ghost use Rattle.std.specs.Prelude.{◌<◌, ◌+◌, ◌^◌, length};
    ghost use Rattle.dts_lex.specs.Left.{Left};
    ghost use Rattle.dts_lex.specs.Inner.Counts.{AreAtMost, IsKnown};

    ghost Value = { Left };

    ghost view = { λ l. record { bytes = l.rest.now; at = l.at; opened = l.opened } };

    ghost invariant = { λ l. (l.at + length l.rest.now < 2 ^ 64) × AreAtMost l.opened l.at
        × IsKnown l.opened l.rest.now l.known };
}

impl<'a> Lexer<'a> {
    /// The tokens of a source, from its first byte on. Takes no memory.
    pub fn new(src: &'a [u8]) -> Lexer<'a>
        ensures { result ≡ whole src.now }
    {
        Lexer {
            rest: src,
            at: 0,
            opened: Opened::nothing(),
            known: 0,
        }
    }

    /// The next token, after blanks, comments and skipped lines. `None` exactly at the end. The
    /// error comes exactly where no token stands, and then again at every call. Takes no memory.
    pub fn next(&mut self) -> Result<Option<Span>, LexFault>
        ensures { Reads self.old result self.new }
    {
        let (_, rest) = self
            .rest
            .split_at(gap_length(gap_start(self.at), self.rest));
        let start = self.at + (self.rest.len() - rest.len()) as u64;
        if rest.is_empty() {
            return Ok(None);
        }
        let known = if rest.len() == self.rest.len() {
            self.known
        } else {
            0
        };
        let known = row_length(self.opened, rest, known);
        let Some(found) = token_at(self.opened, rest, known) else {
            return Err(LexFault { at: start });
        };
        let (text, behind) = rest.split_at(found.size);
        let end = start + found.size as u64;
        self.known = known_behind(self.opened, found, rest, known);
        self.opened = self.opened.behind(found.kind, text, self.at);
        self.at = end;
        self.rest = behind;
        Ok(Some(Span {
            kind: found.kind,
            start,
            end,
        }))
    }
}
