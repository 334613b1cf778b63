//! Tokens, lines of them, and why there are none.

ghost use Rattle.std.specs.Prelude.{◌≡◌, alloc_error};
ghost use Rattle.c_tokens.specs.declared.tok.CEnd.TheVariants as ending;

use edt_base::{Rule, Text};
use std::alloc::{AllocError, AllocFailed};
use std::marker::Model;

/// What a token is (ISO C, 6.4).
#[derive(Clone, Copy, Debug, PartialEq, Eq)]
pub enum TokKind {
    /// An identifier.
    Ident,
    /// A preprocessing number.
    Number,
    /// A character constant, its prefix included.
    Char,
    /// A string, its prefix included.
    Str,
    /// A punctuator.
    Punct,
    /// Another printable character.
    Other,
}

/// A token.
#[derive(Debug, Drop)]
pub struct Tok {
    /// Its bytes as they stand in the text.
    pub spell: Text,
    /// What it is.
    pub kind: TokKind,
    /// Whether white space or a comment stands before it on its line.
    pub spaced: bool,
}

/// A logical line: lines joined at a backslash or by a comment.
#[derive(Debug, Drop)]
pub struct Line {
    /// The number of its first line, counted from 1.
    pub number: u64,
    /// Whether its first token is `#`.
    pub directive: bool,
    /// Its tokens, the `#` of a directive included.
    pub toks: Vec<Tok>,
}

impl Model for Line {
    ghost use Rattle.c_tokens.specs.LineData.{LineData};

    ghost Value = { LineData };

    ghost view = { λ l. record { number = l.number; directive = l.directive; toks = l.toks.items } };
}

/// Why a call on C text gave nothing. Which line it was is known to the caller.
#[derive(Debug, Drop)]
pub enum CEnd {
    /// The text breaks a rule.
    Rule(Rule),
    /// Memory was wanted; the text may be good.
    Memory(AllocError),
}

impl From<AllocError> for CEnd {
    ghost from_gives = { λ e end. end ≡ ending.Memory e };

    fn from(e: AllocError) -> CEnd {
        CEnd::Memory(e)
    }
}

impl<T: Drop> From<AllocFailed<T>> for CEnd {
    ghost from_gives = { λ _ end. end ≡ ending.Memory alloc_error };

    fn from(_e: AllocFailed<T>) -> CEnd {
        CEnd::Memory(AllocError)
    }
}
