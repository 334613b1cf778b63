//! Tokens of a source with their terminals.

ghost use Rattle.std.specs.Prelude.{◌≡◌, ◌≤◌, ◌<◌, true, length, codes};
ghost use Rattle.std.specs.List.{list_all};
ghost use Rattle.dts_parse.specs.Source.{byte_terminal, directive_terminal, double_terminal, name_terminal, punct_terminal, ref_terminal, terminal_of, slice_of, token_of};
ghost use Rattle.dts_parse.specs.Token.{form_of, is_ascii};

use crate::expr::BinOp;
use crate::names::{all_ascii, form_of};
use crate::numbers::number;
use crate::terminal::{Form, Terminal};
use crate::texts::{char_worth, pair_worth};
use dts_lex::{Span, SpanKind};
use std::marker::Model;

/// A token of a source.
#[derive(Drop)]
pub(crate) struct Token<'a> {
    pub(crate) terminal: Terminal,
    /// Its first byte.
    pub(crate) at: u64,
    /// Its bytes.
    pub(crate) text: &'a [u8],
}

impl<'a> Model for Token<'a> {
    ghost use Rattle.dts_parse.specs.Token as spec;
    ghost use Rattle.dts_parse.specs.Inner.Spelled.{IsSpelled};

    ghost Value = { spec.Token };

    ghost view = { λ t. record { terminal = t.terminal; spot = record { at = t.at; text = t.text.now } } };

    ghost invariant = { λ t. IsSpelled t.terminal t.text.now };
}

impl<'a> Token<'a> {
    /// The token of a span of the source.
    pub(crate) fn of(src: &'a [u8], span: Span) -> Token<'a>
        requires within { span.end ≤ length src.now }
        requires begins { span.start ≤ span.end }
        ensures { result ≡ token_of src.now span }
    {
        let text = &src[span.start as usize..span.end as usize];
        Token {
            terminal: terminal_of(span.kind, text),
            at: span.start,
            text,
        }
    }
}

pub(crate) fn terminal_of(kind: SpanKind, text: &[u8]) -> Terminal
    ensures { result ≡ terminal_of kind text.now }
{
    match kind {
        SpanKind::Name => name_terminal(text),
        SpanKind::Number => number(text),
        SpanKind::Char => Terminal::Char(char_worth(text)),
        SpanKind::Str => Terminal::Str,
        SpanKind::Ref | SpanKind::PathRef => ref_terminal(text),
        SpanKind::Directive => directive_terminal(text),
        SpanKind::Punct => punct_terminal(text),
        SpanKind::HexPair => Terminal::Pair(pair_worth(text)),
    }
}

fn name_terminal(text: &[u8]) -> Terminal
    ensures { result ≡ name_terminal (form_of text.now) }
{
    match form_of(text) {
        None => Terminal::Other,
        Some(form) => Terminal::Name(form),
    }
}

fn ref_terminal(text: &[u8]) -> Terminal
    ensures { result ≡ ref_terminal text.now }
{
    if all_ascii(text) {
        Terminal::Ref
    } else {
        Terminal::Other
    }
}

fn directive_terminal(text: &[u8]) -> Terminal
    ensures { result ≡ directive_terminal text.now }
{
    if text == b"/dts-v1/".as_slice() {
        Terminal::Version
    } else if text == b"/plugin/".as_slice() {
        Terminal::Plugin
    } else if text == b"/memreserve/".as_slice() {
        Terminal::Reserve
    } else if text == b"/delete-node/".as_slice() {
        Terminal::DeleteNode
    } else if text == b"/delete-property/".as_slice() {
        Terminal::DeleteProp
    } else if text == b"/omit-if-no-ref/".as_slice() {
        Terminal::Omit
    } else if text == b"/bits/".as_slice() {
        Terminal::Bits
    } else {
        Terminal::Include
    }
}

fn punct_terminal(text: &[u8]) -> Terminal
    ensures { result ≡ punct_terminal text.now }
{
    match text {
        [byte] => byte_terminal(*byte),
        [first, second] => double_terminal(*first, *second),
        _ => Terminal::Other,
    }
}

/// A terminal of one byte.
fn byte_terminal(byte: u8) -> Terminal
    ensures { result ≡ byte_terminal byte }
{
    match byte {
        b'{' => Terminal::LeftBrace,
        b'}' => Terminal::RightBrace,
        b'[' => Terminal::LeftSquare,
        b']' => Terminal::RightSquare,
        b'(' => Terminal::LeftRound,
        b')' => Terminal::RightRound,
        b'<' => Terminal::Less,
        b'>' => Terminal::Greater,
        b'/' => Terminal::Slash,
        b':' => Terminal::Colon,
        b';' => Terminal::Semicolon,
        b'=' => Terminal::Equal,
        b',' => Terminal::Comma,
        b'-' => Terminal::Minus,
        b'~' => Terminal::Tilde,
        b'!' => Terminal::Bang,
        b'?' => Terminal::Question,
        b'*' => Terminal::Op(BinOp::Mul),
        b'%' => Terminal::Op(BinOp::Rem),
        b'+' => Terminal::Op(BinOp::Add),
        b'&' => Terminal::Op(BinOp::BitAnd),
        b'^' => Terminal::Op(BinOp::BitXor),
        b'|' => Terminal::Op(BinOp::BitOr),
        _ => Terminal::Other,
    }
}

/// An operator of two bytes.
fn double_terminal(first: u8, second: u8) -> Terminal
    ensures { result ≡ double_terminal first second }
{
    if second == b'=' {
        Terminal::Op(match first {
            b'<' => BinOp::Le,
            b'>' => BinOp::Ge,
            b'=' => BinOp::Eq,
            _ => BinOp::Ne,
        })
    } else {
        Terminal::Op(match first {
            b'<' => BinOp::Shl,
            b'>' => BinOp::Shr,
            b'&' => BinOp::And,
            _ => BinOp::Or,
        })
    }
}
