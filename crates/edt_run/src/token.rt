//! The tokens of a small source, one after another.

ghost use Rattle.std.specs.Prelude.{◌≡◌, ◌<◌, ◌≤◌, ◌∷◌, ◌++◌, [], if◌then◌else◌, None, length, MatchOption, OnSome, IfSome, false, true};
ghost use Rattle.std.specs.List.{prefix_len};
ghost use Rattle.edt_run.specs.Reading.{Front, begins_with, nested, sign, start, tokens_of, tree_of};
ghost use Rattle.edt_run.specs.Reader.{brace_tokens};
ghost use Rattle.edt_run.specs.Small.{is_blank, is_name_byte};
ghost use Rattle.edt_run.specs.Tokens.{token_of};

use std::marker::Model;

/// The mark that a source begins with.
const VERSION: &[u8] = b"/dts-v1/";

/// A token of a small source.
#[derive(Clone, Copy)]
pub(crate) enum Token<'a> {
    /// `/dts-v1/`.
    Version,
    /// `/`, the root's name.
    Slash,
    /// `{`.
    Open,
    /// `}`.
    Close,
    /// `;`.
    Semicolon,
    /// The name of a node.
    Name(&'a str),
    /// A byte at which no token stands.
    Other,
}

/// What stands in a body.
#[derive(Clone, Copy)]
pub(crate) enum Brace<'a> {
    /// A name and `{`.
    Open(&'a str),
    /// `}` and `;`.
    Close,
}

/// What is left of a source. Contracts see its bytes.
#[derive(Drop)]
pub(crate) struct Tokens<'a> {
    rest: &'a [u8],
}

impl<'a> Model for Tokens<'a> {
    ghost use Rattle.std.specs.Prelude.{List, ℕ};

    ghost Value = { List ℕ };

    ghost view = { λ t. t.rest.now };
}

impl<'a> Tokens<'a> {
    /// The tokens of a source, from its first byte on.
    pub(crate) fn of(source: &'a [u8]) -> Tokens<'a>
        ensures { result ≡ source.now }
    {
        Tokens { rest: source }
    }

    /// The next token, which goes as far as it can. `None` where nothing but blanks is left.
    pub(crate) fn next_token(&mut self) -> Option<Token<'a>>
        ensures token { MatchOption result (tokens_of self.old ≡ [])
            (λ t. tokens_of self.old ≡ token_of t ∷ tokens_of self.new) }
        ensures shorter { OnSome result (length self.new < length self.old) }
    {
        let (token, rest) = front_token(after_blanks(self.rest))?;
        self.rest = rest;
        Some(token)
    }

    /// Takes what a source begins with, up to the brace of the root. `false` where something else
    /// stands there.
    pub(crate) fn begins(&mut self) -> bool
        ensures { tree_of (tokens_of self.old)
            ≡ (if result then nested start (tokens_of self.new) else None) }
    {
        matches!(self.next_token(), Some(Token::Version))
            && matches!(self.next_token(), Some(Token::Semicolon))
            && matches!(self.next_token(), Some(Token::Slash))
            && matches!(self.next_token(), Some(Token::Open))
    }

    /// The next brace of a body, with the name before it or the `;` behind it. `None` where
    /// something else stands there.
    pub(crate) fn next_brace(&mut self) -> Option<Brace<'a>>
        ensures brace { MatchOption result ((f : Front) → nested f (tokens_of self.old) ≡ None)
            (λ b. tokens_of self.old ≡ brace_tokens b ++ tokens_of self.new) }
        ensures shorter { OnSome result (length self.new < length self.old) }
    {
        match (self.next_token()?, self.next_token()?) {
            (Token::Name(name), Token::Open) => Some(Brace::Open(name)),
            (Token::Close, Token::Semicolon) => Some(Brace::Close),
            _ => None,
        }
    }
}

/// The bytes behind the blanks at their front.
fn after_blanks(bytes: &[u8]) -> &[u8]
    ensures same { tokens_of result.now ≡ tokens_of bytes.now }
    ensures no_blank { begins_with is_blank result.now ≡ false }
    ensures shorter { length result.now ≤ length bytes.now }
{
    let (_, behind) = bytes.split_at(blank_length(bytes));
    behind
}

/// How many bytes at the front are blanks.
fn blank_length(bytes: &[u8]) -> usize
    ensures { result ≡ prefix_len is_blank bytes.now }
{
    bytes.iter().take_while(|byte| is_blank(**byte)).count()
}

/// The token that begins with the first byte, which is no blank, and the bytes behind it.
fn front_token(bytes: &[u8]) -> Option<(Token<'_>, &[u8])>
    requires { begins_with is_blank bytes.now ≡ false }
    ensures token { MatchOption result (tokens_of bytes.now ≡ [])
        (λ r. tokens_of bytes.now ≡ token_of r.0 ∷ tokens_of r.1.now) }
    ensures shorter { IfSome result (λ r. length r.1.now < length bytes.now) }
{
    if let Some(behind) = bytes.strip_prefix(VERSION) {
        return Some((Token::Version, behind));
    }
    let (first, behind) = bytes.split_first()?;
    if is_name_byte(*first) {
        return Some(front_name(bytes));
    }
    Some((sign(*first), behind))
}

/// The token of one byte.
fn sign(byte: u8) -> Token<'static>
    ensures { token_of result ≡ sign byte }
{
    match byte {
        b'/' => Token::Slash,
        b'{' => Token::Open,
        b'}' => Token::Close,
        b';' => Token::Semicolon,
        _ => Token::Other,
    }
}

/// The name that begins with the first byte, and the bytes behind it.
fn front_name(bytes: &[u8]) -> (Token<'_>, &[u8])
    requires { begins_with is_name_byte bytes.now ≡ true }
    ensures token { tokens_of bytes.now ≡ token_of result.0 ∷ tokens_of result.1.now }
    ensures shorter { length result.1.now < length bytes.now }
{
    let (name, behind) = bytes.split_at(name_length(bytes));
    match str::from_utf8(name) {
        Ok(name) => (Token::Name(name), behind),
        Err(_) => unreachable!(),
    }
}

/// How many bytes at the front are letters and digits.
fn name_length(bytes: &[u8]) -> usize
    ensures { result ≡ prefix_len is_name_byte bytes.now }
{
    bytes.iter().take_while(|byte| is_name_byte(**byte)).count()
}

fn is_blank(byte: u8) -> bool
    ensures { result ≡ is_blank byte }
{
    matches!(byte, b' ' | b'\t' | b'\n')
}

fn is_name_byte(byte: u8) -> bool
    ensures { result ≡ is_name_byte byte }
{
    matches!(byte, b'a'..=b'z' | b'0'..=b'9')
}
