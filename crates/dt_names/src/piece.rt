//! What names and bodies are made of.

/// The parameters of a definition.
#[derive(Clone, Copy, Debug, PartialEq, Eq)]
pub enum Params {
    /// None, and no brackets.
    Plain,
    /// `(fn)`.
    Fn,
    /// `(fn, sep)`.
    FnSep,
    /// `(fn, ...)`.
    FnVargs,
}

/// A piece of a name or a body.
#[derive(Clone, Copy, Debug)]
pub enum Piece<'a> {
    /// Characters as they are.
    Lit(&'a str),
    /// The bytes of a text, to be written as its form.
    Form(&'a [u8]),
    /// The bytes of a text, to be written as a string literal.
    Str(&'a [u8]),
    /// A number, to be written in decimal.
    Num(u128),
}
