//! Tokens by what they mean to the grammar.

use crate::expr::BinOp;

/// What a word can be the name of.
#[derive(Clone, Copy)]
pub(crate) enum Form {
    /// A label, a node or a property: a letter or `_`, then letters, digits and `_`.
    Label,
    /// A node or a property.
    Both,
    /// A node alone: it has a unit address.
    Node,
    /// A property alone: it has `?` or `#`.
    Prop,
}

/// How many bits an element of a list has.
#[derive(Clone, Copy)]
pub(crate) enum Width {
    /// 8 bits.
    Bits8,
    /// 16 bits.
    Bits16,
    /// 32 bits: cells.
    Bits32,
    /// 64 bits.
    Bits64,
}

/// A token's meaning.
#[derive(Clone, Copy)]
pub(crate) enum Terminal {
    /// `/dts-v1/`.
    Version,
    /// `/plugin/`.
    Plugin,
    /// `/memreserve/`.
    Reserve,
    /// `/delete-node/`.
    DeleteNode,
    /// `/delete-property/`.
    DeleteProp,
    /// `/omit-if-no-ref/`.
    Omit,
    /// `/bits/`.
    Bits,
    /// `/include/` or `/incbin/`.
    Include,
    /// `{`.
    LeftBrace,
    /// `}`.
    RightBrace,
    /// `[`.
    LeftSquare,
    /// `]`.
    RightSquare,
    /// `(`.
    LeftRound,
    /// `)`.
    RightRound,
    /// `<`.
    Less,
    /// `>`.
    Greater,
    /// `/`.
    Slash,
    /// `:`.
    Colon,
    /// `;`.
    Semicolon,
    /// `=`.
    Equal,
    /// `,`.
    Comma,
    /// `-`.
    Minus,
    /// `~`.
    Tilde,
    /// `!`.
    Bang,
    /// `?`.
    Question,
    /// Another operator between two operands.
    Op(BinOp),
    /// A name.
    Name(Form),
    /// A number below 2 to the power of 64.
    Number(u64),
    /// A larger number.
    Huge,
    /// A character, by its byte.
    Char(u8),
    /// A text in quotes.
    Str,
    /// A reference.
    Ref,
    /// Two hexadecimal digits, by their byte.
    Pair(u8),
    /// A word that is no name and no number.
    Other,
}
