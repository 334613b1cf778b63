//! Where in the grammar a parser stands.

use crate::expr::{BinOp, UnOp};
use crate::terminal::{Form, Width};

/// Which statements stood at the top so far.
#[derive(Clone, Copy)]
pub(crate) enum Stage {
    /// None, and the first has to be `/dts-v1/;`.
    First,
    /// `/dts-v1/;` alone, or none.
    Versions,
    /// Others.
    Rest,
}

/// What the directive that was read waits for.
#[derive(Clone, Copy)]
pub(crate) enum Wanted {
    /// The first number of `/memreserve/`.
    FirstNumber,
    /// Its second number.
    SecondNumber,
    /// The reference of `/delete-node/`.
    DeletedRef,
    /// The reference of `/omit-if-no-ref/`.
    OmittedRef,
    /// The name of `/delete-node/`.
    DeletedChild,
    /// The name of `/delete-property/`.
    DeletedProp,
}

/// What is read of a list.
#[derive(Clone, Copy)]
pub(crate) enum Listing {
    /// Nothing.
    Empty,
    /// Labels alone.
    Labels,
    /// Elements.
    Elements,
}

/// A place in the grammar.
#[derive(Clone, Copy)]
pub(crate) enum Mode {
    /// Where a statement may begin, or after labels and marks.
    Body,
    /// Behind a name, which may be a label, a node or a property.
    Named(Form),
    /// Behind `/` or a reference: a `{` follows.
    Opening,
    /// At the end of a statement: a `;` follows.
    Ending,
    /// Behind a directive.
    Directive(Wanted),
    /// Where a part of a value may begin.
    Value,
    /// Behind a part.
    Part,
    /// Behind `/bits/`.
    Bits,
    /// Behind the number of `/bits/`.
    Angle(Width),
    /// In a list of elements.
    Cells(Width, Listing),
    /// In a list of pairs of digits.
    Pairs(Listing),
    /// Where an operand begins.
    Operand(Width),
    /// Behind an operand, which is worth this.
    Operator(Width, Option<u64>),
}

/// A case of an expression that waits for its last operand.
#[derive(Clone, Copy)]
pub(crate) enum Frame {
    /// Round brackets.
    Round,
    /// An operator before its operand.
    Un(UnOp),
    /// A left operand's worth, and the operator after it.
    Bin(BinOp, Option<u64>),
    /// What stands before `?` is worth this.
    Cond(Option<u64>),
    /// What stands before `?`, and before `:`.
    Else(Option<u64>, Option<u64>),
}

/// A rule that a source breaks.
#[derive(Clone, Copy, Debug)]
pub(crate) enum Breach {
    /// A token that continues no source, or bytes that are none.
    S1,
    /// Too deep, or too long an expression.
    S2,
    /// An element without a value, or one that doesn't fit.
    S5,
    /// Another file is asked for.
    S6,
}
