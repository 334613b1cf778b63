//! The statements of a source.

use edt_base::{Part, Text};
use std::marker::Model;

/// A node that a statement names.
#[derive(Debug, Drop)]
pub enum Target {
    /// The root, `/`.
    Root,
    /// A child of the node in whose body the statement stands.
    Child(Text),
    /// The node of a label.
    ByLabel(Text),
    /// The node of a path.
    ByPath(Text),
}

/// A cell of a list, before references are read.
#[derive(Debug, Drop)]
pub enum RawCell {
    /// A number.
    Num(u32),
    /// A node, whose phandle it is.
    Ref(Target),
}

/// A part of a value, before references are read.
#[derive(Debug, Drop)]
pub enum RawPart {
    /// A text, bytes, or elements of 16 or 64 bits.
    Plain(Part),
    /// Cells of 32 bits.
    Cells(Vec<RawCell>),
    /// The path of a node.
    Path(Target),
}

/// What a statement does.
#[derive(Debug, Drop)]
pub enum Act {
    /// A node is opened: what follows up to its `Close` stands in it.
    Open(Target),
    /// The innermost node is closed.
    Close,
    /// The innermost node gets a label.
    Label(Text),
    /// A property of the innermost node gets a value.
    Assign(Text, Vec<RawPart>),
    /// A property of the innermost node is deleted.
    DelProp(Text),
    /// A node is deleted.
    DelNode(Target),
    /// A node is left out if nothing refers to it.
    Omit(Target),
}

/// A statement. Contracts see it as the plain `StmtData`.
#[derive(Debug, Drop)]
pub struct Stmt {
    /// The byte of its reference, or its first byte where it has none.
    pub at: u64,
    /// What it does.
    pub act: Act,
}

impl Model for Stmt {
    ghost use Rattle.dts_parse.specs.StmtData.{StmtData};
    ghost use Rattle.dts_parse.specs.ActForm.{act_data};

    ghost Value = { StmtData };

    ghost view = { λ s. record { at = s.at; act = act_data s.act } };
}

/// The statements of a source, in order, well nested. Contracts see the list of them.
#[derive(Debug, Drop)]
pub struct Script {
    /// The statements.
    pub stmts: Vec<Stmt>,
}

impl Model for Script {
    ghost use Rattle.std.specs.Prelude.{List};
    ghost use Rattle.dts_parse.specs.StmtData.{StmtData};
    ghost use Rattle.dts_parse.specs.Nested.{IsNested};

    ghost Value = { List StmtData };

    ghost view = { λ s. s.stmts.items };

    ghost invariant = { λ s. IsNested s.stmts.items };
}

impl Script {
    ghost use Rattle.dts_parse.specs.Nested.{IsNested};

    /// Each end is of an opening and each opening is ended, statements stand where they may, and
    /// the bytes of references rise.
    pub fn is_nested(&self)
        ensures { IsNested self.now }
    {
        let _ = &self.stmts;
    }
}
