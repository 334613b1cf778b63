//! Tokens of a worklist.

ghost use Rattle.std.specs.Prelude.{◌≡◌, IfOk};

use crate::row::Row;
use crate::tokens::copy_tok;
use c_tokens::Tok;
use std::alloc::{AllocError, Global};

/// A token and the number of the set of the names that are barred for it.
#[derive(Debug, Drop)]
pub(crate) struct Pend {
    pub tok: Tok,
    pub set: usize,
}

/// An argument that is to be prepared.
#[derive(Drop)]
pub(crate) struct Todo {
    /// The argument as written, if it is needed so.
    pub written: Row,
    /// What is to be expanded.
    pub raw: Row,
    /// Whether it is to be expanded.
    pub wanted: bool,
}

/// An argument as written and expanded, each where it is needed.
#[derive(Drop)]
pub(crate) struct Given {
    pub written: Row,
    pub full: Vec<Pend>,
}

/// A copy of a token.
pub(crate) fn copy_pend(alloc: Global, pend: &Pend) -> Result<Pend, AllocError>
    ensures { IfOk result (λ p. p ≡ pend.now) }
{
    Ok(Pend {
        tok: copy_tok(alloc, &pend.tok)?,
        set: pend.set,
    })
}
