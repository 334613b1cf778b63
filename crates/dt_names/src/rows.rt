//! How rows are made.

ghost use Rattle.std.specs.Prelude.{◌≡◌, ◌++◌, ◌∷◌, [], List};
ghost use Rattle.edt_base.specs.Nodes.{path_at};
ghost use Rattle.edt_base.specs.NodeData.{NodeData};
ghost use Rattle.dt_names.specs.Facts.{link, walks};
ghost use Rattle.dt_names.specs.Pieces.{lit};
ghost use Rattle.dt_names.specs.Inner.Rows.{at_pieces, cell_row, fact_of, number_row, plain_row, things_at, tree_row, walk_row};

use crate::fact::Queue;
use crate::piece::{Params, Piece};
use crate::row::{At, Body, Ending, Row, Things};
use edt_base::Bound;

/// A definition of a node, without parameters.
pub(crate) fn plain<'a>(owner: u32, at: At<'a>, ending: Ending<'a>, body: Body<'a>) -> Row<'a>
    ensures { result ≡ plain_row owner at.entry ending.entry body.entry }
{
    walk(owner, at, ending, Params::Plain, body)
}

/// A definition of a node, with parameters.
pub(crate) fn walk<'a>(
    owner: u32,
    at: At<'a>,
    ending: Ending<'a>,
    params: Params,
    body: Body<'a>,
) -> Row<'a>
    ensures { result ≡ walk_row owner at.entry ending.entry params body.entry }
{
    Row {
        owner,
        of_tree: false,
        goes_on: false,
        at,
        ending,
        params,
        body,
    }
}

/// A definition of a node whose body is a number.
pub(crate) fn number<'a>(owner: u32, at: At<'a>, ending: Ending<'a>, number: u128) -> Row<'a>
    ensures { result ≡ number_row owner at.entry ending.entry number }
{
    plain(owner, at, ending, Body::One(Piece::Num(number)))
}

/// A definition on a cell, whose body is a number: it goes on about the entry of the one before it.
pub(crate) fn of_cell<'a>(owner: u32, at: At<'a>, ending: Ending<'a>, number: u128) -> Row<'a>
    ensures { result ≡ cell_row owner at.entry ending.entry number }
{
    Row {
        owner,
        of_tree: false,
        goes_on: true,
        at,
        ending,
        params: Params::Plain,
        body: Body::One(Piece::Num(number)),
    }
}

/// The three walks of a name over things.
pub(crate) fn walks<'a>(
    bound: &'a Bound,
    owner: u32,
    at: At<'a>,
    mark: &'static str,
    things: Things<'a>,
) -> Queue<'a>
    ensures { result
        ≡ walks owner (path_at bound.now.tree.nodes owner)
        (at_pieces at.entry ++ lit mark.now ∷ [])
        (things_at bound.now.tree.nodes owner things.entry) }
{
    let body = Body::Visits(things);
    Queue::four(
        bound,
        Some(walk(owner, at, Ending::Mark(mark), Params::Fn, body)),
        Some(walk(owner, at, Ending::Marks(mark, "_SEP"), Params::FnSep, body)),
        Some(walk(
            owner,
            at,
            Ending::Marks(mark, "_VARGS"),
            Params::FnVargs,
            body,
        )),
        None,
    )
}

/// A definition of the tree, which belongs to a node.
pub(crate) fn tree_row<'a>(
    owner: u32,
    at: At<'a>,
    ending: Ending<'a>,
    params: Params,
    body: Body<'a>,
) -> Row<'a>
    ensures { result ≡ tree_row owner at.entry ending.entry params body.entry }
{
    Row {
        owner,
        of_tree: true,
        goes_on: false,
        at,
        ending,
        params,
        body,
    }
}

/// The definition of a word's node.
pub(crate) fn link<'a>(mark: &'static str, word: &'a [u8], node: u32) -> Row<'a>
    ensures { (nodes : List NodeData) → fact_of nodes result
        ≡ link nodes mark.now (word.now, node) }
{
    tree_row(
        node,
        At::Itself,
        Ending::Word(mark, word),
        Params::Plain,
        Body::Id(node as usize),
    )
}
