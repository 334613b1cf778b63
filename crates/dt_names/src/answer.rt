//! The answer of the search for clashes.

use edt_base::NodeId;

/// What a search for clashes found.
#[derive(Debug, Drop)]
pub enum Clash {
    /// The first definition that differs from an earlier one of its name is one of this node.
    At(NodeId),
    /// No two definitions of one name differ. These are the places, in rising order, of those that
    /// repeat an earlier one, which a header leaves out. The first of `Facts` stands at place 0.
    Doubles(Vec<u64>),
}
