//! The nodes of a small source.

use edt_base::Text;

/// A node: its name, and the nodes below it in their order.
#[derive(Debug, Drop)]
pub(crate) struct Node {
    pub(crate) name: Text,
    pub(crate) below: Vec<Node>,
}
