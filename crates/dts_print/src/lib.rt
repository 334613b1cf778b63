//! The source that prints a tree (Devicetree Specification v0.4, chapter 6), written without
//! memory.
#![tactic(auto)]

mod depth;
mod length;
mod node;
mod part;
mod source;
mod text;

pub use length::print_len;
pub use source::print;
