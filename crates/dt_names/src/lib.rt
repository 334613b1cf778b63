//! The definitions that the header has of a bound tree, one by one and without memory (Zephyr 3.7,
//! "Devicetree API" and its macros.bnf). `facts` in `specs/Facts.antt` is the table of them.
#![tactic(auto)]

mod answer;
mod cell_rows;
mod child_place;
mod child_rows;
mod elem_rows;
mod elems;
mod fact;
mod facts;
mod firsts;
mod forms;
mod held;
mod inst_rows;
mod irq_rows;
mod key;
mod labels;
mod laws;
mod left;
mod length;
mod list;
mod match_rows;
mod node_rows;
mod piece;
mod pieces;
mod place;
mod place_rows;
mod prop_rows;
mod reg_rows;
mod row;
mod rows;
mod search;
mod section;
mod sections;
mod spelled;
mod tail;
mod texts;
mod tree_rows;
mod word;

pub use answer::Clash;
pub use fact::Fact;
pub use facts::Facts;
pub use forms::form;
pub use laws::names_are_told;
pub use piece::{Params, Piece};
pub use pieces::Pieces;
pub use search::clash;
