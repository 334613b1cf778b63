//! Reads a devicetree source (Devicetree Specification v0.4, chapter 6): its statements, or the
//! first fault.
#![tactic(auto)]

mod bytes;
mod expr;
mod expressions;
mod frames;
mod laws;
mod mode;
mod names;
mod numbers;
mod parser;
mod script;
mod source;
mod statements;
mod stop;
mod targets;
mod terminal;
mod texts;
mod token;
mod values;

pub use expr::{BinOp, Expr, ExprFault, UnOp, eval};
pub use laws::a_source_has_one_script;
pub use script::{Act, RawCell, RawPart, Script, Stmt, Target};
pub use source::parse;
