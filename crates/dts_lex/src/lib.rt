//! The tokens of a devicetree source (Devicetree Specification v0.4, chapter 6), one after another,
//! as slices of it and without memory.
#![tactic(auto)]

mod between;
mod laws;
mod lexer;
mod names;
mod opened;
mod punctuators;
mod token;
mod words;

pub use laws::{spelled_tokens_are_read, tokens_are_slices};
pub use lexer::{LexFault, Lexer, Span, SpanKind};
