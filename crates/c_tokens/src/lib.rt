//! The tokens of C text and its logical lines (ISO C, 5.1.1.2 and 6.4).
#![tactic(auto)]

mod grammar;
mod join;
mod laws;
mod lex;
mod lines;
mod tok;
mod writing;

pub use grammar::kind_of;
pub use laws::{
    a_text_has_one_list_of_lines, identifiers_are_words, identifiers_grow, numbers_count_newlines,
    shown_tokens_are_read, spellings_are_read,
};
pub use lines::Lines;
pub use tok::{CEnd, Line, Tok, TokKind};
pub use writing::show;
