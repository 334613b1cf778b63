//! Macros of C: definitions and expansion (ISO C, 6.10.3).
#![tactic(auto)]

mod collect;
mod def;
mod defs;
mod directive;
mod expansion;
mod joiner;
mod laws;
mod machine;
mod marks;
mod needs;
mod numbers;
mod part;
mod pend;
mod place;
mod places;
mod ready;
mod row;
mod same;
mod sets;
mod strings;
mod text;
mod tokens;
mod turn;

pub use def::Def;
pub use defs::Defs;
pub use expansion::expand;
pub use laws::{
    an_expansion_costs_the_same_everywhere, an_expansion_may_be_followed, calls_are_taken,
    every_text_has_one_outcome, idle_tokens_stay, other_bars_are_idle, words_are_joined,
};
