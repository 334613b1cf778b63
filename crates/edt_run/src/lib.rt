//! The top call: words to status, output and note.
#![tactic(auto)]

mod apart;
mod asked;
mod decision;
mod definitions;
mod expanding;
mod header;
mod laws;
mod node;
mod piece;
mod reader;
mod refusal;
mod sources;
mod token;
mod top;
mod trail;
mod tree_job;
mod words;

pub use asked::{Cmd, Job};
pub use top::{Status, run};
pub use words::job;
