//! Reads a binding file: the YAML in which Zephyr 3.7's bindings are written.
#![tactic(auto)]

mod block_text;
mod blocks;
mod file;
mod folding;
mod front;
mod keys;
mod laws;
mod lines;
mod reader;
mod rest;
mod scalar;
mod stop;
mod texts;
mod values;

pub use file::read;
pub use laws::{read_files_are_written, written_files_are_read};
