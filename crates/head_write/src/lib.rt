//! The header's text: one line a definition (Zephyr 3.7, "Devicetree API"), written without memory.
#![tactic(auto)]

mod entry;
mod header;
mod length;
mod line;
mod text;

pub use header::{emit, emit_fact};
pub use length::measure;
