//! Registers and ranges of a devicetree's nodes, and the translation of addresses.
#![tactic(auto)]

mod address_ranges;
mod cells;
mod laws;
mod nodes;
mod registers;
mod translation;

pub use address_ranges::ranges;
pub use laws::translated_addresses_have_128_bits;
pub use registers::regs;
pub use translation::translate;
