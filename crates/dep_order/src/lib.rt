//! The order of dependencies, by which a devicetree's nodes get their ordinals.
#![tactic(auto)]

mod ends;
mod laws;
mod placing;
mod ready;
mod turns;

pub use ends::OrderEnd;
pub use laws::one_outcome;
pub use placing::order;
