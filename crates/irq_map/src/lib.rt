//! Interrupts, and the controllers to which they go through interrupt maps.
#![tactic(auto)]

mod gic;
mod irqs;
mod unit;
mod written;

pub use irqs::interrupts;
