//! The typed properties of nodes (Zephyr 3.7, "Devicetree bindings syntax").
#![tactic(auto)]

mod choices;
mod declaring;
mod forms;
mod given;
mod laws;
mod places;
mod properties;
mod typing;
mod written;

pub use laws::{
    declared_properties_are_held, declared_properties_are_typed, typed_properties_are_whole,
};
pub use typing::typed;
