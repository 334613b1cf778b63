//! One binding file: from its YAML value to its record, or the first rule that the file breaks
//! (Zephyr 3.7, "Devicetree bindings syntax").
#![tactic(auto)]

mod building;
mod fits;
mod form;
mod loading;
mod maps;
mod read;
mod record;
mod rules;

pub use loading::load;
pub use record::{BindingRec, Filter, Include, PropSpec};
