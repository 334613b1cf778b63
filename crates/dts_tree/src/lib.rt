//! The tree that the statements of devicetree sources leave (Devicetree Specification v0.4,
//! chapters 2 and 6), or the first broken rule.
#![tactic(auto)]

mod arena;
mod building;
mod draft;
mod drafted;
mod faults;
mod finder;
mod finish;
mod grown;
mod labels;
mod laws;
mod left;
mod named;
mod names;
mod nodes;
mod order;
mod parts;
mod phandles;
mod reader;
mod rules;
mod slots;
mod sources;
mod spot;
mod stop;
mod values;

pub use building::build;
pub use laws::deeds_stay_until_they_are_covered;
pub use sources::check_references;
