//! Binding files with their includes, merged (Zephyr 3.7, "Devicetree bindings syntax").
#![tactic(auto)]

mod checks;
mod entries;
mod entry;
mod index;
mod laws;
mod level;
mod library;
mod lookup;
mod matching;
mod merging;
mod names;
mod own;
mod reached;
mod reading;
mod resolve;
mod same;
mod shared;
mod sound;
mod strings;
mod table;
mod twins;
mod view;
mod walk;

pub use laws::{merges_once, met_again, views_show, views_tell, walks_once};
pub use library::Library;
pub use view::{PropView, View};
