//! Specifiers, and the nexus nodes through whose maps they go.
#![tactic(auto)]

mod cells;
mod cutting;
mod following;
mod laws;
mod matches;
mod naming;
mod passing;
mod phandle_array;
mod rows;
mod space;

pub use cutting::{Specifier, first_entry};
pub use following::{follow, go_along};
pub use laws::{a_match_follows_from_the_parents, specifiers_are_followed_along_chains};
pub use matches::{Matches, view_at};
pub use naming::named;
pub use phandle_array::{entries, has_rest};
pub use space::{Space, cell_count};
