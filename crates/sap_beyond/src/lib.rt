//! Which place of an expansion is the first beyond a limit.
#![tactic(auto)]

mod beyond;
mod by_hand;
mod extents;
mod laws;

pub use beyond::{level_beyond, place_beyond};
pub use by_hand::places_beyond_by_hand;
pub use laws::{one_first_deep, one_numbered};
