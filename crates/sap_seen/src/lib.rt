//! Which written place is seen at a path of a body, where names without parameters are replaced and other uses are left.
#![tactic(auto)]

mod laws;
mod seen;

pub use laws::{seen_by_hand, seen_nodes_have_numbers, seen_places};
pub use seen::{SeenPlace, seen_at};
