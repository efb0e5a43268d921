//! On which line of a file the place stands to which one comes along a path.
#![tactic(auto)]

mod laws;
mod places;

pub use laws::{lines_are_one, lines_by_hand};
pub use places::FilePlaces;
