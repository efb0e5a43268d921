//! What stands under a symbol, where as much stands there as is asked for.
#![tactic(auto)]

mod parts;

pub use parts::{first_part, opened, opened_by_key, second_part, verifies};
