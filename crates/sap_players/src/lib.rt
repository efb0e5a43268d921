//! Which one of its role a thread is, by who did something in which role.
#![tactic(auto)]

mod numbers;
mod numbers_laws;

pub use numbers::RoleNumbers;
pub use numbers_laws::{numbers_are_one, numbers_by_hand};
