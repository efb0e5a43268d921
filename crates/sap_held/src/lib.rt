//! The locks above a place of a process, and which of them an unlock ends.
#![tactic(auto)]

mod held;

pub use held::{Ended, Held, last_of, set_open};
