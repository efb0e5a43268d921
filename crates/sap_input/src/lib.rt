//! The line by which a thread takes an entry that is pending.
#![tactic(auto)]

mod input;

pub use input::push_input;
