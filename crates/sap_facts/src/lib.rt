//! Facts by their numbers, of which linear ones can be taken.
#![tactic(auto)]

mod citing;
mod pile;

pub use citing::{HasFacts, first_missing};
pub use pile::Pile;
