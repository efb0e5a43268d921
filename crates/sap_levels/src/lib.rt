//! The levels of texts that are put together.
#![tactic(auto)]

mod levels;

pub use levels::fits;
