//! A map from terms to terms, and a store that is kept as one.
#![tactic(auto)]

mod store;
mod term_map;

pub use store::unset;
pub use term_map::TermMap;
