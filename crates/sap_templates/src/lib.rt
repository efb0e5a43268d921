//! The rules of a process, which are made of its places one by one, after their outlines.
#![tactic(auto)]

mod generation;
mod making;
mod terms;

pub use generation::generate;
