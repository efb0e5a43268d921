//! Formulas under restrictions that they carry themselves.
#![tactic(auto)]

mod inlining;
mod laws;

pub use inlining::inline;
pub use laws::inlining_keeps_lemmas;
