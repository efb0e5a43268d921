//! Which rules are silent, by their names, and a theory whose rules are others.
#![tactic(auto)]

mod laws;
mod names;
mod theory;

pub use laws::names_by_hand;
pub use names::is_silent;
pub use theory::replace_rules;
