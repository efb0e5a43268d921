//! What can be deduced from terms, decided.
#![tactic(auto)]

mod bring;
mod by_hand;
mod clause;
mod closure;
mod derivation;
mod derived;
mod grounds;
mod laws;
mod line;
mod listing;
mod needed;
mod openers;
mod search;
mod shape;
mod state;
mod write;

pub use by_hand::lines_by_hand;
pub use derivation::Derivation;
pub use derived::derive;
pub use laws::{
    deducibility_is_decided, derivations_stay_near, found_goals_are_deducible, near_by_hand,
};
pub use line::{Line, LineList};
pub use search::Search;
