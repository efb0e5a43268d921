//! What an adversary knows: entries that come one after another, each of which can be deduced from what was given.
#![tactic(auto)]

mod deny;
mod entry;
mod knowledge;
mod laws;
mod lines;
mod origin;
mod stored;

pub use deny::Deny;
pub use knowledge::Knowledge;
pub use laws::{
    deducing_is_transitive, derivations_can_be_entered, numbers_stay, one_answer_of_applications,
};
pub use origin::Origin;
