//! Facts whose arguments are numbers of shared terms: made, matched with the left side of a rule, and built by its other sides.
#![tactic(auto)]

mod bindings;
mod evaluated;
mod fitting;
mod forms;
mod laws;
mod made;
mod matching;
mod pile;
mod shared_fact;

pub use bindings::{are_messages, are_of, are_small_forms, number_bindings};
pub use evaluated::{forms_of_facts, have_args};
pub use fitting::fit_fact;
pub use forms::{Sides, form_facts, form_sides};
pub use laws::{
    facts_fit_in_turn, large_facts_are_in_parts, message_facts_are_forms, numbers_give_terms,
    plain_facts_are_met, shared_facts_stay,
};
pub use made::{find_room, is_among, put_last};
pub use matching::match_facts;
pub use pile::SharedPile;
pub use shared_fact::{SharedFact, built_fact, built_facts, share_fact, share_facts};
