//! Which word of a text each node at the head of a written process has.
#![tactic(auto)]

mod actions;
mod facts;
mod head;
mod laws;
mod terms;

pub use head::head_word;
pub use laws::{heads_and_words, heads_by_hand, one_head, places_by_hand, some_head};
