//! Which word of a text each node of a term, or of facts, begins with.
#![tactic(auto)]

mod facts;
mod laws;
mod past;
mod walk;

pub use laws::{facts_and_words, node_words_by_hand, nodes_and_words};
pub use past::{past_args, past_fact, past_facts, past_term};
pub use walk::node_word;
