//! Notes on a file that is accepted: what is so and may not be meant.
#![tactic(auto)]

mod fact_words;
mod facts;
mod find;
mod laws;
mod led;
mod merge;
mod note;
mod notes;
mod other;
mod symbols;
mod told;

pub use laws::{facts_by_hand, notes_by_hand, one_notes_text, symbols_of_equations};
pub use note::{Kind, Note};
pub use notes::{notes_on, push_notes};
