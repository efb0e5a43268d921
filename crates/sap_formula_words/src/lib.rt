//! Which word of a text each part of a formula is.
#![tactic(auto)]

mod faults;
mod laws;
mod place;
mod statement;
mod statement_laws;
mod terms;
mod walk;

pub use faults::faulty_part;
pub use laws::{part_words_by_hand, parts_and_words};
pub use statement::{faulty_word, statement_part_word};
pub use statement_laws::statements_and_words;
pub use walk::part_word;
