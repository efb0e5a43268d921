//! How fresh names are told: by the word of what drew them and which one of that word they are; and terms and facts with their names
//! told so.
#![tactic(auto)]

mod by_hand;
mod drawn;
mod facts;
mod laws;
mod names;
mod terms;

pub use by_hand::{names_by_hand, terms_by_hand};
pub use facts::{push_arrow, push_fact, push_facts};
pub use laws::{names_are_called_by_their_words, names_are_told_apart, told_as_spelled};
pub use names::{Names, push_name, push_names};
pub use terms::{push_open_term, push_term};
