//! Which written use a cause of refusal speaks of, and through which uses one comes to it.
#![tactic(auto)]

mod large;
mod laws;
mod met;
mod other;
mod use_word;

pub use large::large_use;
pub use laws::{
    large_uses_are_named, use_words_by_hand, uses_are_passed, written_uses_are_written,
};
pub use other::other_use;
pub use use_word::UseWord;
