//! What may stand next in a file, and which word is the first that may not, by a table of a file's words.
#![tactic(auto)]

mod deep;
mod expected;
mod expected_laws;
mod file_laws;
mod kind;
mod kind_laws;
mod kind_text;
mod kinds;
mod laws;
mod level_laws;
mod may_stand;
mod nested;
mod open_marks;
mod part_laws;
mod seen;
mod table;
mod walk;
mod wanted;
mod way;
mod wrong;

pub use expected::Expected;
pub use expected_laws::{
    expected_texts_by_hand, levels_that_count, one_expected, too_deep_by_hand,
};
pub use file_laws::{files_are_their_words, table_is_the_grammar};
pub use kind::WordKind;
pub use kind_laws::{kinds_are_what_may_stand, kinds_at_limits_by_hand, kinds_by_hand};
pub use kind_text::{push_expected, wanted_texts_by_hand};
pub use laws::{items_by_hand, table_goes_on};
pub use level_laws::levels_by_hand;
pub use nested::Nested;
pub use open_marks::open_marks_by_hand;
pub use part_laws::{
    facts_that_follow_are_spelled, formulas_that_follow_are_spelled, names_without_letters,
    processes_that_follow_are_spelled, terms_that_follow_are_spelled,
};
pub use wrong::{Wrong, wrong_word};
