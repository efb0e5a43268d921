//! Lines of runs: which bytes are a step's line, and the steps that lines are.
#![tactic(auto)]

mod laws;
mod numbered_steps;
mod process_line;
mod rule_line;
mod short_laws;
mod short_line;
mod take;
mod take_steps;
mod take_term;
mod take_word;
mod whole_laws;
mod whole_words;
mod written_word;

pub use laws::{lines_are_one, step_lines_are_lines, written_lines_are_read};
pub use numbered_steps::{process_one, process_two, rule_one};
pub use process_line::read_process_line;
pub use rule_line::read_rule_line;
pub use short_laws::{short_lines_are_one, short_lines_by_hand};
pub use short_line::read_short_line;
pub use whole_laws::{
    one_run_term, one_run_word, run_words_are_decided, spelled_terms_can_be_written,
    written_words_are_ascii,
};
pub use whole_words::{
    is_run_name, read_fresh_name, read_public_name, read_run_term, read_run_variable,
};
