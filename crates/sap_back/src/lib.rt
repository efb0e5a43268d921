//! Runs of the rules of a process to runs of the process.
#![tactic(auto)]

mod back_at;
mod conversion;
mod laws;
mod replay;

pub use back_at::BackAt;
pub use conversion::{rule_trace, to_process};
pub use laws::{
    counted_runs_by_hand, legal_runs_have_runs_opposite, lines_are_followed, names_stand_in_lines,
    numbers_by_hand, one_converted_run, rule_runs_have_one_answer, steps_are_counted,
    turns_by_hand,
};
