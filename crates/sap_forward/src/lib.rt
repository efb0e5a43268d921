//! Runs of processes to runs of their rules.
#![tactic(auto)]

mod adversary;
mod conversion;
mod desk;
mod embedding;
mod exchange;
mod finding;
mod laws;
mod meeting;
mod moving;
mod naming;
mod seats;
mod splitting;
mod trace;

pub use conversion::to_rules;
pub use laws::{
    legal_runs_have_lines_opposite, lines_are_answered, names_are_least,
    process_runs_have_one_answer, turns_by_hand,
};
pub use sap_lines::At;
pub use trace::process_trace;
