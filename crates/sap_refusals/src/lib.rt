//! Why files, theories and runs are refused, in words: the line for each cause.
#![tactic(auto)]

mod fault_text;
mod file_lines;
mod run_fault_text;
mod short_lines;
mod theory_lines;
mod words;

pub use file_lines::{file_line, long_file_line};
pub use run_fault_text::{broken_line, json_line, no_run_line, process_line, rule_line};
pub use sap_answer::{Refusal, told};
pub use short_lines::{fill_line, short_line};
pub use theory_lines::{long_theory_line, theory_line};
