//! What a call ends with, and how its answer is put on out or on err.
#![tactic(auto)]

mod answer;
mod delivering;
mod ending;
mod fetching;
mod refusal;

pub use delivering::deliver;
pub use ending::{Ending, of_fault, of_file, of_refused, of_run, of_text};
pub use fetching::fetched;
pub use refusal::{Refusal, told};
