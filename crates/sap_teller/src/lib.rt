//! Runs of processes, done and told line by line.
#![tactic(auto)]

mod before;
mod doing;
mod finding;
mod found_out;
mod outcomes;
mod said;
mod telling;
mod told_run;
mod who;

pub use telling::{Along, tell_line, tell_line_apart};
pub use told_run::{ToldRun, WholeRun, started, tell_run};
pub use who::{note_players, part_of, told_actor};
