//! Runs as JSON: which bytes are a run, and how a run is written.
#![tactic(auto)]

mod json_fault;
mod laws;
mod listed;
mod lists;
mod operands;
mod read;
mod read_operands;
mod read_steps;
mod step_arrays;
mod step_of;
mod strings;
mod values;
mod write;

pub use json_fault::JsonFault;
pub use laws::{
    arrays_by_hand, json_runs_can_be_written, one_json_run, some_json_run, written_json_is_read,
};
pub use read::read_json;
pub use write::write_json;
