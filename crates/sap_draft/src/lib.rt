//! Processes as they are written: the grammar and its reader.
#![tactic(auto)]

mod laws;
mod limits;
mod process;

pub use laws::{
    located_by_hand, located_processes, one_process, processes_are_printable, processes_by_hand,
    same_processes, some_process,
};
pub use limits::FILE_LIMITS;
pub use process::read_process;
