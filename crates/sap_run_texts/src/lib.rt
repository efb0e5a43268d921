//! The texts of runs, read whole and in pieces, and printed.
#![tactic(auto)]

mod fitting;
mod laws;
mod limits;
mod phase;
mod print;
mod read;
mod read_short;
mod reader;
mod run;
mod run_fault;
mod short_laws;
mod step_text;

pub use laws::{
    limits_by_hand, named_steps_can_be_written, one_run, printed_runs_are_read,
    read_runs_are_read_again, read_runs_can_be_written, some_run, writable_by_hand,
};
pub use limits::{MOST_PROCESS_STEPS, MOST_RULE_STEPS};
pub use print::{print_prun, print_rrun};
pub use read::{read_prun, read_rrun};
pub use read_short::read_srun;
pub use reader::RunReader;
pub use run::{Kinds, Run};
pub use run_fault::RunFault;
pub use short_laws::one_short_run;
