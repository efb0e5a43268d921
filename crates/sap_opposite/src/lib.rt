//! Which line of a run of rules each line of the run of the process is opposite to that it is converted to.
#![tactic(auto)]

mod steps;
mod steps_laws;

pub use steps::opposite_steps;
pub use steps_laws::{each_line_has_its_step, steps_by_hand};
