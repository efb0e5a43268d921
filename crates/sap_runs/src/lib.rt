//! Steps of runs as they are written, with every choice named.
#![tactic(auto)]

mod copies;
mod laws;
mod limits;
mod process_step;
mod rule_step;
mod short_step;

pub use laws::{limit_by_hand, marks_of_steps_by_hand, short_steps_by_hand};
pub use limits::MOST_SHORT_STEPS;
pub use process_step::{PStep, PSteps};
pub use rule_step::{RStep, RSteps};
pub use short_step::{SStep, SSteps};
