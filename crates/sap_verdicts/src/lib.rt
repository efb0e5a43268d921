//! The lines that tell verdicts on a run: what a formula is, whether it is true there, what that says of the file, and why.
#![tactic(auto)]

mod finding;
mod laws;
mod marks;
mod standing;
mod statement;
mod verdict_text;

pub use finding::{Finding, find_verdicts};
pub use laws::{
    marks_by_hand, one_finding, one_run_decides, standings_by_hand, standings_say,
    verdict_lines_by_hand,
};
pub use marks::verdict_marks;
pub use standing::Standing;
pub use statement::Statement;
pub use verdict_text::{push_verdicts, verdict_lines};
