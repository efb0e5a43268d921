//! The judge of formulas on traces: traces and formulas are made ready, and the search through facts tells the verdict.
#![tactic(auto)]

mod claiming;
mod extent;
mod folding;
mod laws;
mod laying;
mod ready;
mod readying;
mod rows;
mod verdict;

pub use laws::{judging_by_hand, one_verdict, reasons_by_hand, there_is_a_reason};
pub use ready::ReadyTrace;
pub use verdict::{MOST_COST, Verdict, judge};
