//! Short runs: what their steps mean, when one is refused, and the runs of processes that they stand for, found.
#![tactic(auto)]

mod by_hand;
mod fill_at;
mod fill_fault;
mod filled;
mod filling;
mod filling_steps;
mod laws;
mod unfilled;

pub use by_hand::steps_by_hand;
pub use fill_at::FillAt;
pub use fill_fault::FillFault;
pub use filled::fill;
pub use laws::{
    filled_runs_are_legal, one_short_answer, refused_steps_cannot_be_filled,
    short_refusals_are_one, short_runs_are_runs, short_runs_by_hand, short_runs_can_be_filled,
    some_short_answer, sparing_runs_bring_no_name,
};
pub use sap_derive::{Derivation, Line, LineList, derive};
