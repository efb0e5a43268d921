//! Runs of processes as pictures.
#![tactic(auto)]

mod chart;
mod drawn_by_hand;
mod figure;
mod labels;
mod laws;
mod lifelines;
mod rows;
mod run;

pub use drawn_by_hand::charts_by_hand;
pub use figure::Figure;
pub use laws::{charts_are_well_formed, drawn_runs_are_legal, one_chart};
pub use run::chart_run;
