//! Runs of either kind, and which are asked for.
use sap_runs::{PSteps, RSteps};

/// Which runs are asked for.
#[derive(Clone, Copy)]
pub enum Kinds {
    /// Runs of processes.
    Process,
    /// Runs of rules.
    Rules,
    /// Either, as the head tells.
    Either,
}

/// The steps of a run of one kind.
#[derive(Drop)]
pub enum Run {
    Process(PSteps),
    Rules(RSteps),
}
