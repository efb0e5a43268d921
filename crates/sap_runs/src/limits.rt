//! The limit on short runs.

/// The most steps that a short run has.
pub const MOST_SHORT_STEPS: u64 = 500;
