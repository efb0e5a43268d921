//! The limits on the text of a run.

/// The most steps that the text of a run of a process has, in lines behind the head.
pub const MOST_PROCESS_STEPS: u64 = 5_000;

/// The most steps that the text of a run of rules has, in lines behind the head. It is what the rules of a run of 5,000 steps
/// of a process can take: four for each, and one for the beginning.
pub const MOST_RULE_STEPS: u64 = 20_001;
